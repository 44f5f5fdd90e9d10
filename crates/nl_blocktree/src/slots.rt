//! The slots of nodes as lists, one node after the other.
ghost use Rattle.std.specs.Prelude.{◌≡◌, ◌≢◌, ◌≤◌, ◌<◌, ◌+◌, ℕ, length, slice_index, IfOk, IfErr, All};
ghost use Rattle.std.specs.List.{AllPairs};
ghost use Rattle.nl_types.specs.Plain.Limits as limits;
ghost use Rattle.nl_types.specs.Blocks.Roots.{numbered};
ghost use Rattle.nl_blocktree.specs.Private.Edits.{ComesBefore, TellsAll, edited, edits_from};

use crate::tree::{Edit, edit_alone};
use nl_types::{VirtualNumber, VolError};
use std::alloc::Global;

/// Edits that tell all data of a chain: its slots, with some edits of them made.
pub(crate) fn told_edits(
    alloc: Global,
    slots: Vec<VirtualNumber>,
    edits: &[Edit],
) -> Result<Vec<Edit>, VolError>
    requires some { 0 < length edits.now }
    requires ascending { AllPairs ComesBefore edits.now }
    requires small { All (λ e. e.offset < limits.index_limit) edits.now }
    requires near { (i : ℕ) → slice_index slots.items i ≢ 0 → i < limits.index_limit }
    ensures ok { IfOk result (λ told. TellsAll slots.items edits.now told.items) }
    ensures errors { IfErr result (λ e. e ≡ VolError.Memory) }
{
    let mut slots = slots;
    trim(&mut slots);
    make_room(&mut slots, edits[edits.len() - 1].offset as usize + 1)?;
    set_slots(&mut slots, edits);
    edits_of(alloc, &slots)
}

/// Makes edits in slots.
fn set_slots(slots: &mut [VirtualNumber], edits: &[Edit])
    requires ascending { AllPairs ComesBefore edits.now }
    requires room { All (λ e. e.offset < length slots.old) edits.now }
    ensures slots { (i : ℕ) → numbered (slice_index slots.new i)
        ≡ edited edits.now (λ i. numbered (slice_index slots.old i)) i }
    ensures count { length slots.new ≡ length slots.old }
{
    for edit in edits {
        slots[edit.offset as usize] = edit.number;
    }
}

/// The edits that tell all slots.
fn edits_of(alloc: Global, slots: &[VirtualNumber]) -> Result<Vec<Edit>, VolError>
    ensures ok { IfOk result (λ told. told.items ≡ edits_from 0 slots.now) }
    ensures errors { IfErr result (λ e. e ≡ VolError.Memory) }
{
    let mut told = Vec::new(alloc);
    for offset in 0..slots.len() {
        told.push(edit_alone(alloc, offset as u64, slots[offset]))?;
    }
    Ok(told)
}

/// Adds holes until there are as many slots as asked.
fn make_room(slots: &mut Vec<VirtualNumber>, room: usize) -> Result<(), VolError>
    ensures room { IfOk result (λ _. room ≤ length slots.new.items) }
    ensures err { IfErr result (λ e. e ≡ VolError.Memory) }
    ensures same { (i : ℕ) → slice_index slots.new.items i ≡ slice_index slots.old.items i }
    ensures len { (n : ℕ) → room ≤ n → length slots.old.items ≤ n → length slots.new.items ≤ n }
{
    for count in slots.len()..room {
        slots.push(VirtualNumber::new(0))?;
    }
    Ok(())
}

/// Takes the holes off the end of the slots.
fn trim(slots: &mut Vec<VirtualNumber>)
    ensures same { (i : ℕ) → slice_index slots.new.items i ≡ slice_index slots.old.items i }
    ensures shorter { length slots.new.items ≤ length slots.old.items }
    ensures tight { (n : ℕ) → length slots.new.items ≡ n + 1 → slice_index slots.new.items n ≢ 0 }
{
    while let Some(last) = slots.last() {
        if last.get() != 0 {
            return;
        }
        let _ = slots.pop();
    }
}
