//! The table of virtual block numbers in an image.
ghost use Rattle.std.specs.Prelude.{◌≡◌, ◌↔◌, ◌⊎◌, ◌+◌, ◌*◌, ◌<◌, ◌≤◌, All, IfErr, IfOk, IfSome, IsTrue, List, MatchResult, Option, Some, false, length, replicate};
ghost use Rattle.std.specs.Bool.{OnFalse, OnTrue};
ghost use Rattle.std.specs.Option.{option_map};
ghost use Rattle.nl_types.specs.Blocks.Entries.{number_of};
ghost use Rattle.nl_types.specs.Blocks.Segments.{IsUsed, total_blocks};
ghost use Rattle.nl_dat.specs.declared.entries.DatEntry.{DatEntry};
ghost use Rattle.nl_dat.specs.EntryBytes.{dat_bytes};
ghost use Rattle.nl_dat.specs.Images.{AreEntriesOf, HasOwn, HasPeriod, HasTakenBlock, IsDatOf, IsEntryAt, IsSoundNumber, IsTableOf, IsTableOver, TakesBlock, entry_told, table_of};
ghost use Rattle.nl_dat.specs.Inside.{births_in};
ghost use Rattle.nl_dat.specs.Table.{HaveOwnPayload, addresses_of, entry_in};
ghost use Rattle.nl_dat.specs.TakenOut.{HaveOwnBlocks};

use crate::entries::{DatEntry, number_in};
use crate::entry_bytes::{NUMBER_SIZE, read_number, write_number};
use nl_sufile::SegTable;
use nl_types::{BlockNumber, CheckpointNumber, Items, Segment, VirtualNumber, VolError};
use nl_vstore::Space;
use std::alloc::{AllocError, Global};

/// What refuses an image for its entries of numbers.
const BAD_ENTRIES: VolError = VolError::BadImage(6);

/// The table that the entries of an image tell, 24 bytes for each number from 1 on, where these are the
/// segments and the latest checkpoint. Refused by `BadImage(6)` where they tell none, and by `Memory`: each
/// number in use has a period that begins, and ends if it does, by the latest checkpoint, and a used block
/// that no other number has.
pub fn read_numbers(
    alloc: Global,
    bytes: &[u8],
    segments: &SegTable,
    latest: CheckpointNumber,
) -> Result<Items<Option<DatEntry>>, VolError>
    requires { length bytes.now ≡ 24 * total_blocks segments.now }
    ensures found { IfOk result (IsTableOf segments.now latest bytes.now) }
    ensures over { IfOk result (λ table. IsTableOver table segments.now) }
    ensures only { (numbers : List (Option DatEntry)) → IsDatOf segments.now latest bytes.now numbers
        → MatchResult result (λ table. table ≡ table_of numbers) (λ e. e ≡ VolError.Memory) }
    ensures refused { IfErr result (λ e. (e ≡ VolError.BadImage 6) ⊎ (e ≡ VolError.Memory)) }
{
    let mut numbers = read_entries(alloc, bytes, segments, latest)?;
    let blocks = segments.sustat().segments * segments.blocks() as usize;
    match are_apart(alloc, numbers.as_slice(), blocks) {
        Ok(true) => match numbers.push_front(None) {
            Ok(()) => Ok(numbers),
            Err(_) => Err(VolError::Memory),
        },
        Ok(false) => Err(BAD_ENTRIES),
        Err(_) => Err(VolError::Memory),
    }
}

/// Fills the place with the entries of numbers, 24 bytes for each.
pub(crate) fn write_numbers(numbers: &[Option<DatEntry>], out: &mut [u8])
    requires { length out.old ≡ 24 * length numbers.now }
    ensures { out.new ≡ dat_bytes numbers.now }
{
    for (i, entry) in numbers.iter().enumerate() {
        let from = NUMBER_SIZE * i;
        write_number(entry, &mut out[from..from + NUMBER_SIZE]);
    }
}

/// What the entries have for each number from 1 on, whichever numbers have one block. There is room for one
/// more.
fn read_entries(
    alloc: Global,
    bytes: &[u8],
    segments: &SegTable,
    latest: CheckpointNumber,
) -> Result<Items<Option<DatEntry>>, VolError>
    requires { length bytes.now ≡ 24 * total_blocks segments.now }
    ensures found { IfOk result (AreEntriesOf segments.now latest bytes.now) }
    ensures only { (numbers : List (Option DatEntry)) → AreEntriesOf segments.now latest bytes.now numbers
        → MatchResult result (λ found. found ≡ numbers) (λ e. e ≡ VolError.Memory) }
    ensures refused { IfErr result (λ e. (e ≡ VolError.BadImage 6) ⊎ (e ≡ VolError.Memory)) }
{
    let count = bytes.len() / NUMBER_SIZE;
    let mut numbers = Vec::with_capacity(alloc, count + 1)?;
    for i in 0..count {
        let Some(entry) = read_entry(bytes, i, segments, latest) else {
            return Err(BAD_ENTRIES);
        };
        numbers.push(entry)?;
    }
    Ok(Items::from_vec(numbers))
}

/// What the entry at a place has for its number, where it is none or a sound one.
fn read_entry(
    bytes: &[u8],
    i: usize,
    segments: &SegTable,
    latest: CheckpointNumber,
) -> Option<Option<DatEntry>>
    requires { 24 * i + 24 ≤ length bytes.now }
    ensures found { IfSome result (IsEntryAt segments.now latest bytes.now i) }
    ensures only { (entry : Option DatEntry) → IsEntryAt segments.now latest bytes.now i entry
        → result ≡ Some entry }
{
    let from = NUMBER_SIZE * i;
    let entry = read_number(&bytes[from..from + NUMBER_SIZE])?;
    if is_sound(&entry, segments, latest) {
        Some(entry)
    } else {
        None
    }
}

fn is_sound(entry: &Option<DatEntry>, segments: &SegTable, latest: CheckpointNumber) -> bool
    ensures { IsTrue result ↔ IsSoundNumber segments.now latest entry.now }
{
    match entry {
        Some(entry) => has_period(entry, latest) && segments.is_used(entry.block),
        None => true,
    }
}

/// Whether the period begins, and ends if it does, by the latest checkpoint.
fn has_period(entry: &DatEntry, latest: CheckpointNumber) -> bool
    ensures { IsTrue result ↔ HasPeriod latest entry.now }
{
    let ends = match entry.end {
        Some(end) => entry.start < end && end <= latest,
        None => true,
    };
    entry.start.get() > 0 && entry.start <= latest && ends
}

/// Whether no two numbers have one block, where there are so many blocks.
fn are_apart(alloc: Global, numbers: &[Option<DatEntry>], blocks: usize) -> Result<bool, AllocError>
    requires { All (λ entry. IfSome entry (λ e. e.block < blocks)) numbers.now }
    ensures { IfOk result (λ apart.
        IsTrue apart ↔ HaveOwnBlocks (addresses_of (entry_told numbers.now))) }
{
    let mut taken = free_blocks(alloc, blocks)?;
    for entry in numbers {
        if !take_block(&mut taken, *entry) {
            return Ok(false);
        }
    }
    Ok(true)
}

/// So many blocks, none of which is taken.
fn free_blocks(alloc: Global, count: usize) -> Result<Items<bool>, AllocError>
    ensures { IfOk result (λ taken. taken ≡ replicate count false) }
{
    let mut taken = Vec::with_capacity(alloc, count)?;
    for _ in 0..count {
        taken.push(false)?;
    }
    Ok(Items::from_vec(taken))
}

/// Takes the block of an entry, if there is one. False where it was taken before.
fn take_block(taken: &mut Items<bool>, entry: Option<DatEntry>) -> bool
    requires { IfSome entry (λ e. e.block < length taken.old) }
    ensures free { OnTrue result (TakesBlock entry taken.old taken.new) }
    ensures twice { OnFalse result (HasTakenBlock entry taken.old) }
{
    let Some(entry) = entry else {
        return true;
    };
    let block = entry.block.get() as usize;
    if taken.as_slice()[block] {
        return false;
    }
    taken.set(block, true);
    true
}

/// Whether the payload at the block of each number in use is its own.
pub(crate) fn have_own_payload<S: Space>(space: &S, table: &[Option<DatEntry>]) -> bool
    requires { IsTableOver table.now (S.content space.now).segments }
    ensures { IsTrue result
        ↔ HaveOwnPayload (addresses_of (entry_in table.now)) (births_in (S.content space.now)) }
{
    for (number, entry) in table.iter().enumerate() {
        if !has_own_payload(space, number as u64, entry) {
            return false;
        }
    }
    true
}

fn has_own_payload<S: Space>(space: &S, number: u64, entry: &Option<DatEntry>) -> bool
    requires { IfSome entry.now (λ e. IsUsed (S.content space.now).segments e.block) }
    ensures { IsTrue result ↔ HasOwn (S.content space.now) number entry.now }
{
    match entry {
        Some(entry) => match number_at(space, entry.block) {
            Some(own) => own.get() == number,
            None => false,
        },
        None => true,
    }
}

/// The number of the payload at a used block, if there is payload.
fn number_at<S: Space>(space: &S, block: BlockNumber) -> Option<VirtualNumber>
    requires { IsUsed (S.content space.now).segments block }
    ensures { result ≡ option_map number_of (births_in (S.content space.now) block) }
{
    let blocks = space.table().blocks();
    let segment = Segment::new(block.get() / blocks);
    number_in(space.summary(segment), block.get() % blocks)
}
