//! The kept checkpoints in an image.
ghost use Rattle.std.specs.Prelude.{◌≡◌, ◌*◌, ◌+◌, ◌<◌, ◌≤◌, ◌⊎◌, ◌↔◌, ℕ, not, IsTrue, IfOk, IfErr, IfSome, MatchResult, length, take, drop, List, Some, All};
ghost use Rattle.std.specs.List.{AllZip, list_all};
ghost use Rattle.nl_layout.specs.declared.checkpoint_entry.CheckpointEntry.{CheckpointEntry};
ghost use Rattle.nl_layout.specs.Checkpoints.{HasSpelling, Spells};
ghost use Rattle.nl_cpfile.specs.Images.{AreRising, are_known_to, HasNumber, HasRoot, IsCpfileOf, IsEntryOf, Precedes, cpfile_bytes};
ghost use Rattle.nl_cpfile.specs.Tables.{all};

use crate::checkpoint::Checkpoint;
use crate::table::Checkpoints;
use nl_layout::{CHECKPOINT_SIZE, CheckpointEntry, Mark};
use nl_types::{Items, VolError};
use std::alloc::{AllocError, Global};

/// What refuses an image for its entries of checkpoints.
const BAD_ENTRIES: VolError = VolError::BadImage(5);

/// The entries of checkpoints that the bytes of an image of a mark spell, 160 bytes for each. Refused by
/// `BadImage(5)` where they spell none: the numbers rise from 1 at least and stay below the limit, no stamp
/// falls, and under the first mark none is minor; and by `Memory`. The root of an entry and the size of its
/// file of inodes are judged by the blocks that they lead to.
pub fn read_checkpoints(
    alloc: Global,
    mark: Mark,
    bytes: &[u8],
) -> Result<Items<CheckpointEntry>, VolError>
    requires { (n : ℕ) × (length bytes.now ≡ 160 * n) }
    ensures found { IfOk result (IsCpfileOf mark bytes.now) }
    ensures count { IfOk result (λ kept. length bytes.now ≡ 160 * length kept) }
    ensures only { (kept : List CheckpointEntry) → IsCpfileOf mark bytes.now kept
        → MatchResult result (λ found. found ≡ kept) (λ e. e ≡ VolError.Memory) }
    ensures refused { IfErr result (λ e. (e ≡ VolError.BadImage 5) ⊎ (e ≡ VolError.Memory)) }
{
    let kept = read_entries(alloc, bytes)?;
    if are_rising(kept.as_slice()) && are_known_to(mark, kept.as_slice()) {
        Ok(kept)
    } else {
        Err(BAD_ENTRIES)
    }
}

/// Fills the place with the entries of checkpoints, 160 bytes for each.
pub fn write_checkpoints(kept: &[CheckpointEntry], out: &mut [u8])
    requires { length out.old ≡ 160 * length kept.now }
    ensures bytes { out.new ≡ cpfile_bytes kept.now }
    ensures fit { All HasSpelling kept.now }
{
    for (i, entry) in kept.iter().enumerate() {
        let from = CHECKPOINT_SIZE * i;
        entry.write(&mut out[from..from + CHECKPOINT_SIZE]);
    }
}

impl Checkpoints {
    /// The table of checkpoints that entries tell. Refused for memory alone.
    pub fn from_entries(alloc: Global, kept: &[CheckpointEntry]) -> Result<Checkpoints, AllocError>
        requires some { 0 < length kept.now }
        requires rising { AreRising kept.now }
        requires roots { All HasRoot kept.now }
        ensures { IfOk result (λ t. AllZip IsEntryOf (all t.table) kept.now) }
    {
        let Some((last, rest)) = kept.split_last() else {
            unreachable!();
        };
        let mut earlier = Vec::with_capacity(alloc, rest.len())?;
        for entry in rest {
            earlier.push(Checkpoint::of_entry(entry))?;
        }
        Ok(Checkpoints::from_table(earlier, Checkpoint::of_entry(last)))
    }
}

impl Checkpoint {
    /// Its entry in an image, where its file of inodes has this size.
    pub fn entry(&self, size: u64) -> CheckpointEntry
        ensures entry { IsEntryOf self.now result }
        ensures size { result.size ≡ size }
    {
        CheckpointEntry {
            number: self.number,
            mode: self.mode,
            minor: self.minor,
            stamp: self.stamp,
            inodes: self.inodes,
            root: self.root.fields(),
            size,
        }
    }

    fn of_entry(entry: &CheckpointEntry) -> Checkpoint
        requires { HasRoot entry.now }
        ensures { IsEntryOf result entry.now }
    {
        let Some(root) = entry.root.root() else {
            unreachable!();
        };
        Checkpoint {
            number: entry.number,
            mode: entry.mode,
            minor: entry.minor,
            stamp: entry.stamp,
            root,
            inodes: entry.inodes,
        }
    }
}

/// The entries, whatever their numbers and stamps are.
fn read_entries(alloc: Global, bytes: &[u8]) -> Result<Items<CheckpointEntry>, VolError>
    requires { (n : ℕ) × (length bytes.now ≡ 160 * n) }
    ensures spelled { IfOk result (λ kept. bytes.now ≡ cpfile_bytes kept) }
    ensures fit { IfOk result (All HasSpelling) }
    ensures only { (kept : List CheckpointEntry) → bytes.now ≡ cpfile_bytes kept → All HasSpelling kept
        → MatchResult result (λ found. found ≡ kept) (λ e. e ≡ VolError.Memory) }
    ensures refused { IfErr result (λ e. (e ≡ VolError.BadImage 5) ⊎ (e ≡ VolError.Memory)) }
{
    let count = bytes.len() / CHECKPOINT_SIZE;
    let mut kept = Vec::with_capacity(alloc, count)?;
    for i in 0..count {
        let Some(entry) = read_entry(bytes, i) else {
            return Err(BAD_ENTRIES);
        };
        kept.push(entry)?;
    }
    Ok(Items::from_vec(kept))
}

fn read_entry(bytes: &[u8], i: usize) -> Option<CheckpointEntry>
    requires { 160 * i + 160 ≤ length bytes.now }
    ensures found { IfSome result (Spells (take 160 (drop (160 * i) bytes.now))) }
    ensures only { (entry : CheckpointEntry) → Spells (take 160 (drop (160 * i) bytes.now)) entry
        → result ≡ Some entry }
{
    let from = CHECKPOINT_SIZE * i;
    CheckpointEntry::read(&bytes[from..from + CHECKPOINT_SIZE])
}

/// Whether numbers rise from 1 at least and stay below the limit, and no stamp falls.
fn are_rising(kept: &[CheckpointEntry]) -> bool
    ensures { IsTrue result ↔ AreRising kept.now }
{
    for i in 0..kept.len() {
        if !has_number(&kept[i]) {
            return false;
        }
        if i > 0 && !precedes(&kept[i - 1], &kept[i]) {
            return false;
        }
    }
    true
}

/// Whether images of the mark know such checkpoints.
fn are_known_to(mark: Mark, kept: &[CheckpointEntry]) -> bool
    ensures { result ≡ are_known_to mark kept.now }
{
    match mark {
        Mark::First => none_is_minor(kept),
        Mark::Second => true,
    }
}

fn none_is_minor(kept: &[CheckpointEntry]) -> bool
    ensures { result ≡ list_all (λ (entry : CheckpointEntry). not entry.minor) kept.now }
{
    kept.iter().all(|entry| !entry.minor)
}

fn has_number(entry: &CheckpointEntry) -> bool
    ensures { IsTrue result ↔ HasNumber entry.now }
{
    entry.number.get() > 0 && entry.number.get() < u64::MAX
}

fn precedes(a: &CheckpointEntry, b: &CheckpointEntry) -> bool
    ensures { IsTrue result ↔ Precedes a.now b.now }
{
    a.number < b.number && a.stamp <= b.stamp
}
