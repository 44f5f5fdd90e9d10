//! A checkpoint beside the one before it: what differs is judged, and all else is known.
ghost use Rattle.std.specs.Prelude.{◌≡◌, ◌<◌, ◌^◌, ℕ, length, IsTrue, IsSome, IfOk, IfErr, IfSome, OnOk};
ghost use Rattle.nl_types.specs.declared.error.VolError;
ghost use Rattle.nl_layout.specs.Root.{root_of};
ghost use Rattle.nl_check.specs.Judging.{told};
ghost use Rattle.nl_check.specs.Shapes.{At, Owner, root_for};
ghost use Rattle.nl_check.specs.Private.BesideTrees.{HasLeft, TellsOn};
ghost use Rattle.nl_check.specs.Private.ChangedFiles.{AreAllListed, AreAllMet, IsLost, IsToldStill, IsWalkedBeside, IsWholeFile};
ghost use Rattle.nl_check.specs.Private.Turns.{TellsChanges};
ghost use Rattle.nl_check.specs.Private.Walks.{IsGood, IsMetWhole};
ghost use Rattle.nl_check.specs.declared.beside.Beside.TheVariants.{KnownGood};

use crate::differing::{ChangedFile, list_changed};
use crate::found::Found;
use crate::holding::{has_size, hold_trees};
use crate::image::Image;
use crate::kinds::{are_files_still, note_kinds};
use crate::leaving::{leave_file, leave_files};
use crate::meeting_anew::{meet_file, meet_files};
use crate::shape::Walk;
use nl_blocktree::Met;
use nl_layout::{CheckpointEntry, Root};
use nl_types::{VirtualNumber, VolError};
use nl_vstore::VRead;
use std::alloc::Global;

/// What is known of a checkpoint by the one before it.
#[derive(Clone, Copy)]
pub(crate) enum Beside {
    /// It has its shape, and holds a tree, if the ones before it do.
    KnownGood,
    /// It has to be judged by itself.
    CanNotTell,
}

/// What changed from one checkpoint to the next. The lists are emptied for each, and keep their room.
#[derive(Drop)]
pub(crate) struct Changes {
    /// Each number that is met and wasn't, or was and isn't. Others may be among them.
    pub(crate) numbers: Vec<VirtualNumber>,
    /// The files whose inodes changed.
    pub(crate) files: Vec<ChangedFile>,
}

impl Changes {
    pub(crate) fn new(alloc: Global) -> Changes {
        let numbers = Vec::new(alloc);
        let files = Vec::new(alloc);
        Changes { numbers, files }
    }
}

/// Leaves the numbers that a checkpoint has no more at their places. Refused by `Memory` alone.
fn leave_all<V: VRead>(
    store: &V,
    met: &mut Met,
    changed: &mut Vec<VirtualNumber>,
    files: &[ChangedFile],
    before: Root,
    now: Root,
) -> Result<(), VolError>
    requires listed { AreAllListed (V.pages store.now) (root_of before) (root_of now) files.now }
    requires before { (owner : Owner) → IsWholeFile (V.pages store.now)
        (root_for (V.pages store.now) (root_of before) owner) }
    ensures left { OnOk result
        (HasLeft At (IsLost (V.pages store.now) (root_of before) (root_of now)) met.old met.new) }
    ensures told { OnOk result (TellsOn met.old changed.old.items met.new changed.new.items) }
    ensures refused { IfErr result (λ e. e ≡ VolError.Memory) }
    ensures count { length met.new ≡ length met.old }
{
    leave_file(store, met, changed, before, now)?;
    leave_files(store, met, changed, files)
}

/// Meets the numbers that a checkpoint had not at their places before. It answers how many indices lead up to
/// the last block of the file of inodes, or none where a file may not have its shape, or its inode isn't as it
/// has to be. Refused by `Memory` alone.
fn meet_all<V: VRead>(
    alloc: Global,
    store: &V,
    met: &mut Met,
    changed: &mut Vec<VirtualNumber>,
    files: &[ChangedFile],
    before: Root,
    now: Root,
) -> Result<Option<u64>, VolError>
    requires within { (v : ℕ) → IsSome (V.pages store.now v) → v < length met.old }
    requires listed { AreAllListed (V.pages store.now) (root_of before) (root_of now) files.now }
    requires before { (owner : Owner) → IsWholeFile (V.pages store.now)
        (root_for (V.pages store.now) (root_of before) owner) }
    ensures yes { IfOk result (λ found. IfSome found
        (AreAllMet (V.pages store.now) (root_of before) (root_of now) files.now met.old met.new)) }
    ensures told { IfOk result (λ found. IsSome found
        → TellsOn met.old changed.old.items met.new changed.new.items) }
    ensures small { IfOk result (λ found. IfSome found (λ count. count < 2 ^ 50)) }
    ensures refused { IfErr result (λ e. e ≡ VolError.Memory) }
    ensures count { length met.new ≡ length met.old }
{
    let Some(count) = meet_file(store, met, changed, before, now)? else {
        return Ok(None);
    };
    if meet_files(alloc, store, met, changed, files)? {
        Ok(Some(count))
    } else {
        Ok(None)
    }
}

/// Walks a checkpoint beside the one before it, given the roots of their files of inodes: all numbers that
/// it has no more at their places are left, and then all that it has anew are met, and the kinds of inodes are
/// noted. It answers how many indices lead up to the last block of the file of inodes, or none where it can't
/// tell. Refused by `Memory` alone.
fn walk_beside<V: VRead>(
    alloc: Global,
    store: &V,
    found: &mut Found,
    changes: &mut Changes,
    before: Root,
    now: Root,
) -> Result<Option<u64>, VolError>
    requires within { (v : ℕ) → IsSome (V.pages store.now v) → v < length found.old.met }
    requires known { IsMetWhole (V.pages store.now) (root_of before) found.old.met }
    ensures yes { IfOk result (λ count. IfSome count
        (IsWalkedBeside (V.pages store.now) (root_of before) (root_of now) found.new.met
        found.old.kinds found.new.kinds changes.new.files.items)) }
    ensures told { IfOk result (λ count. IsSome count → TellsOn found.old.met changes.old.numbers.items
        found.new.met changes.new.numbers.items) }
    ensures small { IfOk result (λ count. IfSome count (λ n. n < 2 ^ 50)) }
    ensures refused { IfErr result (λ e. e ≡ VolError.Memory) }
    ensures count { length found.new.met ≡ length found.old.met }
{
    if !list_changed(store, &mut changes.files, before, now)? {
        return Ok(None);
    }
    let files = changes.files.as_slice();
    leave_all(
        store,
        &mut found.met,
        &mut changes.numbers,
        files,
        before,
        now,
    )?;
    let count = meet_all(
        alloc,
        store,
        &mut found.met,
        &mut changes.numbers,
        files,
        before,
        now,
    )?;
    note_kinds(&mut found.kinds, files);
    Ok(count)
}

/// Whether the tree of a checkpoint is told as that of the one before it was: no directory changed, no inode
/// came or went, and as many are told to be in use. So many indices lead up to the last block of its file of
/// inodes.
fn is_told_still(
    files: &[ChangedFile],
    count: u64,
    last: &CheckpointEntry,
    entry: &CheckpointEntry,
) -> bool
    ensures { IsTrue result → IsToldStill files.now count last.now entry.now }
{
    has_size(entry.size, count) && entry.inodes == last.inodes && are_files_still(files)
}

/// Judges a checkpoint by the one before it, whose numbers and kinds of inodes are those that were found.
/// Whether it holds a tree is judged if it is asked. Where it is good, its numbers are met, and the kinds are
/// those of its inodes; where it can't tell, both are any. Refused by `Memory` alone.
pub(crate) fn judge_beside<V: VRead>(
    image: &Image<'_, V>,
    found: &mut Found,
    changes: &mut Changes,
    asked: bool,
    last: &CheckpointEntry,
    entry: &CheckpointEntry,
) -> Result<Beside, VolError>
    requires within { (v : ℕ) → IsSome (V.pages image.now.store.now v) → v < length found.old.met }
    requires last { IsGood (V.pages image.now.store.now) (told last.now) found.old.met found.old.kinds asked }
    ensures good { IfOk result (λ beside. beside ≡ KnownGood → IsGood (V.pages image.now.store.now)
        (told entry.now) found.new.met found.new.kinds asked) }
    ensures changed { IfOk result (λ beside. beside ≡ KnownGood
        → TellsChanges found.old.met found.new.met changes.new.numbers.items) }
    ensures refused { IfErr result (λ e. e ≡ VolError.Memory) }
    ensures count { length found.new.met ≡ length found.old.met }
{
    changes.numbers.clear();
    let (Some(before), Some(now)) = (last.root.root(), entry.root.root()) else {
        return Ok(Beside::CanNotTell);
    };
    let (alloc, store) = (image.alloc, image.store);
    let Some(count) = walk_beside(alloc, store, found, changes, before, now)? else {
        return Ok(Beside::CanNotTell);
    };
    if !asked {
        return Ok(Beside::KnownGood);
    }
    if is_told_still(changes.files.as_slice(), count, last, entry) {
        return Ok(Beside::KnownGood);
    }
    let walk = Walk { count, sound: true };
    if hold_trees(alloc, store, &found.kinds, &now, &walk, entry, asked)? {
        Ok(Beside::KnownGood)
    } else {
        Ok(Beside::CanNotTell)
    }
}
