//! Numbers that a checkpoint has where the one before it had them not: they are met.
ghost use Rattle.std.specs.Prelude.{◌≡◌, ◌<◌, ◌^◌, ℕ, suc, length, IsTrue, IsSome, IfOk, IfErr, IfSome};
ghost use Rattle.std.specs.List.{Contains};
ghost use Rattle.nl_types.specs.declared.error.VolError;
ghost use Rattle.nl_types.specs.Blocks.Roots.{Root as AnyRoot, Tree as AnyTree};
ghost use Rattle.nl_layout.specs.Root.{root_of};
ghost use Rattle.nl_files.specs.CheckpointRoots.{inode_root};
ghost use Rattle.nl_blocktree.specs.FileShapes.{HasShape};
ghost use Rattle.nl_blocktree.specs.Walked.{Meets};
ghost use Rattle.nl_check.specs.declared.differing.ChangedFile.{ChangedFile};
ghost use Rattle.nl_check.specs.Private.BesideTrees.{HasDataUnder, IsMetAnew, StandAt, TellsOn};
ghost use Rattle.nl_check.specs.Private.ChangedFiles.{AreFilesMet, AreMetAnew, IsFileMet, IsNewIn, IsSoundNow, IsWholeFile};
ghost use Rattle.nl_check.specs.Private.SoundInodes.{IsMeasured, IsSoundInode};

use crate::differing::{ChangedFile, root_of_file};
use crate::ends::end_of_tree;
use crate::inodes::is_sound_inode;
use crate::subtrees::{is_named, page_under, slot_of, top_beside};
use nl_blocktree::{Met, meet};
use nl_layout::{Level, Root, SLOTS};
use nl_types::{VirtualNumber, VolError};
use nl_vstore::VRead;
use std::alloc::Global;

/// Meets a number, where it is in use and wasn't met, and tells it among those that changed. Refused by
/// `Memory` alone.
fn meet_anew<V: VRead>(
    store: &V,
    met: &mut Met,
    changed: &mut Vec<VirtualNumber>,
    number: VirtualNumber,
) -> Result<bool, VolError>
    requires { (v : ℕ) → IsSome (V.pages store.now v) → v < length met.old }
    ensures yes { IfOk result (λ is. IsTrue is → Meets (V.pages store.now) number met.old met.new) }
    ensures told { IfOk result (λ is. IsTrue is
        → TellsOn met.old changed.old.items met.new changed.new.items) }
    ensures refused { IfErr result (λ e. e ≡ VolError.Memory) }
    ensures count { length met.new ≡ length met.old }
{
    match meet(store, met, number) {
        Ok(_) => {
            changed.push(number)?;
            Ok(true)
        }
        Err(_) => Ok(false),
    }
}

/// Meets the numbers of a tree from a block down, but for those that the file beside it has at their places.
/// It answers false where one isn't in use or is met already, or a node names nothing. Refused by `Memory`
/// alone.
fn meet_below<V: VRead>(
    store: &V,
    met: &mut Met,
    changed: &mut Vec<VirtualNumber>,
    level: u8,
    number: VirtualNumber,
    beside: Option<VirtualNumber>,
) -> Result<bool, VolError>
    requires { (v : ℕ) → IsSome (V.pages store.now v) → v < length met.old }
    ensures yes { IfOk result (λ all. IsTrue all → (height top offset : ℕ) (other : AnyRoot)
        → StandAt (V.pages store.now) height top other level offset number beside
        → HasShape (V.pages store.now) other
        → IsMetAnew (V.pages store.now) (AnyTree height top) other level offset (suc offset)
        met.old met.new
        × HasDataUnder (V.pages store.now) (AnyTree height top) level offset (suc offset)) }
    ensures told { IfOk result (λ all. IsTrue all
        → TellsOn met.old changed.old.items met.new changed.new.items) }
    ensures refused { IfErr result (λ e. e ≡ VolError.Memory) }
    ensures count { length met.new ≡ length met.old }
{
    if is_named(&beside, number) {
        return Ok(true);
    }
    if !meet_anew(store, met, changed, number)? {
        return Ok(false);
    }
    if level == 0 {
        return Ok(true);
    }
    let page = store.page(number);
    let other = page_under(store, beside);
    let mut names = false;
    for slot in 0..SLOTS {
        if let Some(child) = slot_of(page, slot) {
            if !meet_below(store, met, changed, level - 1, child, slot_of(other, slot))? {
                return Ok(false);
            }
            names = true;
        }
    }
    Ok(names)
}

/// Meets the numbers of a tree that another file has not at their places. It answers how many indices lead up
/// to its last data, or none where it may not have its shape. Refused by `Memory` alone.
fn meet_tree<V: VRead>(
    store: &V,
    met: &mut Met,
    changed: &mut Vec<VirtualNumber>,
    before: Root,
    height: Level,
    top: VirtualNumber,
) -> Result<Option<u64>, VolError>
    requires within { (v : ℕ) → IsSome (V.pages store.now v) → v < length met.old }
    requires before { IsWholeFile (V.pages store.now) (root_of before) }
    ensures yes { IfOk result (λ found. IfSome found
        (IsFileMet (V.pages store.now) (root_of before) (AnyTree height top) met.old met.new)) }
    ensures told { IfOk result (λ found. IsSome found
        → TellsOn met.old changed.old.items met.new changed.new.items) }
    ensures small { IfOk result (λ found. IfSome found (λ count. count < 2 ^ 50)) }
    ensures refused { IfErr result (λ e. e ≡ VolError.Memory) }
    ensures count { length met.new ≡ length met.old }
{
    let Some(count) = end_of_tree(store, height, top) else {
        return Ok(None);
    };
    if meet_below(
        store,
        met,
        changed,
        height.get(),
        top,
        top_beside(height, before),
    )? {
        Ok(Some(count))
    } else {
        Ok(None)
    }
}

/// Meets the numbers of a file that it had not at their places where it was another. It answers how many
/// indices lead up to its last block, or none where it may not have its shape. Refused by `Memory` alone.
pub(crate) fn meet_file<V: VRead>(
    store: &V,
    met: &mut Met,
    changed: &mut Vec<VirtualNumber>,
    before: Root,
    now: Root,
) -> Result<Option<u64>, VolError>
    requires within { (v : ℕ) → IsSome (V.pages store.now v) → v < length met.old }
    requires before { IsWholeFile (V.pages store.now) (root_of before) }
    ensures yes { IfOk result (λ found. IfSome found
        (IsFileMet (V.pages store.now) (root_of before) (root_of now) met.old met.new)) }
    ensures told { IfOk result (λ found. IsSome found
        → TellsOn met.old changed.old.items met.new changed.new.items) }
    ensures small { IfOk result (λ found. IfSome found (λ count. count < 2 ^ 50)) }
    ensures refused { IfErr result (λ e. e ≡ VolError.Memory) }
    ensures count { length met.new ≡ length met.old }
{
    match now {
        Root::Empty => Ok(Some(0)),
        Root::Chain(_) => Ok(None),
        Root::Tree(height, top) => meet_tree(store, met, changed, before, height, top),
    }
}

/// Whether the inode of a changed file is as it has to be, where it is in use and so many indices lead up to its
/// last block. Refused by `Memory` alone.
fn is_sound_later<V: VRead>(
    alloc: Global,
    store: &V,
    file: &ChangedFile,
    count: u64,
) -> Result<bool, VolError>
    requires { IsMeasured (V.pages store.now) (inode_root file.now.later) count }
    ensures yes { IfOk result (λ sound. IsTrue sound
        → IsSoundInode (V.pages store.now) file.now.number file.now.later) }
    ensures refused { IfErr result (λ e. e ≡ VolError.Memory) }
{
    match &file.later {
        Some(inode) => is_sound_inode(alloc, store, file.number, inode, count),
        None => Ok(true),
    }
}

/// Meets the numbers of a changed file that it had not at their places before. It answers false where it may
/// not have its shape, or its inode isn't as it has to be. Refused by `Memory` alone.
fn meet_changed<V: VRead>(
    alloc: Global,
    store: &V,
    met: &mut Met,
    changed: &mut Vec<VirtualNumber>,
    file: &ChangedFile,
) -> Result<bool, VolError>
    requires within { (v : ℕ) → IsSome (V.pages store.now v) → v < length met.old }
    requires before { IsWholeFile (V.pages store.now) (inode_root file.now.earlier) }
    ensures yes { IfOk result (λ sound. IsTrue sound
        → AreMetAnew (ℕ × ℕ)
        (IsNewIn (V.pages store.now) (inode_root file.now.earlier) (inode_root file.now.later))
        met.old met.new) }
    ensures sound { IfOk result (λ sound. IsTrue sound → IsSoundNow (V.pages store.now) file.now) }
    ensures told { IfOk result (λ sound. IsTrue sound
        → TellsOn met.old changed.old.items met.new changed.new.items) }
    ensures refused { IfErr result (λ e. e ≡ VolError.Memory) }
    ensures count { length met.new ≡ length met.old }
{
    let before = root_of_file(&file.earlier);
    let now = root_of_file(&file.later);
    match meet_file(store, met, changed, before, now)? {
        Some(count) => is_sound_later(alloc, store, file, count),
        None => Ok(false),
    }
}

/// Meets the numbers that each file had not at their places before. It answers false where one may not have
/// its shape, or its inode isn't as it has to be. Refused by `Memory` alone.
pub(crate) fn meet_files<V: VRead>(
    alloc: Global,
    store: &V,
    met: &mut Met,
    changed: &mut Vec<VirtualNumber>,
    files: &[ChangedFile],
) -> Result<bool, VolError>
    requires within { (v : ℕ) → IsSome (V.pages store.now v) → v < length met.old }
    requires before { (f : ChangedFile) → Contains files.now f
        → IsWholeFile (V.pages store.now) (inode_root f.earlier) }
    ensures yes { IfOk result (λ all. IsTrue all
        → AreFilesMet (V.pages store.now) files.now (length files.now) met.old met.new) }
    ensures told { IfOk result (λ all. IsTrue all
        → TellsOn met.old changed.old.items met.new changed.new.items) }
    ensures refused { IfErr result (λ e. e ≡ VolError.Memory) }
    ensures count { length met.new ≡ length met.old }
{
    for file in files {
        if !meet_changed(alloc, store, met, changed, file)? {
            return Ok(false);
        }
    }
    Ok(true)
}
