//! Whether the names of a checkpoint form a tree.
ghost use Rattle.std.specs.Prelude.{◌≡◌, ◌↔◌, ◌<◌, ◌≤◌, ◌+◌, ℕ, List, [], ◌∷◌, length, slice_get, false, IsTrue, IfOk, IfErr, OnOk, Some, None};
ghost use Rattle.nl_types.specs.Plain.Limits as limits;
ghost use Rattle.nl_types.specs.declared.error.VolError;
ghost use Rattle.nl_tree.specs.Held.{Holding, IsHolding, inodes_of_holding};
ghost use Rattle.nl_check.specs.InodeTrees.{FormTree};
ghost use Rattle.nl_check.specs.Private.Naming.{IsNaming, IsQueued, IsTaken, TellsKinds, awaited_count, records_in};
ghost use Rattle.nl_check.specs.Private.SoundInodes.{kind_in};

use nl_dirs::Record;
use nl_tree::TreeRead;
use nl_types::limits::ROOT_INODE;
use nl_types::{InodeNumber, Kind, VolError};
use std::alloc::Global;

/// Takes a number out of those that are awaited, where it is awaited as this kind.
fn take_awaited(awaited: &mut [Option<Kind>], number: InodeNumber, kind: Kind) -> bool
    ensures yes { IsTrue result → IsTaken number kind awaited.old awaited.new }
    ensures no { result ≡ false → kind_in awaited.old number ≡ Some kind → ⊥ }
    ensures kept { result ≡ false → awaited.new ≡ awaited.old }
    ensures count { length awaited.new ≡ length awaited.old }
{
    let place = number.get();
    if place >= awaited.len() as u64 || awaited[place as usize] != Some(kind) {
        return false;
    }
    awaited[place as usize] = None;
    true
}

/// Puts the number of a record at the end of the queue, where it is a directory's. Refused by `Memory` alone.
fn queue_directory(queue: &mut Vec<InodeNumber>, record: &Record) -> Result<(), VolError>
    ensures queued { OnOk result
        (IsQueued «record».now.inode «record».now.kind queue.old.items queue.new.items) }
    ensures refused { IfErr result (λ e. e ≡ VolError.Memory) }
{
    match record.kind {
        Kind::File => Ok(()),
        Kind::Directory => {
            queue.push(record.inode)?;
            Ok(())
        }
    }
}

/// Follows a record: it has to name an awaited number by its kind. Refused by `Memory` alone.
fn follow_record(
    awaited: &mut [Option<Kind>],
    queue: &mut Vec<InodeNumber>,
    record: &Record,
) -> Result<bool, VolError>
    ensures yes { IfOk result (λ is. IsTrue is
        → IsTaken «record».now.inode «record».now.kind awaited.old awaited.new
        × IsQueued «record».now.inode «record».now.kind queue.old.items queue.new.items) }
    ensures no { IfOk result (λ is. is ≡ false
        → kind_in awaited.old «record».now.inode ≡ Some «record».now.kind → ⊥) }
    ensures refused { IfErr result (λ e. e ≡ VolError.Memory) }
{
    if !take_awaited(awaited, record.inode, record.kind) {
        return Ok(false);
    }
    queue_directory(queue, record)?;
    Ok(true)
}

/// Follows the records of the next directory of the queue: each has to name an awaited number by its kind,
/// and directories among these go to the end of the queue. Refused by `Memory` alone.
fn follow_records(
    awaited: &mut [Option<Kind>],
    queue: &mut Vec<InodeNumber>,
    records: &[Record],
) -> Result<bool, VolError>
    ensures yes { IfOk result (λ all. IsTrue all → (held : Holding) (done d : ℕ) → IsHolding held
        → slice_get queue.old.items done ≡ Some d → records_in (held d) ≡ records.now
        → IsNaming held queue.old.items done 0 awaited.old
        → IsNaming held queue.new.items (done + 1) 0 awaited.new) }
    ensures no { IfOk result (λ all. all ≡ false → (held : Holding) (done d : ℕ) → IsHolding held
        → slice_get queue.old.items done ≡ Some d → records_in (held d) ≡ records.now
        → IsNaming held queue.old.items done 0 awaited.old
        → FormTree (inodes_of_holding held) → ⊥) }
    ensures fewer { IfOk result (λ all. IsTrue all
        → (length queue.old.items ≤ length queue.new.items)
        × (length queue.new.items + awaited_count awaited.new
        ≤ length queue.old.items + awaited_count awaited.old)) }
    ensures refused { IfErr result (λ e. e ≡ VolError.Memory) }
{
    for record in records {
        if !follow_record(awaited, queue, record)? {
            return Ok(false);
        }
    }
    Ok(true)
}

/// Follows the records of the directory at a turn of the queue. Refused by `Memory` alone.
fn follow_directory<T: TreeRead>(
    alloc: Global,
    tree: &T,
    awaited: &mut [Option<Kind>],
    queue: &mut Vec<InodeNumber>,
    turn: usize,
) -> Result<bool, VolError>
    requires { turn < length queue.old.items }
    ensures yes { IfOk result (λ all. IsTrue all → (held : Holding)
        → T.holds tree.now held → IsHolding held → IsNaming held queue.old.items turn 0 awaited.old
        → IsNaming held queue.new.items (turn + 1) 0 awaited.new) }
    ensures no { IfOk result (λ all. all ≡ false → (held : Holding) → T.holds tree.now held
        → IsHolding held → IsNaming held queue.old.items turn 0 awaited.old
        → FormTree (inodes_of_holding held) → ⊥) }
    ensures fewer { IfOk result (λ all. IsTrue all
        → (length queue.old.items ≤ length queue.new.items)
        × (length queue.new.items + awaited_count awaited.new
        ≤ length queue.old.items + awaited_count awaited.old)) }
    ensures refused { IfErr result (λ e. e ≡ VolError.Memory) }
{
    let records = tree.records(alloc, queue[turn])?;
    follow_records(awaited, queue, records.as_slice())
}

/// Follows the names of a tree from the root on, directory by directory. It answers whether each record names
/// an awaited number by its kind. Refused by `Memory` alone.
fn follow_names<T: TreeRead>(
    alloc: Global,
    tree: &T,
    awaited: &mut [Option<Kind>],
) -> Result<bool, VolError>
    ensures yes { IfOk result (λ all. IsTrue all → (held : Holding)
        → T.holds tree.now held → IsHolding held → IsNaming held (limits.root_inode ∷ []) 0 0 awaited.old
        → (queue : List ℕ) × IsNaming held queue (length queue) 0 awaited.new) }
    ensures no { IfOk result (λ all. all ≡ false → (held : Holding)
        → T.holds tree.now held → IsHolding held → IsNaming held (limits.root_inode ∷ []) 0 0 awaited.old
        → FormTree (inodes_of_holding held) → ⊥) }
    ensures refused { IfErr result (λ e. e ≡ VolError.Memory) }
{
    let mut queue = Vec::new(alloc);
    queue.push(InodeNumber::new(ROOT_INODE))?;
    let mut turn = 0;
    while turn < queue.len() {
        if !follow_directory(alloc, tree, awaited, &mut queue, turn)? {
            return Ok(false);
        }
        turn += 1;
    }
    Ok(true)
}

/// Whether no number is awaited any more.
fn is_none_awaited(awaited: &[Option<Kind>]) -> bool
    ensures { IsTrue result ↔ ((i : ℕ) → kind_in awaited.now i ≡ None) }
{
    for number in 0..awaited.len() {
        if awaited[number].is_some() {
            return false;
        }
    }
    true
}

/// Whether the inodes of a tree but the root's are named by one record each, by their kinds, and found from
/// the root. The kinds of all inodes in use are given, and taken out one after another. Refused by `Memory`
/// alone.
pub(crate) fn forms_tree<T: TreeRead>(
    alloc: Global,
    tree: &T,
    awaited: &mut [Option<Kind>],
) -> Result<bool, VolError>
    ensures yes { IfOk result (λ forms. IsTrue forms → (held : Holding) → T.holds tree.now held
        → IsHolding held → TellsKinds held awaited.old → FormTree (inodes_of_holding held)) }
    ensures no { IfOk result (λ forms. forms ≡ false → (held : Holding) → T.holds tree.now held
        → IsHolding held → TellsKinds held awaited.old → FormTree (inodes_of_holding held) → ⊥) }
    ensures refused { IfErr result (λ e. e ≡ VolError.Memory) }
{
    if !take_awaited(awaited, InodeNumber::new(ROOT_INODE), Kind::Directory) {
        return Ok(false);
    }
    if !follow_names(alloc, tree, awaited)? {
        return Ok(false);
    }
    Ok(is_none_awaited(awaited))
}
