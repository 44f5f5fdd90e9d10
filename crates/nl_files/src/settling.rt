//! What a checkpoint takes of the current tree.
ghost use Rattle.std.specs.Prelude.{◌≡◌, ℕ, ◌≤◌, List, [], ◌∷◌, ◌++◌, Option, IfOk, IfErr, OnErr};
ghost use Rattle.nl_types.specs.Plain.Limits as limits;
ghost use Rattle.nl_types.specs.Blocks.Roots.{page_at, pages_of};
ghost use Rattle.nl_layout.specs.Root.{root_of};
ghost use Rattle.nl_vstore.specs.Batches.{Changes};
ghost use Rattle.nl_vstore.specs.Stores.{content_in};
ghost use Rattle.nl_blocktree.specs.Checkpoints.{no_changes};
ghost use Rattle.nl_blocktree.specs.Numbering.{CanTake};
ghost use Rattle.nl_tree.specs.Became.{Became, EachMayBecome, MayBecome, over_became};
ghost use Rattle.nl_tree.specs.Held.{Held, Holding, IsHolding};
ghost use Rattle.nl_tree.specs.Overlays.{became_in, became_of, slot_shows};
ghost use Rattle.nl_tree.specs.Shown.{pair, shown_entries};
ghost use Rattle.nl_files.specs.Settles.{IsCurrent, IsInodeSettled, Settles, SettlesMore, Settling};
ghost use Rattle.nl_files.specs.CheckpointRoots.{IsCheckpointRoot, IsRootInUse, Stores, inode_root, roots_at};
ghost use Rattle.nl_files.specs.Private.Planned.{IsBase, inode_size, shaped};

use crate::plan::{Shape, plan_changes};
use nl_blocktree::put_all;
use nl_ifile::{InodeChange, inode, put_inodes};
use nl_layout::{Inode, Root};
use nl_tree::{Changed, CurrentTree, Overlay, Slot};
use nl_types::{InodeNumber, VolError};
use nl_vstore::{Batch, Vstore};
use std::alloc::Global;

/// Puts what differs from the checkpoint into an empty batch, and answers the root of the new one. Refused by
/// `Memory` alone; then the batch is empty again.
pub fn settle<V: Vstore>(
    alloc: Global,
    store: &V,
    batch: &mut Batch,
    root: Root,
    tree: &CurrentTree,
) -> Result<Root, VolError>
    requires empty { batch.old ≡ no_changes }
    requires fits { CanTake (V.store store.now) batch.old }
    requires checkpoint { IsCheckpointRoot (content_in (V.store store.now)) (root_of root) }
    requires current { (base held : Holding) ×
        IsCurrent (content_in (V.store store.now)) (root_of root) tree.now.became base held }
    ensures settles { IfOk result (λ new. (base held : Holding)
        → IsCurrent (content_in (V.store store.now)) (root_of root) tree.now.became base held
        → Settles (content_in (V.store store.now)) (root_of root) (root_of new)
        tree.now.became held batch.new) }
    ensures fits { IfOk result (λ _. CanTake (V.store store.now) batch.new) }
    ensures same { OnErr result (batch.new ≡ batch.old) }
    ensures err { IfErr result (λ e. e ≡ VolError.Memory) }
{
    // no `?`: where one of the two is refused, the batch is emptied
    let settled = match settle_inodes(alloc, store, batch, &root, tree.overlay()) {
        Ok(inodes) => put_inodes(alloc, store, batch, root, &inodes),
        Err(refusal) => Err(refusal),
    };
    if settled.is_err() {
        batch.truncate(0, 0);
    }
    settled
}

/// Puts the blocks of each inode that changed into the batch, and answers the changes of inodes.
fn settle_inodes<V: Vstore>(
    alloc: Global,
    store: &V,
    batch: &mut Batch,
    root: &Root,
    overlay: &Overlay,
) -> Result<Vec<InodeChange>, VolError>
    requires fits { CanTake (V.store store.now) batch.old }
    requires checkpoint { IsCheckpointRoot (content_in (V.store store.now)) (root_of root.now) }
    requires changes { EachMayBecome (became_in overlay.now) }
    ensures settling { IfOk result (λ inodes. (base : Holding)
        → Stores (pages_of (content_in (V.store store.now))) (root_of root.now) base → IsHolding base
        → Settling (content_in (V.store store.now))
        (roots_at (pages_of (content_in (V.store store.now))) (root_of root.now)) base
        batch.old batch.new inodes.items [] (became_in overlay.now)) }
    ensures fits { IfOk result (λ _. CanTake (V.store store.now) batch.new) }
    ensures err { IfErr result (λ e. e ≡ VolError.Memory) }
{
    let mut inodes = Vec::new(alloc);
    for (number, slot) in overlay.changed.iter() {
        settle_slot(alloc, store, batch, root, *number, slot, &mut inodes)?;
    }
    Ok(inodes)
}

/// Puts the blocks of a live slot's inode into the batch, and its inode behind the others.
fn settle_slot<V: Vstore>(
    alloc: Global,
    store: &V,
    batch: &mut Batch,
    root: &Root,
    number: InodeNumber,
    slot: &Slot,
    inodes: &mut Vec<InodeChange>,
) -> Result<(), VolError>
    requires fits { CanTake (V.store store.now) batch.old }
    requires checkpoint { IsCheckpointRoot (content_in (V.store store.now)) (root_of root.now) }
    requires changes { EachMayBecome (shown_entries pair slot_shows ((number, slot.now) ∷ [])) }
    ensures settling { IfOk result (λ _. SettlesMore (content_in (V.store store.now)) (root_of root.now)
        batch.old batch.new inodes.old.items inodes.new.items
        (shown_entries pair slot_shows ((number, slot.now) ∷ []))) }
    ensures fits { IfOk result (λ _. CanTake (V.store store.now) batch.new) }
    ensures err { IfErr result (λ e. e ≡ VolError.Memory) }
{
    if !slot.live {
        return Ok(());
    }
    let old = inode(store, *root, number);
    let new = settle_one(alloc, store, batch, number, &old, &slot.what)?;
    push_inode(inodes, number, new)
}

fn push_inode(
    inodes: &mut Vec<InodeChange>,
    number: InodeNumber,
    inode: Option<Inode>,
) -> Result<(), VolError>
    ensures ok { IfOk result (λ _. inodes.new.items ≡
        inodes.old.items ++ record { number = number; inode = inode } ∷ []) }
    ensures err { IfErr result (λ e. e ≡ VolError.Memory) }
{
    inodes.push(InodeChange { number, inode })?;
    Ok(())
}

/// Puts the blocks of an inode into the batch, and answers the inode that it becomes.
fn settle_one<V: Vstore>(
    alloc: Global,
    store: &V,
    batch: &mut Batch,
    number: InodeNumber,
    old: &Option<Inode>,
    what: &Changed,
) -> Result<Option<Inode>, VolError>
    requires fits { CanTake (V.store store.now) batch.old }
    requires in_use { IsRootInUse (content_in (V.store store.now)) (inode_root old.now) }
    requires sized { inode_size old.now ≤ limits.size_limit }
    requires change { MayBecome (became_of what.now) }
    ensures settled { IfOk result (λ new. (base : Option Held)
        → IsBase (page_at (pages_of (content_in (V.store store.now))) (inode_root old.now)) old.now base
        → IsInodeSettled (content_in (V.store store.now)) number (inode_root old.now) new
        (over_became (became_of what.now) base) batch.old batch.new) }
    ensures fits { IfOk result (λ _. CanTake (V.store store.now) batch.new) }
    ensures err { IfErr result (λ e. e ≡ VolError.Memory) }
{
    let plan = plan_changes(alloc, what, old)?;
    let root = put_all(
        alloc,
        store,
        batch,
        number,
        root_or_empty(old),
        &plan.changes,
    )?;
    Ok(with_root(&plan.shape, root))
}

fn root_or_empty(old: &Option<Inode>) -> Root
    ensures { root_of result ≡ inode_root old.now }
{
    match old {
        Some(inode) => inode.root,
        None => Root::Empty,
    }
}

/// The inode of a shape, with its root.
fn with_root(shape: &Option<Shape>, root: Root) -> Option<Inode>
    ensures { result ≡ shaped shape.now root }
{
    match shape {
        Some(shape) => Some(Inode {
            kind: shape.kind,
            root,
            size: shape.size,
        }),
        None => None,
    }
}
