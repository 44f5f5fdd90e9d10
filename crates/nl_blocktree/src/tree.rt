//! The nodes of a tree that is written anew, one by one.
ghost use Rattle.std.specs.Prelude.{◌≡◌, ◌≢◌, ◌<◌, ◌+◌, ◌++◌, ◌*◌, ◌/◌, ◌%◌, ℕ, Some, None, length, slice_index, true, false, take, IfOk, IfErr, IsTrue, All};
ghost use Rattle.std.specs.List.{AllPairs};
ghost use Rattle.nl_types.specs.Plain.Limits as limits;
ghost use Rattle.nl_types.specs.Blocks.Entries.{Content};
ghost use Rattle.nl_types.specs.Blocks.Roots.{child, numbered, pages_of, slot};
ghost use Rattle.nl_vstore.specs.Batches.{CanBeTaken, is_live};
ghost use Rattle.nl_vstore.specs.Stores.{content_in};
ghost use Rattle.nl_blocktree.specs.Private.Edits.{ComesBefore, edit_alone, edited};
ghost use Rattle.nl_blocktree.specs.Numbering.{CanTake};
ghost use Rattle.nl_blocktree.specs.Putting.{GoesOn};
ghost use Rattle.nl_blocktree.specs.Private.Writing.{BearsNode, PutsNode, ended_of, slots_with};

use crate::read::page_under;
use nl_layout::{Level, Node, Root, SLOTS, Tag};
use nl_types::{BLOCK_SIZE, Block, InodeNumber, Page, VirtualNumber, VolError};
use nl_vstore::{Batch, VRead, Vstore, next_number};
use smallvec::SmallVec;
use std::alloc::{AllocError, Global};

/// A file that is to be changed: the store under it, whose it is, and its root before.
#[derive(Drop)]
pub(crate) struct OldFile<'a, V: Vstore> {
    pub alloc: Global,
    pub store: &'a V,
    pub inode: InodeNumber,
    pub root: Root,
}

/// What is to stand at an offset of a level: a number, or the one that names nothing.
#[derive(Drop)]
pub(crate) struct Edit {
    pub offset: u64,
    pub number: VirtualNumber,
    /// The numbers of the old nodes above it, from level 1 on, 0 for none: a tree has at most three levels of
    /// nodes.
    pub above: SmallVec<u64, 3>,
}

/// An edit that stands below no old node.
pub(crate) fn edit_alone(alloc: Global, offset: u64, number: VirtualNumber) -> Edit
    ensures { result ≡ edit_alone offset number }
{
    Edit {
        offset,
        number,
        above: SmallVec::new(alloc),
    }
}

/// The slots of a node that there may be: where there is none, they name nothing.
fn old_slots<V: VRead>(store: &V, old: Option<VirtualNumber>) -> [VirtualNumber; SLOTS]
    ensures slots { (s : ℕ) → s < 128 → numbered (slice_index result s) ≡ child (V.pages store.now) s old }
    ensures count { length result ≡ 128 }
{
    match page_under(store, old) {
        Some(page) => Node::slots_in_page(page),
        None => [VirtualNumber::new(0); SLOTS],
    }
}

/// Makes the edits of the blocks below a node in its slots.
fn put_edits(slots: &mut [VirtualNumber], offset: u64, group: &[Edit])
    requires count { length slots.old ≡ 128 }
    requires small { offset < limits.tree_limit }
    requires ascending { AllPairs ComesBefore group.now }
    requires grouped { All (λ e. e.offset / 128 ≡ offset) group.now }
    ensures slots { (s : ℕ) → s < 128 → numbered (slice_index slots.new s)
        ≡ edited group.now (λ i. numbered (slice_index slots.old (i % 128))) (128 * offset + s) }
    ensures count { length slots.new ≡ 128 }
{
    for edit in group {
        slots[(edit.offset % SLOTS as u64) as usize] = edit.number;
    }
}

/// Whether no slot names anything.
fn names_none(slots: &[VirtualNumber]) -> bool
    ensures none { IsTrue result → (s : ℕ) → s < length slots.now → slice_index slots.now s ≡ 0 }
    ensures some { result ≡ false → (s : ℕ) × (s < length slots.now) × (slice_index slots.now s ≢ 0) }
{
    for slot in slots {
        if slot.get() != 0 {
            return false;
        }
    }
    true
}

/// Adds the birth of a node with some slots.
fn bear_node<V: Vstore>(
    file: &OldFile<'_, V>,
    batch: &mut Batch,
    level: Level,
    offset: u64,
    node: &Node,
) -> Result<VirtualNumber, VolError>
    requires { CanTake (V.store file.now.store.now) batch.old }
    ensures ok { IfOk result (λ n. BearsNode (content_in (V.store file.now.store.now)) file.now.inode
        level offset node.now n batch.old.births batch.new.births) }
    ensures fits { IfOk result (λ _. CanTake (V.store file.now.store.now) batch.new) }
    ensures ends { batch.new.ends ≡ batch.old.ends }
    ensures births_kept { take (length batch.old.births) batch.new.births ≡ batch.old.births }
    ensures errors { IfErr result (λ e. e ≡ VolError.Memory) }
{
    let page = node_page(file.alloc, node)?;
    let number = next_number(file.store, batch);
    let inode = file.inode;
    batch.add_birth(
        Tag {
            number,
            inode,
            level,
            offset,
        },
        page,
    )?;
    Ok(number)
}

fn node_page(alloc: Global, node: &Node) -> Result<Page, AllocError>
    ensures { IfOk result (λ page. (s : ℕ) → s < 128 → slot s page ≡ numbered (slice_index node.now s)) }
{
    let mut bytes = [0; BLOCK_SIZE];
    node.write(&mut bytes);
    Page::new(alloc, Block::new(bytes))
}

/// Ends the number of a node that there may be.
pub(crate) fn end_old(batch: &mut Batch, old: Option<VirtualNumber>) -> Result<(), VolError>
    ensures ok { IfOk result (λ _. batch.new ≡ record batch.old { ends = batch.old.ends ++ ended_of old }) }
    ensures fits { IfOk result
        (λ _. (capacity : ℕ) (content : Content) → CanBeTaken capacity content batch.old →
        ((v : ℕ) → old ≡ Some v → is_live (content v) ≡ true) → CanBeTaken capacity content batch.new) }
    ensures err { IfErr result (λ e. e ≡ VolError.Memory) }
    ensures births_kept { batch.new.births ≡ batch.old.births }
    ensures ends_kept { take (length batch.old.ends) batch.new.ends ≡ batch.old.ends }
{
    match old {
        Some(number) => {
            batch.add_end(number)?;
            Ok(())
        }
        None => Ok(()),
    }
}

/// Puts a node in the place of one that there may be: its slots with some edits of the blocks below it. It is
/// gone where no slot names anything. Answers the node's number, and the one that names nothing where it is
/// gone.
pub(crate) fn put_node<V: Vstore>(
    file: &OldFile<'_, V>,
    batch: &mut Batch,
    level: Level,
    offset: u64,
    old: Option<VirtualNumber>,
    group: &[Edit],
) -> Result<VirtualNumber, VolError>
    requires fits { CanTake (V.store file.now.store.now) batch.old }
    requires live { (v : ℕ) → old ≡ Some v →
        is_live (content_in (V.store file.now.store.now) v) ≡ true }
    requires small { offset < limits.tree_limit }
    requires ascending { AllPairs ComesBefore group.now }
    requires grouped { All (λ e. e.offset / 128 ≡ offset) group.now }
    ensures ok { IfOk result (λ n. PutsNode (content_in (V.store file.now.store.now)) file.now.inode
        level offset old
        (slots_with group.now (pages_of (content_in (V.store file.now.store.now))) old offset) n
        batch.old.births batch.new.births batch.old.ends batch.new.ends) }
    ensures fits { IfOk result (λ _. CanTake (V.store file.now.store.now) batch.new) }
    ensures kept { GoesOn batch.old batch.new }
    ensures errors { IfErr result (λ e. e ≡ VolError.Memory) }
{
    let node = edited_node(file.store, &old, offset, group);
    end_old(batch, old)?;
    if is_blank(&node) {
        return Ok(VirtualNumber::new(0));
    }
    bear_node(file, batch, level, offset, &node)
}

/// Whether no slot of a node names anything.
fn is_blank(node: &Node) -> bool
    ensures none { IsTrue result → (s : ℕ) → s < 128 → slice_index node.now s ≡ 0 }
    ensures some { result ≡ false → (s : ℕ) × (s < 128) × (slice_index node.now s ≢ 0) }
{
    names_none(node.slots())
}

/// A node that there may be, with some edits of the blocks below it.
fn edited_node<V: VRead>(
    store: &V,
    old: &Option<VirtualNumber>,
    offset: u64,
    group: &[Edit],
) -> Node
    requires small { offset < limits.tree_limit }
    requires ascending { AllPairs ComesBefore group.now }
    requires grouped { All (λ e. e.offset / 128 ≡ offset) group.now }
    ensures slots { (s : ℕ) → s < 128 →
        numbered (slice_index result s) ≡ slots_with group.now (V.pages store.now) old.now offset s }
{
    let slots = edited_slots(store, *old, offset, group);
    Node::new(slots)
}

/// The slots of a node that there may be, with some edits of the blocks below it.
fn edited_slots<V: VRead>(
    store: &V,
    old: Option<VirtualNumber>,
    offset: u64,
    group: &[Edit],
) -> [VirtualNumber; SLOTS]
    requires small { offset < limits.tree_limit }
    requires ascending { AllPairs ComesBefore group.now }
    requires grouped { All (λ e. e.offset / 128 ≡ offset) group.now }
    ensures slots { (s : ℕ) → s < 128 →
        numbered (slice_index result s) ≡ slots_with group.now (V.pages store.now) old offset s }
    ensures count { length result ≡ 128 }
{
    let mut slots = old_slots(store, old);
    put_edits(&mut slots, offset, group);
    slots
}
