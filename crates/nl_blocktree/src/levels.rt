//! The levels of a tree that is written anew, from the lowest one up.
ghost use Rattle.std.specs.Prelude.{◌≡◌, ◌≢◌, ◌≤◌, ◌<◌, ◌+◌, ◌/◌, ◌-◌, ◌++◌, ℕ, Some, not, length, slice_index, slice_index_or, IfOk, IfErr, All};
ghost use Rattle.nl_types.specs.Plain.Limits as limits;
ghost use Rattle.nl_types.specs.Blocks.Roots.{numbered};
ghost use Rattle.nl_layout.specs.Root.{root_of};
ghost use Rattle.nl_vstore.specs.Stores.{content_in};
ghost use Rattle.nl_blocktree.specs.Private.Edits.{Above, IsEdited, KnowAbove, begins_low, edit_of, top_edits, with_front};
ghost use Rattle.nl_blocktree.specs.Numbering.{CanTake};
ghost use Rattle.nl_blocktree.specs.Putting.{GoesOn};
ghost use Rattle.nl_blocktree.specs.Private.Renewing.{CanClimb, CanWriteAbove, IsClimbed};
ghost use Rattle.nl_blocktree.specs.Private.TreeLevels.{kept_in, tree_height};
ghost use Rattle.nl_blocktree.specs.Private.Writing.{PutsUp};

use crate::read::named;
use crate::tree::{Edit, OldFile, edit_alone, put_node};
use nl_layout::{Level, Root, SLOTS};
use nl_types::{VirtualNumber, VolError};
use nl_vstore::{Batch, Vstore};
use smallvec::SmallVec;
use std::alloc::{AllocError, Global};

/// Writes the nodes above some edits, level by level up to a height. Answers the number at the top.
pub(crate) fn climb<V: Vstore>(
    file: &OldFile<'_, V>,
    batch: &mut Batch,
    below: u8,
    height: u8,
    edits: &[Edit],
) -> Result<VirtualNumber, VolError>
    requires edits { CanWriteAbove (V.store file.now.store.now) (root_of file.now.root) batch.old
        below edits.now }
    requires climb { CanClimb (V.store file.now.store.now) (root_of file.now.root) below height edits.now }
    ensures ok { IfOk result (λ top. IsClimbed (content_in (V.store file.now.store.now)) file.now.inode
        (root_of file.now.root) below edits.now height top
        batch.old.births batch.new.births batch.old.ends batch.new.ends) }
    ensures fits { IfOk result (λ _. CanTake (V.store file.now.store.now) batch.new) }
    ensures errors { IfErr result (λ e. e ≡ VolError.Memory) }
    ensures kept { GoesOn batch.old batch.new }
{
    if below == height {
        return Ok(edits[0].number);
    }
    let told = put_level(file, batch, below, height, edits)?;
    climb(file, batch, below + 1, height, &told)
}

/// The edits of a level, with the top of a tree that grows in front of them, if it stands there: its number
/// stays.
fn with_top(
    alloc: Global,
    root: &Root,
    level: u8,
    height: u8,
    ups: Vec<Edit>,
) -> Result<Vec<Edit>, AllocError>
    requires { 0 < length ups.items }
    ensures { IfOk result (λ told. told.items ≡ top_edits (root_of root.now) level height ups.items) }
{
    match root {
        Root::Tree(old, top) if old.get() == level && level < height => {
            with_front(alloc, *top, ups)
        }
        _ => Ok(ups),
    }
}

/// Edits with one more at offset 0 in front, where none stands there.
fn with_front(alloc: Global, top: VirtualNumber, ups: Vec<Edit>) -> Result<Vec<Edit>, AllocError>
    requires { 0 < length ups.items }
    ensures { IfOk result (λ told. told.items ≡ with_front (not (begins_low ups.items)) top ups.items) }
{
    let mut told = ups;
    if told[0].offset != 0 {
        told.insert(0, edit_alone(alloc, 0, top))?;
    }
    Ok(told)
}

/// Writes the nodes above some edits of a level: one for each group of 128, in the place of the old one.
/// Answers the edits of the next level.
fn put_level<V: Vstore>(
    file: &OldFile<'_, V>,
    batch: &mut Batch,
    below: u8,
    height: u8,
    edits: &[Edit],
) -> Result<Vec<Edit>, VolError>
    requires edits { CanWriteAbove (V.store file.now.store.now) (root_of file.now.root) batch.old
        below edits.now }
    requires low { below ≤ 2 }
    requires small { All (λ e. e.offset < limits.tree_limit) edits.now }
    requires told { tree_height (root_of file.now.root) ≤ below → (i v : ℕ) →
        kept_in (V.store file.now.store.now) (root_of file.now.root) below i ≡ Some v →
        IsEdited edits.now i }
    ensures ok { IfOk result (λ told. PutsUp (content_in (V.store file.now.store.now)) file.now.inode
        (root_of file.now.root) below height edits.now told.items
        batch.old.births batch.new.births batch.old.ends batch.new.ends) }
    ensures above { IfOk result (λ told. KnowAbove
        (kept_in (V.store file.now.store.now) (root_of file.now.root)) (below + 1) told.items) }
    ensures fits { IfOk result (λ _. CanTake (V.store file.now.store.now) batch.new) }
    ensures errors { IfErr result (λ e. e ≡ VolError.Memory) }
    ensures kept { GoesOn batch.old batch.new }
{
    let mut ups = Vec::new(file.alloc);
    let mut at = 0;
    while at < edits.len() {
        let end = group_end(edits, at);
        let first = &edits[at];
        let offset = first.offset / SLOTS as u64;
        let old = node_above(first, below);
        let level = Level::new(below + 1);
        let group = &edits[at..end];
        let number = put_node(file, batch, level, offset, old, group)?;
        add_up(file.alloc, &mut ups, offset, number, first)?;
        at = end;
    }
    let told = with_top(file.alloc, &file.root, below + 1, height, ups)?;
    Ok(told)
}

/// The old node above an edit of a level.
fn node_above(edit: &Edit, level: u8) -> Option<VirtualNumber>
    ensures { result ≡ numbered (slice_index edit.now.above.items level) }
{
    match edit.above.as_slice().get(level as usize) {
        Some(number) => named(VirtualNumber::new(*number)),
        None => None,
    }
}

/// Adds what is to stand above an edit: it stands below the same old nodes.
fn add_up(
    alloc: Global,
    ups: &mut Vec<Edit>,
    offset: u64,
    number: VirtualNumber,
    edit: &Edit,
) -> Result<(), AllocError>
    ensures { IfOk result (λ _. (above : Above) × (above.items ≡ edit.now.above.items)
        × (ups.new.items ≡ ups.old.items ++ edit_of offset (Some number) above)) }
{
    let above = SmallVec::from_slice(alloc, edit.above.as_slice())?;
    ups.push(Edit {
        offset,
        number,
        above,
    })?;
    Ok(())
}

/// Where the group ends that begins at an index: all its edits stand below one node.
fn group_end(edits: &[Edit], first: usize) -> usize
    requires { first < length edits.now }
    ensures after { first < result }
    ensures within { result ≤ length edits.now }
    ensures grouped { (k : ℕ) (d e : Edit) → first ≤ k → k < result →
        (slice_index_or edits.now k d).offset / 128 ≡ (slice_index_or edits.now first e).offset / 128 }
    ensures next { (d e : Edit) → result < length edits.now →
        (slice_index_or edits.now result d).offset / 128 ≢ (slice_index_or edits.now first e).offset / 128 }
{
    let offset = edits[first].offset / SLOTS as u64;
    for end in first + 1..edits.len() {
        if edits[end].offset / SLOTS as u64 != offset {
            return end;
        }
    }
    edits.len()
}
