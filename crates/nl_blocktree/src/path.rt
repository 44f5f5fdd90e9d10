//! The way to the data of a file: what stands at an index, and which nodes stand above it.
ghost use Rattle.std.specs.Prelude.{◌≡◌, ◌≤◌, ◌/◌, [], ◌∷◌};
ghost use Rattle.smallvec.specs.SmallVec.{HasRoomFor, small_vec_len};
ghost use Rattle.nl_types.specs.Blocks.Roots.{OfChain, below_top, kind_of, place_at};
ghost use Rattle.nl_layout.specs.Root.{root_of};
ghost use Rattle.nl_blocktree.specs.Private.Chains.{raw};
ghost use Rattle.nl_blocktree.specs.Private.Edits.{TellsAbove};
ghost use Rattle.nl_blocktree.specs.Private.TreeLevels.{IsNodeOf, kept_levels, nodes_above};

use crate::cursor::node_from;
use crate::read::{DATA_SLOTS, child_of, named, number_in};
use nl_layout::{Root, SLOTS};
use nl_types::VirtualNumber;
use nl_vstore::VRead;
use smallvec::SmallVec;
use std::alloc::Global;

/// The number of the data at an index, or of another block, and what stands above it.
#[derive(Drop)]
pub(crate) struct Path {
    pub number: Option<VirtualNumber>,
    /// The node above it, of a chain.
    pub node: Option<VirtualNumber>,
    /// The numbers of the nodes above it, of a tree: lowest first, 0 for none.
    pub above: SmallVec<u64, 3>,
}

/// The way to the data at an index, where of a chain the node above some index is known. Of a tree it reads
/// each node above the index, and of a chain those behind the known one. It takes no memory.
pub(crate) fn path_to<V: VRead>(
    alloc: Global,
    store: &V,
    root: &Root,
    known: u64,
    node: Option<VirtualNumber>,
    index: u64,
) -> Path
    requires { IsNodeOf (V.pages store.now) (root_of root.now) known node }
    ensures node { IsNodeOf (V.pages store.now) (root_of root.now) index result.node }
    ensures number { result.number ≡ place_at (V.pages store.now) (root_of root.now) 0 index }
    ensures above { TellsAbove
        (kept_levels (V.pages store.now) (root_of root.now)) 0 index result.above.items }
{
    match root {
        Root::Empty => bare_path(alloc, None, None),
        Root::Chain(_) => chain_path(alloc, store, root, known, node, index),
        Root::Tree(height, top) => path_below(alloc, store, *top, height.get(), index),
    }
}

/// The way to data that stands below no node of a tree.
fn bare_path(alloc: Global, number: Option<VirtualNumber>, node: Option<VirtualNumber>) -> Path
    ensures number { result.number ≡ number }
    ensures node { result.node ≡ node }
    ensures above { result.above.items ≡ [] }
    ensures in_place { result.above.capacity ≡ 3 }
{
    Path {
        number,
        node,
        above: SmallVec::new(alloc),
    }
}

/// The way to a chain's data at an index, where the node above some index is known.
fn chain_path<V: VRead>(
    alloc: Global,
    store: &V,
    root: &Root,
    known: u64,
    node: Option<VirtualNumber>,
    index: u64,
) -> Path
    requires chain { kind_of (root_of root.now) ≡ OfChain }
    requires node { IsNodeOf (V.pages store.now) (root_of root.now) known node }
    ensures node { result.node ≡ place_at (V.pages store.now) (root_of root.now) 1 (index / 127) }
    ensures number { result.number ≡ place_at (V.pages store.now) (root_of root.now) 0 index }
    ensures above { result.above.items ≡ [] }
{
    let slots = DATA_SLOTS as u64;
    let node = node_from(store, *root, known / slots, node, index / slots);
    let read = &node;
    let number = child_of(store, (index % slots) as usize, *read);
    bare_path(alloc, number, *read)
}

#[tactic(auto, unfolding(nl_types::specs::Blocks::Roots::below_top))]
/// The way to the block of a tree at an offset so many levels below its top.
fn path_below<V: VRead>(
    alloc: Global,
    store: &V,
    top: VirtualNumber,
    levels: u8,
    offset: u64,
) -> Path
    requires { levels ≤ 3 }
    ensures number { result.number ≡ below_top (V.pages store.now) top levels offset }
    ensures above { result.above.items ≡ nodes_above (V.pages store.now) top levels offset }
    ensures count { small_vec_len result.above ≡ levels }
    ensures in_place { result.above.capacity ≡ 3 }
{
    if levels == 0 {
        let number = if offset == 0 { named(top) } else { None };
        return bare_path(alloc, number, None);
    }
    let node = path_below(alloc, store, top, levels - 1, offset / SLOTS as u64);
    let number = child_of(store, (offset % SLOTS as u64) as usize, node.number);
    step_down(node, number)
}

/// The way to a block, where the way to the node above it is given.
fn step_down(node: Path, number: Option<VirtualNumber>) -> Path
    requires { HasRoomFor node.above 1 }
    ensures number { result.number ≡ number }
    ensures above { result.above.items ≡ raw node.number ∷ node.above.items }
    ensures capacity { result.above.capacity ≡ node.above.capacity }
{
    let mut above = node.above;
    let _in_place = above.insert(0, number_in(node.number).get());
    Path {
        number,
        node: None,
        above,
    }
}
