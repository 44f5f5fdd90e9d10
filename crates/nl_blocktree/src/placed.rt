//! All blocks of a file in the order of their levels.
ghost use Rattle.std.specs.Prelude.{◌≡◌, ◌<◌, ◌≤◌, ◌*◌, ◌+◌, IfErr, IfOk};
ghost use Rattle.nl_types.specs.declared.error.VolError;
ghost use Rattle.nl_types.specs.Blocks.Roots.{height_of, place_at};
ghost use Rattle.nl_layout.specs.Root.{root_of};
ghost use Rattle.nl_blocktree.specs.FileShapes.{HasShape, IsSizeOf};
ghost use Rattle.nl_blocktree.specs.Listed.{AreAllBlocks};
ghost use Rattle.nl_blocktree.specs.Private.Listing.{AreBlocksBefore, with_block};

use crate::read::{data_at, node_at, node_below};
use nl_layout::{Level, Root};
use nl_types::{VirtualNumber, VolError};
use nl_vstore::VRead;
use std::alloc::Global;

/// A block of a file: where it stands, and its number.
#[derive(Clone, Copy)]
pub struct PlacedBlock {
    pub level: Level,
    /// The index of a data block, or the position of a node in its level, from 0.
    pub offset: u64,
    pub number: VirtualNumber,
}

/// All blocks of a file of the right shape, data and nodes, where so many indices lead up to its last block,
/// as `walk` answers. Refused by `Memory` alone.
pub fn blocks<V: VRead>(
    alloc: Global,
    store: &V,
    root: &Root,
    count: u64,
) -> Result<Vec<PlacedBlock>, VolError>
    requires shape { HasShape (V.pages store.now) (root_of root.now) }
    requires sized { IsSizeOf (V.pages store.now) (root_of root.now) (1024 * count) }
    ensures all { IfOk result (λ blocks.
        AreAllBlocks (V.pages store.now) (root_of root.now) blocks.items) }
    ensures refused { IfErr result (λ e. e ≡ VolError.Memory) }
{
    let mut blocks = Vec::new(alloc);
    for level in 0..top_level(root) + 1 {
        list_level(store, root, level, count, &mut blocks)?;
    }
    Ok(blocks)
}

/// Adds the blocks of a level behind those of all lower ones. Refused by `Memory` alone.
fn list_level<V: VRead>(
    store: &V,
    root: &Root,
    level: u8,
    count: u64,
    blocks: &mut Vec<PlacedBlock>,
) -> Result<(), VolError>
    requires level { level ≤ 3 }
    requires lower { AreBlocksBefore (V.pages store.now) (root_of root.now) level 0 blocks.old.items }
    ensures listed { IfOk result (λ _.
        AreBlocksBefore (V.pages store.now) (root_of root.now) level count blocks.new.items) }
    ensures refused { IfErr result (λ e. e ≡ VolError.Memory) }
{
    for offset in 0..count {
        let number = number_at(store, root, level, offset);
        list_block(blocks, level, offset, number)?;
    }
    Ok(())
}

/// Adds a block where there is one. Refused by `Memory` alone.
fn list_block(
    blocks: &mut Vec<PlacedBlock>,
    level: u8,
    offset: u64,
    number: Option<VirtualNumber>,
) -> Result<(), VolError>
    requires { level ≤ 3 }
    ensures listed { IfOk result (λ _. blocks.new.items ≡ with_block blocks.old.items level offset number) }
    ensures refused { IfErr result (λ e. e ≡ VolError.Memory) }
{
    if let Some(number) = number {
        blocks.push(PlacedBlock {
            level: Level::new(level),
            offset,
            number,
        })?;
    }
    Ok(())
}

/// The number at an offset of a level, if there is one.
fn number_at<V: VRead>(store: &V, root: &Root, level: u8, offset: u64) -> Option<VirtualNumber>
    ensures { result ≡ place_at (V.pages store.now) (root_of root.now) level offset }
{
    match level {
        0 => data_at(store, *root, offset),
        1 => node_at(store, *root, offset),
        _ => high_node_at(store, root, level, offset),
    }
}

/// The number of a node above the lowest ones.
fn high_node_at<V: VRead>(store: &V, root: &Root, level: u8, offset: u64) -> Option<VirtualNumber>
    requires { 1 < level }
    ensures { result ≡ place_at (V.pages store.now) (root_of root.now) level offset }
{
    match root {
        Root::Empty => None,
        Root::Chain(_) => None,
        Root::Tree(height, top) => node_below(store, height.get(), *top, level, offset),
    }
}

/// The level of a root's first or topmost node, 0 where it has none.
fn top_level(root: &Root) -> u8
    ensures level { result ≡ height_of (root_of root.now) }
    ensures most { result ≤ 3 }
{
    match root {
        Root::Empty => 0,
        Root::Chain(_) => 1,
        Root::Tree(height, _) => height.get(),
    }
}
