//! The blocks of a tree, met from its topmost node down.
ghost use Rattle.std.specs.Prelude.{◌≡◌, ◌<◌, ◌≤◌, ◌-◌, ◌*◌, ◌^◌, ℕ, suc, length, IsSome, IfErr, IfOk, Some};
ghost use Rattle.nl_types.specs.Blocks.Roots.{Tree as AnyTree, place_at};
ghost use Rattle.nl_blocktree.specs.TreePlaces.{IsUnder};
ghost use Rattle.nl_blocktree.specs.Walked.{IsWalkRefusal, IsWalked};
ghost use Rattle.nl_blocktree.specs.Private.Walks.{IsMetUnder, IsRefusalAt};

use crate::meeting::{Met, WalkError, meet};
use crate::read::indexes_below;
use nl_layout::{Level, Node, SLOTS};
use nl_types::VirtualNumber;
use nl_vstore::VRead;

/// Meets a block of a tree, and all that stands below it. It answers how many indices lead up to the last
/// data there.
fn walk_below<V: VRead>(
    store: &V,
    met: &mut Met,
    level: u8,
    offset: u64,
    number: VirtualNumber,
) -> Result<u64, WalkError>
    requires within { (v : ℕ) → IsSome (V.pages store.now v) → v < length met.old }
    requires level { level ≤ 3 }
    requires offset { offset < 128 ^ (3 - level) }
    ensures yes { IfOk result (λ count. (height top : ℕ) → level ≤ height
        → place_at (V.pages store.now) (AnyTree height top) level offset ≡ Some number
        → IsMetUnder (V.pages store.now) (AnyTree height top) level offset (suc offset) met.old met.new
        (Some count)) }
    ensures refused { IfErr result (λ e. (height top : ℕ) → level ≤ height
        → place_at (V.pages store.now) (AnyTree height top) level offset ≡ Some number
        → IsRefusalAt (V.pages store.now) (AnyTree height top) (IsUnder level offset (suc offset))
        met.old e) }
    ensures small { IfOk result (λ count. count < 2 ^ 50) }
    ensures count { length met.new ≡ length met.old }
{
    let page = meet(store, met, number)?;
    if level == 0 {
        return Ok(offset + 1);
    }
    let mut count = None;
    for slot in 0..SLOTS {
        if let Some(child) = Node::slot_in(page, slot) {
            let first = SLOTS as u64 * offset + slot as u64;
            count = Some(walk_below(store, met, level - 1, first, child)?);
        }
    }
    match count {
        Some(count) => Ok(count),
        None => Err(WalkError::EmptyNode),
    }
}

/// Walks a tree from its topmost node down. It answers how many indices lead up to its last data.
pub(crate) fn walk_tree<V: VRead>(
    store: &V,
    met: &mut Met,
    height: Level,
    top: VirtualNumber,
) -> Result<u64, WalkError>
    requires within { (v : ℕ) → IsSome (V.pages store.now v) → v < length met.old }
    ensures yes { IfOk result (IsWalked (V.pages store.now) (AnyTree height top) met.old met.new) }
    ensures refused { IfErr result (IsWalkRefusal (V.pages store.now) (AnyTree height top) met.old) }
    ensures small { IfOk result (λ count. count < 2 ^ 50) }
    ensures count { length met.new ≡ length met.old }
{
    let height = height.get();
    if top.get() == 0 {
        return Err(WalkError::NoNode);
    }
    if height == 0 {
        return Err(WalkError::TooHigh);
    }
    let count = walk_below(store, met, height, 0, top)?;
    // A lower tree would do where all data stands below its first child.
    if height > 1 && count <= indexes_below(height - 1) {
        return Err(WalkError::TooHigh);
    }
    Ok(count)
}
