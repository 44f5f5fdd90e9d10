//! Where the data of a tree ends, by one node of each level.
ghost use Rattle.std.specs.Prelude.{◌≡◌, ◌<◌, ◌≤◌, ◌-◌, ◌*◌, ◌^◌, ℕ, suc, IfSome, Some};
ghost use Rattle.nl_types.specs.Blocks.Roots.{Tree as AnyTree, place_at};
ghost use Rattle.nl_check.specs.Private.BesideTrees.{IsEndOfTree, IsLastSlot};
ghost use Rattle.nl_blocktree.specs.TreePlaces.{IsEnd, IsUnder};

use nl_blocktree::indexes_below;
use nl_layout::{Level, Node, SLOTS};
use nl_types::{Page, VirtualNumber};
use nl_vstore::VRead;

/// The last slot of a node's page that names something.
#[derive(Clone, Copy)]
struct LastSlot {
    slot: usize,
    /// What it names.
    child: VirtualNumber,
}

/// The last slot of a node's page that names something. None where none does.
fn last_slot(page: &Page) -> Option<LastSlot>
    ensures { IfSome result (λ last. IsLastSlot page.now last.slot last.child) }
{
    for behind in 0..SLOTS {
        let slot = SLOTS - 1 - behind;
        if let Some(child) = Node::slot_in(page, slot) {
            return Some(LastSlot { slot, child });
        }
    }
    None
}

/// How many indices lead up to the last data under a block of a tree: the last slots that name something lead
/// there. None where a node names nothing, or has no page.
fn end_below<V: VRead>(store: &V, level: u8, offset: u64, number: VirtualNumber) -> Option<u64>
    requires level { level ≤ 3 }
    requires offset { offset < 128 ^ (3 - level) }
    ensures end { IfSome result (λ count. (height top : ℕ) → level ≤ height
        → place_at (V.pages store.now) (AnyTree height top) level offset ≡ Some number
        → IsEnd (V.pages store.now) (AnyTree height top) (IsUnder level offset (suc offset)) count) }
    ensures small { IfSome result (λ count. count < 2 ^ 50) }
{
    if level == 0 {
        return Some(offset + 1);
    }
    let last = last_slot(store.page(number)?)?;
    end_below(
        store,
        level - 1,
        SLOTS as u64 * offset + last.slot as u64,
        last.child,
    )
}

/// How many indices lead up to the last data of a tree. None where it has no topmost node or no level of
/// nodes, a lower tree would do, or a node on the way down to the last data names nothing.
pub(crate) fn end_of_tree<V: VRead>(store: &V, height: Level, top: VirtualNumber) -> Option<u64>
    ensures end { IfSome result (λ count. IsEndOfTree (V.pages store.now) height top count) }
    ensures small { IfSome result (λ count. count < 2 ^ 50) }
{
    let height = height.get();
    if height == 0 || top.get() == 0 {
        return None;
    }
    let count = end_below(store, height, 0, top)?;
    // A lower tree would do where all data stands below its first child.
    if height > 1 && count <= indexes_below(height - 1) {
        return None;
    }
    Some(count)
}
