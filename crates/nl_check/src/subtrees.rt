//! The nodes of a tree, beside what another file has at their places.
ghost use Rattle.std.specs.Prelude.{◌≡◌, ◌↔◌, ◌<◌, IsTrue, Some, option_copied};
ghost use Rattle.std.specs.Option.{option_and_then};
ghost use Rattle.nl_types.specs.Blocks.Roots.{Pages, numbered, place_at, slot};
ghost use Rattle.nl_layout.specs.Root.{root_of};
ghost use Rattle.nl_check.specs.Private.ChangedFiles.{of_height};

use nl_layout::{Level, Node, Root};
use nl_types::{Page, VirtualNumber};
use nl_vstore::VRead;

/// The page of a number that there may be.
pub(crate) fn page_under<V: VRead>(store: &V, number: Option<VirtualNumber>) -> Option<&Page>
    ensures { option_copied result ≡ option_and_then (V.pages store.now) number }
{
    store.page(number?)
}

/// What a slot of a node's page names, if the page is there.
pub(crate) fn slot_of(page: Option<&Page>, at: usize) -> Option<VirtualNumber>
    requires { at < 128 }
    ensures { result ≡ option_and_then (λ bytes. slot at bytes) (option_copied page.entry) }
{
    Node::slot_in(page?, at)
}

/// The number, where it isn't the one that names nothing.
pub(crate) fn named(number: VirtualNumber) -> Option<VirtualNumber>
    ensures { result ≡ numbered number }
{
    if number.get() == 0 {
        None
    } else {
        Some(number)
    }
}

/// Whether a number is the one that there may be.
pub(crate) fn is_named(named: &Option<VirtualNumber>, number: VirtualNumber) -> bool
    ensures { IsTrue result ↔ (named.now ≡ Some number) }
{
    match named {
        Some(other) => *other == number,
        None => false,
    }
}

/// Whether two numbers that there may be are one.
pub(crate) fn are_one(one: &Option<VirtualNumber>, other: &Option<VirtualNumber>) -> bool
    ensures { IsTrue result → one.now ≡ other.now }
{
    match one {
        Some(number) => is_named(other, *number),
        None => other.is_none(),
    }
}

/// The topmost node that stands beside that of a tree of a height: a file that is no tree of this height has
/// none.
pub(crate) fn top_beside(height: Level, other: Root) -> Option<VirtualNumber>
    ensures { (pages : Pages) → place_at pages (of_height height (root_of other)) height 0 ≡ result }
{
    match other {
        Root::Empty => None,
        Root::Chain(_) => None,
        Root::Tree(level, top) => { if level == height { named(top) } else { None } }
    }
}
