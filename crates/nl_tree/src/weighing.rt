//! How much changed since the latest checkpoint.
ghost use Rattle.std.specs.Prelude.{◌≡◌, ◌+◌, ◌<◌, ◌^◌};
ghost use Rattle.nl_tree.specs.Overlays.{IsOrderly, became_in};
ghost use Rattle.nl_tree.specs.Places.{Recounts, places_of};
ghost use Rattle.nl_tree.specs.Weights.{IsNoLess, capped, nodes_above, total_weight};

use crate::current::CurrentTree;
use crate::overlay::{Changed, Overlay};

/// How many nodes stand above so many blocks at most.
fn nodes_above(blocks: usize) -> usize
    ensures nodes { result ≡ nodes_above blocks }
    ensures few { result < 2 ^ 63 }
{
    blocks / 127 + blocks / 16384 + 3
}

/// The block of an inode, so many new blocks, and the nodes above so many blocks in all.
fn weight_with(new: usize, blocks: usize) -> usize
    ensures { result ≡ capped (1 + new + nodes_above blocks) }
{
    new.saturating_add(1 + nodes_above(blocks))
}

/// A sum in which one part weighed something else before. What does not fit in it any more stays so.
pub(crate) fn recounted(sum: usize, was: usize, now: usize) -> usize
    ensures { Recounts sum result was now }
{
    if sum < usize::MAX {
        sum.saturating_sub(was).saturating_add(now)
    } else {
        sum
    }
}

impl Changed {
    /// How many blocks a checkpoint writes of the inode at most. Places in which nothing shows count.
    pub(crate) fn weight(&self) -> usize
        ensures { result ≡ capped (places_of self.now) }
    {
        match self {
            Changed::Gone => 1,
            Changed::File(file) => weight_with(file.pages.len(), file.size.div_ceil(1024) as usize),
            Changed::Dir(listing) => weight_with(listing.map.len(), listing.map.len()),
        }
    }
}

impl Overlay {
    /// How many blocks a checkpoint writes of all inodes at most.
    fn weight(&self) -> usize
        requires { IsOrderly self.now }
        ensures { IsNoLess (total_weight (became_in self.now)) result }
    {
        self.weight
    }
}

impl CurrentTree {
    /// How many blocks a checkpoint of the tree writes at most, but for the nodes of the file of inodes. It
    /// is counted as inodes change, so this takes no time by what changed, and no memory.
    pub fn weight(&self) -> usize
        ensures { IsNoLess (total_weight self.now.became) result }
    {
        self.overlay.weight()
    }
}
