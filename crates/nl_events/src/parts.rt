//! The parts of a pen, which its events read and change.
ghost use Rattle.std.specs.Prelude.{◌≡◌};
ghost use Rattle.nl_commit.specs.Layout.{IsPen, layout_of};
ghost use Rattle.nl_commit.specs.Volume.{without_mounts};

use crate::tables::Tables;
use nl_reclaim::NeededCounts;
use nl_vstore::Vstore;
use std::alloc::Global;
use std::marker::Model;

/// What the writer of a volume holds: its tables in memory, the store of its blocks, and how many needed
/// blocks each segment has. Contracts see the layout of tables and store; the type keeps that it is a pen's,
/// and that the counts are those of its needed blocks.
#[derive(Drop)]
pub struct Parts<V: Vstore> {
    pub alloc: Global,
    pub tables: Tables,
    pub store: V,
    pub needed: NeededCounts,
}

impl<V: Vstore> Model for Parts<V> {
    ghost use Rattle.nl_commit.specs.Layout.{Layout, layout_of};
    ghost use Rattle.nl_events.specs.NeededBlocks.{IsCountedPen};

    ghost Value = { Layout };

    ghost view = { λ p. layout_of p.tables.lists (V.store p.store) };

    ghost invariant = { λ p. IsCountedPen (layout_of p.tables.lists (V.store p.store)) p.needed };
}

impl<V: Vstore> Parts<V> {
    /// Every pen means a world, and is sound. This says so to its callers, and does nothing.
    pub fn means_a_world(&self)
        ensures { IsPen self.now }
    {
        let _ = &self.tables;
    }

    /// Gives all mounts back. It takes no memory.
    pub fn give_all_back(&mut self)
        ensures { self.new ≡ layout_of (without_mounts self.old.lists) self.old.store }
    {
        self.tables.give_all_back();
    }
}
