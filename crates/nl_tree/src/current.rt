//! The current tree.
ghost use Rattle.std.specs.Prelude.{◌≡◌, [], IfErr, IfOk};
ghost use Rattle.nl_types.specs.Plain.Limits as limits;
ghost use Rattle.nl_types.specs.declared.error.VolError;
ghost use Rattle.nl_tree.specs.Became.{holding_over};
ghost use Rattle.nl_tree.specs.Held.{Holding};
ghost use Rattle.nl_tree.specs.FirstTree.{nothing_held, root_directory_alone};
ghost use Rattle.nl_tree.specs.Numbers.{CountsFree};
ghost use Rattle.nl_tree.specs.Overlays.{IsOrderly, current_of};

use crate::overlay::Overlay;
use nl_types::VolError;
use std::alloc::Global;
use std::marker::Model;

/// The current tree, as what differs from the latest checkpoint.
#[derive(Drop)]
pub struct CurrentTree {
    pub(crate) overlay: Overlay,
}

impl Model for CurrentTree {
    ghost use Rattle.nl_tree.specs.Became.{Current};
    ghost use Rattle.nl_tree.specs.Overlays.{IsOrderly, current_of};

    ghost Value = { Current };

    ghost view = { λ tree. current_of tree.overlay };

    ghost invariant = { λ tree. IsOrderly tree.overlay };
}

impl CurrentTree {
    /// The tree in which nothing differs from a checkpoint that has so many paths beside the root.
    pub fn new(alloc: Global, names: u64) -> Self
        ensures new { result ≡ record { became = []; freed = []; mark = limits.first_inode; names = names } }
        ensures counts { (b : Holding) → CountsFree result b }
    {
        CurrentTree {
            overlay: Overlay::new(alloc, names),
        }
    }

    /// The tree of a new volume, over a checkpoint without files: the root directory, without names. Refused
    /// by `Memory` alone.
    pub fn first(alloc: Global) -> Result<Self, VolError>
        ensures first { IfOk result (λ tree. tree ≡
            record { became = root_directory_alone; freed = []; mark = limits.first_inode; names = 0 }) }
        ensures counts { IfOk result (λ tree. CountsFree tree nothing_held) }
        ensures refused { IfErr result (λ e. e ≡ VolError.Memory) }
    {
        Ok(CurrentTree {
            overlay: Overlay::with_root(alloc)?,
        })
    }

    /// What differs from the checkpoint.
    pub fn overlay(&self) -> &Overlay
        ensures same { current_of result.now ≡ self.now }
        ensures orderly { IsOrderly result.now }
    {
        &self.overlay
    }

    /// How many paths there are beside the root.
    pub fn names(&self) -> u64
        ensures { result ≡ self.now.names }
    {
        self.overlay.names
    }

    /// Nothing differs from the checkpoint that was made of this tree.
    pub fn settled(&mut self)
        ensures settled { self.new ≡ record self.old { became = [] } }
        ensures counts { (b : Holding) → CountsFree self.old b
            → CountsFree self.new (holding_over self.old.became b) }
    {
        self.overlay.changed.clear();
        self.overlay.weight = 0;
    }
}
