//! The current tree, to be read.
ghost use Rattle.std.specs.Prelude.{◌≡◌};
ghost use Rattle.nl_tree.specs.Became.{holding_over};
ghost use Rattle.nl_tree.specs.Held.{Holding, IsHolding};

use crate::current::CurrentTree;
use crate::overlay::Overlay;
use crate::tree_read::{Base, Link, TreeRead};
use nl_dirs::Record;
use nl_types::{InodeNumber, Page, VolError};
use std::alloc::Global;

/// The current tree over the latest checkpoint, to be read by paths as the checkpoint's own tree is.
#[derive(Drop)]
pub struct View<'a, B: Base> {
    overlay: &'a Overlay,
    base: &'a B,
}

impl CurrentTree {
    /// The tree over a checkpoint, to be read. It takes no memory.
    pub fn view<'a, B: Base>(&'a self, base: &'a B) -> View<'a, B>
        ensures { (b : Holding) → B.TreeRead.holds base.now b → IsHolding (holding_over self.now.became b)
            → ⟦<View<'a, B> as TreeRead>⟧.holds result (holding_over self.now.became b) }
    {
        View {
            overlay: &self.overlay,
            base,
        }
    }
}

impl<B: Base> TreeRead for View<'_, B> {
    ghost use Rattle.std.specs.Prelude.{◌≡◌};
    ghost use Rattle.nl_tree.specs.Held.{Holding, IsHolding};
    ghost use Rattle.nl_tree.specs.Overlays.{holding_now};

    ghost holds = { λ view held. IsHolding held
        × ((b : Holding) × B.TreeRead.holds view.base.now b × (held ≡ holding_now view.overlay.now b)) };

    fn find(&self, dir: InodeNumber, name: &[u8]) -> Option<Link> {
        self.overlay.find(self.base, dir, name)
    }

    fn size(&self, file: InodeNumber) -> u64 {
        self.overlay.size(self.base, file)
    }

    fn block(&self, file: InodeNumber, index: u64) -> Option<&Page> {
        self.overlay.block(self.base, file, index)
    }

    fn read_bytes(&self, file: InodeNumber, offset: u64, into: &mut [u8]) {
        self.overlay.read_bytes(self.base, file, offset, into);
    }

    fn name_count(&self, dir: InodeNumber) -> u64 {
        self.overlay.name_count(self.base, dir)
    }

    fn records(&self, alloc: Global, dir: InodeNumber) -> Result<Vec<Record>, VolError> {
        self.overlay.records(alloc, self.base, dir)
    }
}
