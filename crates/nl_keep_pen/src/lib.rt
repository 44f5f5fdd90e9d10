//! A pen as a volume that keeps trees, what is kept from one image to the next, and room in the volume for
//! it: rounds of cleaning that keep all checkpoints but plain minor ones, and what is done before a backup.
#![tactic(auto)]

mod capacity;
mod comparing;
mod history;
pub mod laws;
mod looking;
mod opened;
mod pins;
mod room;
mod rounds;
mod unread;

pub use capacity::Capacity;
pub use history::ShownDifferences;
use nl_core::Pen;
use nl_device::Device;
use nl_keep::Volume;
use nl_types::{Ask, CheckpointNumber, Event, Reply};
pub use opened::{OpenedVolume, format_image};
pub use room::{Effort, Room};
pub use rounds::Cleaning;
pub use unread::is_manifest_path;

/// A pen, as a volume that keeps trees.
#[derive(Drop)]
pub struct PenVolume<D: Device> {
    pub pen: Pen<D>,
}

impl<D: Device> Volume for PenVolume<D> {
    ghost use Rattle.nl_commit.specs.Layout.{MeansWorld};

    ghost means = { λ v. MeansWorld v.pen };

    ghost sound = { λ v w means. means.world };

    fn apply(&mut self, event: &Event) -> Reply {
        self.pen.apply(event)
    }

    fn read_at(&self, number: CheckpointNumber, ask: &Ask) -> Reply {
        self.pen.read_at(number, ask)
    }
}
