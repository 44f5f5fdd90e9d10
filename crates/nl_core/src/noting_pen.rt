//! The pen as a shared volume knows it.
use crate::pen::Pen;
use nl_commit::{Commit, NotingPen};
use nl_cpfile::Cpstat;
use nl_device::Device;
use nl_sufile::SegTable;
use nl_types::{Ask, CheckpointNumber, Event, Reply, Segment, VolError};

impl<D: Device> NotingPen for Pen<D> {
    ghost layout = { λ p. p };

    fn means_a_world(&self) {
        Pen::means_a_world(self);
    }

    fn apply_noting(&mut self, event: &Event, notes: &mut Vec<Commit>) -> Reply {
        Pen::apply_noting(self, event, notes)
    }

    fn whole(&self) -> Result<Commit, VolError> {
        Pen::whole(self)
    }

    fn give_all_back(&mut self) {
        Pen::give_all_back(self);
    }

    fn segments(&self) -> &SegTable {
        Pen::segments(self)
    }

    fn needed(&self, segment: Segment) -> Result<u32, VolError> {
        Pen::needed(self, segment)
    }

    fn cpstat(&self) -> Cpstat {
        Pen::cpstat(self)
    }

    fn read_at(&self, number: CheckpointNumber, ask: &Ask) -> Reply {
        Pen::read_at(self, number, ask)
    }
}
