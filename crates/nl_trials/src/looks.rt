//! Looks at volumes by calls that take no memory, each summed up in a number.
use nl_core::{Cpstat, Pen};
use nl_dat::DatEntry;
use nl_device::Device;
use nl_lib::{get_cpinfo, get_cpstat, get_needed, get_suinfo, get_sustat, get_vinfo};
use nl_mounts::Shared;
use nl_publish::Volumes;
use nl_sufile::Sustat;
use nl_types::{CheckpointNumber, Row, Segment, SegmentInfo, VirtualNumber, VolError};
use std::sync::Wait;

/// A hash of numbers in their order: FNV-1a of 64 bits, by whole numbers in place of bytes.
#[derive(Clone, Copy)]
pub(crate) struct Look {
    hash: u64,
}

impl Look {
    pub(crate) fn new() -> Look {
        Look {
            hash: 0xcbf2_9ce4_8422_2325,
        }
    }

    pub(crate) fn get(self) -> u64 {
        self.hash
    }

    pub(crate) fn add(&mut self, number: u64) {
        self.hash = (self.hash ^ number).wrapping_mul(0x100_0000_01b3);
    }

    pub(crate) fn add_bytes(&mut self, bytes: &[u8]) {
        self.add(bytes.len() as u64);
        for byte in bytes {
            self.add(u64::from(*byte));
        }
    }

    pub(crate) fn add_refusal(&mut self, refusal: VolError) {
        self.add(u64::from(refusal.number()));
    }

    fn add_cpstat(&mut self, stat: Cpstat) {
        self.add(stat.latest.get());
        self.add(stat.count as u64);
        self.add(stat.snapshots as u64);
    }

    fn add_sustat(&mut self, stat: Sustat) {
        self.add(stat.segments as u64);
        self.add(stat.clean as u64);
        self.add(stat.dirty as u64);
    }

    fn add_checkpoint(&mut self, told: Result<Row, VolError>) {
        match told {
            Err(refusal) => self.add_refusal(refusal),
            Ok(row) => {
                self.add(row.number.get());
                self.add(row.stamp);
                self.add(u64::from(row.mode.is_snapshot()));
                self.add(u64::from(row.minor));
                self.add(row.inodes);
            }
        }
    }

    fn add_segment(&mut self, info: SegmentInfo) {
        self.add(info.state as u64);
        self.add(info.stamp);
        self.add(u64::from(info.used));
    }

    fn add_needed(&mut self, told: Result<u32, VolError>) {
        match told {
            Err(refusal) => self.add_refusal(refusal),
            Ok(count) => self.add(u64::from(count)),
        }
    }

    fn add_entry(&mut self, entry: Option<DatEntry>) {
        match entry {
            None => self.add(0),
            Some(entry) => {
                self.add(u64::from(entry.block.get()));
                self.add(entry.start.get());
                self.add(entry.end.map_or(u64::MAX, CheckpointNumber::get));
            }
        }
    }

    // ---- a pen

    fn add_checkpoints<D: Device>(&mut self, pen: &Pen<D>) {
        self.add_cpstat(get_cpstat(pen));
        for number in 0..=pen.latest().get() {
            self.add_checkpoint(get_cpinfo(pen, CheckpointNumber::new(number)));
        }
    }

    fn add_segments<D: Device>(&mut self, pen: &Pen<D>) {
        self.add_sustat(get_sustat(pen));
        for number in 0..=u32::MAX {
            let segment = Segment::new(number);
            let Ok(info) = get_suinfo(pen, segment) else {
                return;
            };
            self.add_segment(info);
            self.add_needed(get_needed(pen, segment));
        }
    }

    fn add_numbers<D: Device>(&mut self, pen: &Pen<D>) {
        for number in 1..=u64::MAX {
            let Ok(entry) = get_vinfo(pen, VirtualNumber::new(number)) else {
                return;
            };
            self.add_entry(entry);
        }
    }

    /// All that is told of a pen without memory: of each checkpoint, segment and number, whether it is dirty,
    /// and how many mounts it has.
    pub(crate) fn add_pen<D: Device>(&mut self, pen: &Pen<D>) {
        self.add_checkpoints(pen);
        self.add_segments(pen);
        self.add_numbers(pen);
        self.add(u64::from(pen.is_dirty()));
        self.add(pen.mount_count() as u64);
    }
}

pub(crate) fn look_at_pen<D: Device>(pen: &Pen<D>) -> u64 {
    let mut look = Look::new();
    look.add_pen(pen);
    look.get()
}

/// What is told of a shared volume without memory, and without publishing what is pending: of each segment,
/// and how many checkpoints and snapshots there are.
pub(crate) fn look_at_shared<D: Device, J: Volumes, R: Wait>(
    rt: &R,
    shared: &Shared<Pen<D>, J>,
) -> u64 {
    let mut look = Look::new();
    look.add_cpstat(shared.cpstat(rt));
    look.add_sustat(shared.sustat(rt));
    for number in 0..=u32::MAX {
        let segment = Segment::new(number);
        let Ok(view) = shared.segment(rt, segment) else {
            return look.get();
        };
        look.add_segment(view.info);
        look.add_needed(Ok(view.needed));
    }
    look.get()
}
