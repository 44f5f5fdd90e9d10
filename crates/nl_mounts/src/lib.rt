//! Readers of a shared volume on other threads: ports, which read mounts without waiting, and the volume that
//! they share.
#![tactic(auto)]

mod asks;
mod cache;
mod cached_reads;
mod calls;
mod enters;
mod file_read;
mod files;
pub mod laws;
mod looks;
mod many;
mod port;
mod shared;
mod standing;
mod taken;
mod visits;

pub use enters::Enters;
pub use files::{FileAt, PartsRead};
pub use many::read_many;
pub use nl_cpfile::Cpstat;
pub use nl_protect::{Amount, Config};
pub use nl_publish::{
    Gate, Gone, JobAnswer, Mount, Opened, ReadJob, RefusedMount, SegmentView, Volumes,
    is_mount_event,
};
pub use nl_sufile::Sustat;
pub use nl_types::{
    Answer, Ask, Change, CheckpointNumber, Event, Geometry, Items, ListOptions, Mode, Moment,
    Named, Range, Reply, Row, Segment, SegmentInfo, Stat, VolError,
};
pub use port::Port;
pub use shared::{Shared, ToldReply, seat_all, share, spend_all};
pub use standing::Standing;
