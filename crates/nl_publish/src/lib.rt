//! The published states of a shared volume: one legal history of commits, and what lies under the lock, the
//! writer's pen with the commits that wait. Readers enter a state of what is published, each on a lane of its
//! own if they run side by side.
#![tactic(auto)]

mod cleaning;
mod entries;
mod events;
mod history;
pub mod laws;
mod locked;
mod many;
mod mount;
mod opening;
mod press;
mod protocol;
mod reader;
mod reader_state;
mod tables;
mod views;

pub use events::is_mount_event;
pub use history::{Front, HistoryLog, Opened};
pub use locked::Locked;
pub use many::{Gate, JobAnswer, ReadJob, read_many};
pub use mount::{Gone, Mount, RefusedMount};
pub use nl_commit::NotingPen;
pub use opening::{Seat, publish};
pub use press::{Press, Publisher, count_refusal};
pub use protocol::{SeeState, StateReader, StateReading, Volumes};
pub use reader::{FileReader, PlaceKey};
pub use reader_state::{Entry, ReaderState};
pub use tables::{ApplyError, ReaderTables};
pub use views::SegmentView;
