//! The segment usage table of a volume, and where the logs of an event go.
//!
//! `SegTable` knows of each segment whether it is clean, dirty, active or in error, the moment of its last
//! log and how many of its blocks are used. It is a table in memory, as long as the device has segments from
//! the start on. The writer of logs asks `place` for the logs of an event, and tells the table what became of
//! them: a segment was taken (`take_clean`), a log was written (`add_log`), a write failed (`mark_error`), a
//! segment was emptied (`mark_clean`). The cleaner and the views of segment usage read it by `suinfo` and
//! `sustat`. `SegmentCounts` has a count for each segment, for those who count blocks there.
#![tactic(auto)]

mod clean;
mod counts;
mod images;
pub mod laws;
mod placing;
mod table;

pub use counts::SegmentCounts;
pub use table::{SegTable, Sustat};
