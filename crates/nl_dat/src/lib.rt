//! Virtual block numbers: each names a page, wherever the page is moved, and a period of checkpoints.
#![tactic(auto)]

mod bdesc;
mod dat;
mod entries;
mod entry_bytes;
mod images;
pub mod laws;
mod moving;
mod reclaim;

pub use bdesc::Bdesc;
pub use dat::Dat;
pub use entries::DatEntry;
pub use images::read_numbers;
