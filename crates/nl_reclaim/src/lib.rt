//! Cleaning of segments, as the cleaner of a log has it (Rosenblum and Ousterhout 1992): the pages of a
//! segment that are still needed are moved elsewhere, and then the segment is emptied. It works over any
//! `Vstore`, and asks a `Keeping` which numbers are needed: see the module `keeping`. Beside a volume it keeps
//! how many needed blocks each segment has.
#![tactic(auto)]

mod counting;
pub mod counting_laws;
mod ends;
mod judging;
mod keeping;
pub mod laws;
mod letting_go;
mod moving;
mod needed;
mod needed_counts;
mod retiring;
mod walking;

pub use ends::{Ended, Ends};
pub use judging::judge;
pub use keeping::{Keeping, is_number_needed};
pub use moving::{MoveCount, list_needed, move_listed};
pub use needed::{Needed, count_needed, first_needed};
pub use needed_counts::NeededCounts;
pub use retiring::retire;
