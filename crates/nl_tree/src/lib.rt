//! Trees of files: reading of one by inode numbers and by paths, what changed in one since the latest
//! checkpoint, and the calls that change it.
#![tactic(auto)]

mod calls;
mod changed;
mod changes;
mod copying;
mod current;
mod entries;
mod files;
pub mod laws;
mod listing;
mod numbers;
mod overlay;
mod page_writing;
mod pages;
mod paths;
mod reading;
mod renames;
mod renaming;
mod showing;
mod tree_read;
mod view;
mod weighing;
mod writing;

pub use current::CurrentTree;
pub use listing::Listing;
pub use overlay::{Changed, FileBlocks, Overlay, Slot};
pub use paths::find_file;
pub use reading::{answer, list, read, read_file_into, read_into, stat};
pub use tree_read::{Base, Link, TreeRead};
pub use view::View;
