//! Folders of the host and trees of a volume, side by side: each read whole into a list of its entries, in
//! the order of their paths; what differs between two of them; and the file calls that make one the other.
#![tactic(auto)]

mod differences;
mod folder;
pub mod laws;
mod looking;
mod moves;
mod passing;
mod paths;
mod plans;
mod rewriting;
mod sides;
mod trees;

pub use differences::{Difference, all_differences, difference_between, same_trees};
pub use folder::{Folder, FolderError, whole_tree};
pub use looking::find_in;
pub use passing::{Knowledge, folder_differences};
pub use paths::{
    Path, appended, begins_with, compare, copied, is_same_path, sharing, spelled, with_name,
};
pub use plans::{Plan, planned_calls};
pub use trees::{Tree, found_at, is_in_order, is_same_kind, is_same_object, part_below};
