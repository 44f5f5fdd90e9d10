//! What each event does to the lists, the store and the counts of a pen, and what readers are told of it.
#![tactic(auto)]

mod checkpoints;
mod cleaner_views;
mod cleaning;
mod draft;
mod events;
mod expiry;
mod formatting;
mod list_events;
mod notes;
mod parts;
mod removing;
mod resizing;
mod room;
mod same_files;
mod same_trees;
mod showing;
mod tables;

pub use notes::{NoNotes, Notes};
pub use parts::Parts;
pub use room::Room;
pub use same_files::is_same_file;
pub use same_trees::is_same_tree;
pub use tables::Tables;
