//! What is kept of a folder of the host, in a tree that also has pins; and what such a tree shows.
#![tactic(auto)]

mod keeping;
pub mod laws;
mod lost;
mod parts;
mod reverting;
mod showing;
mod unknown;

pub use keeping::kept_tree;
pub use lost::{coming_back, has_folder, is_bad_manifest};
pub use parts::part_at;
pub use reverting::{RevertError, reverted};
pub use showing::shown_tree;
pub use unknown::with_private;
