//! Folders of the host: read into a tree, with what is left out of it, and laid out from one.
#![tactic(auto)]

mod attributes;
mod handles;
mod host_folder;
mod host_paths;
mod identity;
mod laying;
mod laying_out;
mod left_out;
mod open_folders;
mod patterns;
mod putting;
mod reading;
mod refusals;
mod selection;
mod system_folder;
mod trail;
mod working_directory;

pub use host_folder::HostFolder;
pub use identity::Identity;
pub use laying::Laying;
pub use laying_out::{lay_below, lay_out};
pub use left_out::{LeftOut, Reason, TooBig};
pub use patterns::{Pattern, matches};
pub use reading::{Watching, read_folder};
pub use refusals::{Laid, Refused};
pub use selection::{Selection, is_side_name};
pub use system_folder::Manner;
