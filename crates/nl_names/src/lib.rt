//! Names in directories, which the paths that they stand in share.
#![tactic(auto)]

mod name;

pub use name::Name;
