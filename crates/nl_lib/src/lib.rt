//! Calls on a volume that one program has: what is told of its checkpoints, segments and blocks, changes of
//! its checkpoints and of its size, and calls on its files.
//!
//! Most calls after libnilfs have its names without the prefix. What that library leaves to the kernel
//! (files, checkpoints that are asked for, listings and ranges of these) has the names of the calls of a
//! shared volume, `nl_mounts::Shared`. Calls `get_..` are answered from what the pen holds in memory. The
//! others are events of the pen, so what `nl_core` says of events holds of them. A round of cleaning does its
//! events on a pen by itself: `nl_cleaner::Job::step`.
#![tactic(auto)]

mod asks;
mod changes;
mod cleaning;
mod files;
mod views;

pub use asks::{list, listing, read, stat};
pub use changes::{
    change_cpmode, checkpoint, delete_checkpoint, remove_checkpoints, resize, snapshot, sync,
};
pub use cleaning::{Cleaned, clean_segments};
pub use files::{create, mkdir, remove, rename, rmdir, truncate, write};
pub use views::{
    get_bdescs, get_cpinfo, get_cpstat, get_needed, get_suinfo, get_sustat, get_vinfo,
};
