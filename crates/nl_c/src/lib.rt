//! The library for callers of C: a handle, and calls on the volume that it leads to. Each export is one event of
//! that volume, or one look at it, and tells a status. `bindings/c/nlvol.h` is its header.
#![tactic(auto)]

mod answers;
mod calls;
mod changing;
mod checkpoints;
mod configuration;
mod copying;
mod held;
mod manifests;
mod opening;
mod parts;
mod place;
mod reading;
mod room;
mod saving;
mod segments;
mod status;
mod volume;
