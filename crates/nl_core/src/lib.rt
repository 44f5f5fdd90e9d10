//! The pen: a volume's current tree, checkpoints and mounts over a device, one event at a time.
#![tactic(auto)]

mod closing;
mod image;
pub mod laws;
mod noting_pen;
mod pen;

pub use image::open;
pub use nl_commit::{Commit, Mounted, Mounts, NewPage, NotingPen, ShownPage, Whole, Written};
pub use nl_cpfile::Cpstat;
pub use nl_events::Room;
pub use nl_image::geometry_of;
pub use pen::{Pen, run};
