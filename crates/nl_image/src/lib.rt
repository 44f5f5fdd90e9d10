//! Images: the bytes of a volume that is closed, and who judges them.
#![tactic(auto)]

mod geometry;
pub mod laws;
mod logs;
mod pages;
mod reading;
mod sections;
mod tables;
mod writing;

pub use geometry::geometry_of;
pub use reading::{ReadImage, read_image};
pub use writing::write_image;
