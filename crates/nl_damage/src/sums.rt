//! Sums of images: digests of an image and of each of its segments, in a text that stands beside it.

mod comparing;
mod digests;
mod fields;
mod printing;
mod reading;
mod sum;

pub use comparing::{Comparison, compare_text};
pub use digests::Digest;
pub use printing::printed;
pub use reading::read_sum;
pub use sum::{Kept, Save, Sum};
