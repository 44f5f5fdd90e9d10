//! Pages under virtual block numbers, as the layers above know them: each number names a page, wherever the
//! page is moved, and a period of checkpoints. Below it, the trait of what appends pages to segments.
#![tactic(auto)]

mod batch;
mod images;
pub mod laws;
mod payload;
mod space;
mod store;

pub use batch::Batch;
pub use images::{dump, is_rest_zero};
pub use payload::Payload;
pub use space::Space;
pub use store::{VRead, Vstore, next_number};
