//! What a pen holds and what readers see of it: its definitions, the commits by which an event changes what is
//! seen, the table of mounts, what a volume that is shared needs of its pen, and what others need of a round of
//! cleaning.
#![tactic(auto)]

mod commit;
mod draft;
mod ending;
mod mounts;
mod noting_pen;
mod round;

pub use commit::{Commit, NewPage, ShownPage, Whole, Written};
pub use draft::Draft;
pub use ending::ends_round;
pub use mounts::{Mounted, Mounts};
pub use noting_pen::NotingPen;
pub use round::Round;
