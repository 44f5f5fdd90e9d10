//! The commands that keep folders of a host in an image, with their history: from the host before to the host
//! after.
#![tactic(auto)]

mod asking;
mod backing_up;
mod checking;
mod forgetting;
mod hosts;
pub mod laws;
mod making;
mod memory;
mod pinning;
mod pruning;
mod reading;
mod refusals;
mod rescuing;
mod restoring;
mod reverting;
mod storing;
mod summed;

pub use backing_up::backup;
pub use checking::{Checked, Verdict, check, judge};
pub use forgetting::{Forgotten, forget};
pub use hosts::{Asker, HostFault, Listener, Place, Reviewer, Source, Target};
pub use making::init;
pub use memory::{GivenFolder, LaidOut, MemoryPlace, Nobody, there_and_back};
pub use pinning::{PinChange, PinWish, Pinned, pin};
pub use pruning::{Pruned, prune, prune_image};
pub use refusals::Refusal;
pub use rescuing::{Rescued, rescue_checkpoint};
pub use restoring::restore;
pub use reverting::{Reverted, revert};
pub use storing::{BackedUp, Terms, store_in};
pub use summed::{Beside, MemorySum, SumFile, SumPlace, beside_sum};
