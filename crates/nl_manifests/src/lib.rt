//! Manifests: the modes, times, owners and symbolic links of a directory, in a file of lines in the form of
//! mtree(5); and the trees of the host that trees of a volume show by them.
#![tactic(auto)]

mod attributes;
mod comparing;
mod fields;
mod host_tree;
mod judging;
pub mod laws;
mod looking;
mod manifest;
mod names;
mod opening;
mod ordered;
mod printing;
mod reading;
mod refusing;
mod sealing;

pub use attributes::{Attributes, Time};
pub use comparing::{HostDifference, host_differences};
pub use host_tree::{HostEntry, HostObject, HostTree, LineFault, Opened};
pub use manifest::{Line, LineKind, Manifest};
pub use opening::open;
pub use printing::printed;
pub use reading::read_manifest;
pub use sealing::{SealError, seal};
