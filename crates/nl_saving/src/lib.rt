//! Files of the host: read whole, and written whole without replacing what another program put there.
//!
//! What no other crate calls is public too, where its contract is one that docs/PROOFS.md names: a promise is
//! kept by public contracts alone.
#![tactic(auto)]

mod bounded;
mod extents;
mod files;
mod keeping;
mod leftovers;
mod marked;
mod putting;
mod saving;
mod sides;
mod sparse;
mod standing;
mod streams;

pub use bounded::{FirstBytes, Reach, read_first, read_within};
pub use extents::{Extent, next_extent};
pub use files::{FileFault, open_file, read_all, read_file};
pub use keeping::kept_name;
pub use leftovers::{Leftover, Leftovers, whole_name};
pub use marked::{is_marked, save_marked};
pub use saving::{InUse, SavePlace, Saved};
pub use sides::{SideNames, side_names};
pub use sparse::{SparseFile, write_sparse};
pub use standing::behind_links;
pub use streams::StandIns;
