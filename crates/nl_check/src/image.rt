//! The image whose checkpoints are judged.

use crate::turns::Turn;
use nl_vstore::VRead;
use std::alloc::Global;

/// What all checkpoints of an image are judged by: its pages and periods, and where these turn.
#[derive(Drop)]
pub(crate) struct Image<'a, V: VRead> {
    pub(crate) alloc: Global,
    pub(crate) store: &'a V,
    /// The turns of all periods, by their checkpoints.
    pub(crate) turns: &'a [Turn],
}
