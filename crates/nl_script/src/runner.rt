//! What runs the lines of a script.
use crate::readers::Readers;
use nl_protect::Config;
use std::alloc::Global;

/// What the lines of a script are run by, one after another.
pub struct Runner<'a, V, P, R> {
    /// Where they take memory.
    pub alloc: Global,
    /// What they change and ask.
    pub volume: V,
    /// What reads files of the volume's mounts.
    pub readers: Readers<'a, P, R>,
    /// What rounds of cleaning go by.
    pub config: Config,
}
