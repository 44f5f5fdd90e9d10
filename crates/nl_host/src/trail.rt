//! The way from a folder of the host down to one below it.
ghost use Rattle.std.specs.Prelude.{◌≡◌, ◌++◌, ◌<◌, ◌∷◌, [], OnOk, string_bytes, vec_capacity, vec_len};
ghost use Rattle.nl_host.specs.Trails.{but_last, names, ours};

use crate::identity::Identity;
use std::alloc::AllocError;

/// A folder below the first one.
#[derive(Drop)]
pub(crate) struct Step {
    pub(crate) name: String,
    pub(crate) identity: Identity,
}

/// Folders from a first one down, each of them in the one before. The last one is ours.
#[derive(Drop)]
pub(crate) struct Trail<'a> {
    /// The first one's path.
    pub(crate) root: &'a str,
    pub(crate) first: Identity,
    /// Those below the first one.
    pub(crate) steps: Vec<Step>,
}

impl Trail<'_> {
    /// What tells our folder from others.
    pub(crate) fn ours(&self) -> Identity
        ensures { result ≡ ours self.now }
    {
        match self.steps.last() {
            Some(step) => step.identity,
            None => self.first,
        }
    }

    /// Sees to it that there is memory for one more.
    pub(crate) fn reserve(&mut self) -> Result<(), AllocError>
        ensures names { names self.new ≡ names self.old }
        ensures room { OnOk result (vec_len self.new.steps < vec_capacity self.new.steps) }
    {
        self.steps.reserve(1)
    }

    /// Goes down to a folder in ours.
    pub(crate) fn push(&mut self, step: Step)
        requires { vec_len self.old.steps < vec_capacity self.old.steps }
        ensures { names self.new ≡ names self.old ++ string_bytes step.name ∷ [] }
    {
        self.steps.push_reserved(step);
    }

    /// Goes up to the one above ours. From the first one it goes nowhere.
    pub(crate) fn pop(&mut self)
        ensures { names self.new ≡ but_last (names self.old) }
    {
        drop(self.steps.pop());
    }
}
