//! What is published. It is generic in nothing: `protocol` ties the id of its volume to its book, seat by seat.
ghost use Rattle.std.specs.Prelude.{◌≡◌, [], ◌∷◌, IfOk};
ghost use Rattle.nl_commit.specs.Commits.{shown_after};
ghost use Rattle.nl_publish.specs.States.{IsWhole};
ghost use Rattle.nl_commit.specs.Shown.{MountsRise};

use crate::history::Front;
use crate::protocol::{SeenHistory, Volumes};
use crate::tables::ReaderTables;
use left_right::Absorb;
use nl_commit::Commit;
use std::alloc::{AllocError, Global};

/// What readers see, and the history that made it, which has so many commits.
#[derive(Drop)]
pub struct ReaderState {
    pub tables: ReaderTables,
    pub count: u64,
    pub seen: SeenHistory,
}

impl ReaderState {
    /// The state that the first commit makes.
    pub fn first<J: Volumes>(
        alloc: Global,
        commit: &Commit,
        front: &Front<J>,
    ) -> Result<ReaderState, AllocError>
        requires first { front.now.commits ≡ commit.now ∷ [] }
        requires mounts { MountsRise (shown_after front.now.commits) }
        ensures whole { IfOk result IsWhole }
        ensures log { IfOk result (λ state. state.seen.log ≡ front.now.commits) }
        ensures book { IfOk result (λ state. state.seen.book ≡ J.book front.now.volume) }
    {
        let seen = front.token();
        let tables = ReaderTables::first(alloc, commit)?;
        Ok(ReaderState {
            tables,
            count: front.len(),
            seen,
        })
    }

    /// The other copy of a first state.
    pub fn again(&self, alloc: Global, commit: &Commit) -> Result<ReaderState, AllocError>
        requires whole { IsWhole self.now }
        requires first { self.now.seen.log ≡ commit.now ∷ [] }
        ensures { IfOk result (λ state. state ≡ self.now) }
    {
        self.tables.mounts_rise();
        let tables = ReaderTables::first(alloc, commit)?;
        Ok(ReaderState {
            tables,
            count: self.count,
            seen: self.seen.again(),
        })
    }
}

/// A commit, and the history that ends with it.
#[derive(Drop)]
pub struct Entry {
    pub commit: Commit,
    pub count: u64,
    pub seen: SeenHistory,
}

impl Absorb<Entry> for ReaderState {
    ghost use Rattle.nl_publish.specs.States.{absorbed};

    type State = ReaderState;

    ghost state = { λ i. i };

    ghost applied = { absorbed };

    fn absorb_first(&mut self, operation: &Entry, _other: &ReaderState) -> Result<(), AllocError> {
        // Entries that are shown go on as their history does, so memory alone refuses one.
        self.tables
            .apply(&operation.commit)
            .map_err(|_| AllocError)?;
        self.count = operation.count;
        self.seen = operation.seen.again();
        Ok(())
    }
}
