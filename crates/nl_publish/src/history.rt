//! The published history of a volume, which exists in proofs alone, and the beginnings of it that were seen.
//! A book keeps it: in memory there is its length, one atomic word.
ghost use Rattle.std.specs.Prelude.{◌≡◌, ◌≢◌, ◌<◌, ◌++◌, ◌∷◌, ◌⊎◌, [], length, IfNone, IfSome, MatchBool, OnSome};
ghost use mathlib.Core.List.{IsPrefix};
ghost use Rattle.nl_publish.specs.Histories.{IsBegun, IsFull, Known};
ghost use Rattle.nl_publish.specs.Refusals.{HasRefused};
ghost use Rattle.nl_publish.specs.Rules.{head_of};
ghost use Rattle.nl_publish.specs.States.{IsWhole};

use crate::press::count_refusal;
use crate::protocol::{HistoryWord, SeenHistory, Volumes, add_commit, open_book};
use crate::reader_state::ReaderState;
use nl_commit::Commit;
use std::marker::{Model, PhantomData};

/// A history has no more commits. The word counts up to it.
const MOST: u64 = 1 << 62;

/// An id with an empty history, which no volume has yet.
#[derive(Drop)]
pub struct Opened {
    id: u64,
    head: HistoryWord,
    seen: SeenHistory,
    pub ghost empty: { seen.log ≡ [] },
    pub ghost head_is: { head ≡ head_of seen.book },
}

impl Opened {
    /// The caller gives each volume its own id.
    pub fn new(id: u64) -> Opened
        ensures { result.id ≡ id }
    {
        let (head, seen) = open_book();
        Opened { id, head, seen }
    }

    /// The right to add to the history, and the beginning that has nothing.
    pub fn named<J: Volumes>(self) -> (HistoryLog<J>, Front<J>)
        requires { self.seen.book ≡ J.book self.id }
        ensures adding { result.0 ≡ record { volume = self.id; refusals = 0 } }
        ensures front { result.1 ≡ record { volume = self.id; commits = [] } }
    {
        let Opened { id, head, seen } = self;
        let log = HistoryLog {
            volume: id,
            refusals: 0,
            head,
            of: PhantomData,
        };
        let front = Front {
            volume: id,
            count: 0,
            seen,
            of: PhantomData,
        };
        (log, front)
    }
}

/// What adds to a volume's history: the word with its length. It counts what it refuses.
#[derive(Drop)]
pub struct HistoryLog<J: Volumes> {
    volume: u64,
    refusals: u64,
    head: HistoryWord,
    of: PhantomData<J>,
}

impl<J: Volumes> Model for HistoryLog<J> {
    ghost use Rattle.std.specs.Prelude.{◌≡◌};
    ghost use Rattle.nl_publish.specs.Histories.{Adding};
    ghost use Rattle.nl_publish.specs.Rules.{head_of};

    ghost Value = { Adding };

    ghost view = { λ r. record { volume = r.volume; refusals = r.refusals } };

    ghost invariant = { λ r. r.head ≡ head_of (J.book r.volume) };
}

impl<J: Volumes> HistoryLog<J> {
    /// Counts that a commit wasn't added.
    fn refuse(&mut self)
        ensures volume { self.new.volume ≡ self.old.volume }
        ensures refused { HasRefused self.old.refusals self.new.refusals }
    {
        self.refusals = count_refusal(self.refusals);
    }
}

/// A beginning of a volume's history that was seen. It keeps its length alone.
#[derive(Drop)]
pub struct Front<J: Volumes> {
    volume: u64,
    count: u64,
    seen: SeenHistory,
    of: PhantomData<J>,
}

impl<J: Volumes> Model for Front<J> {
    ghost use Rattle.std.specs.Prelude.{◌≡◌, List, length};
    ghost use Rattle.nl_publish.specs.Histories.{Known, IsBegun};

    ghost Value = { Known };

    ghost view = { λ f. record { volume = f.volume; commits = f.seen.log } };

    ghost invariant = { λ f. (f.count ≡ length f.seen.log)
        × (f.seen.book ≡ J.book f.volume) × IsBegun f.seen.log };
}

impl<J: Volumes> Front<J> {
    /// The history that made a state of the volume's book.
    pub fn of(state: &ReaderState, volume: u64) -> Front<J>
        requires book { state.now.seen.book ≡ J.book volume }
        requires whole { IsWhole state.now }
        ensures { result ≡ record { volume = volume; commits = state.now.seen.log } }
    {
        Front {
            volume,
            count: state.count,
            seen: state.seen.again(),
            of: PhantomData,
        }
    }

    /// The id of the volume.
    pub fn volume(&self) -> u64
        ensures volume { result ≡ self.now.volume }
        ensures begun { IsBegun self.now.commits }
    {
        self.volume
    }

    /// How many commits it has.
    pub fn len(&self) -> u64
        ensures { result ≡ length self.now.commits }
    {
        self.count
    }

    /// What was seen, as a token.
    pub fn token(&self) -> SeenHistory
        ensures log { result.log ≡ self.now.commits }
        ensures book { result.book ≡ J.book self.now.volume }
        ensures begun { IsBegun self.now.commits }
    {
        self.seen.again()
    }

    /// A copy. It takes no memory.
    pub fn again(&self) -> Front<J>
        ensures { result ≡ self.now }
    {
        Front {
            volume: self.volume,
            count: self.count,
            seen: self.seen.again(),
            of: PhantomData,
        }
    }

    /// Whether the other one begins this one. Else it is longer, and this one begins it.
    pub fn covers(&self, other: &Front<J>) -> bool
        requires { other.now.volume ≡ self.now.volume }
        ensures { MatchBool result (IsPrefix other.now.commits self.now.commits)
            (IsPrefix self.now.commits other.now.commits
            × (length self.now.commits < length other.now.commits)) }
    {
        let mut both = self.seen.again();
        both.learn(&other.seen);
        other.count <= self.count
    }

    /// Adds a commit to all that was seen, and says whether it did.
    fn append(&mut self, log: &HistoryLog<J>, commit: &Commit) -> bool
        requires volume { log.now.volume ≡ self.old.volume }
        requires begun { IsBegun (self.old.commits ++ commit.now ∷ []) }
        ensures volume { self.new.volume ≡ self.old.volume }
        ensures added { MatchBool result (self.new.commits ≡ self.old.commits ++ commit.now ∷ [])
            (IsFull self.old.commits ⊎ (length self.new.commits ≢ length self.old.commits)) }
    {
        let count = self.count;
        if count >= MOST {
            return false;
        }
        let found = add_commit(&log.head, &mut self.seen, count, commit);
        self.count = if found == count { count + 1 } else { found };
        found == count
    }

    /// Adds a commit to all that was seen, and says whether it did. It did not where the history is longer
    /// than what was seen, or as long as one can be, which is counted.
    pub fn add(&mut self, log: &mut HistoryLog<J>, commit: &Commit) -> bool
        requires volume { log.old.volume ≡ self.old.volume }
        requires begun { IsBegun (self.old.commits ++ commit.now ∷ []) }
        ensures volume { self.new.volume ≡ self.old.volume }
        ensures added { MatchBool result (self.new.commits ≡ self.old.commits ++ commit.now ∷ [])
            (IsFull self.old.commits ⊎ (length self.new.commits ≢ length self.old.commits)) }
        ensures own { log.new.volume ≡ log.old.volume }
        ensures counted { MatchBool result (log.new ≡ log.old)
            (HasRefused log.old.refusals log.new.refusals) }
    {
        if self.append(log, commit) {
            return true;
        }
        log.refuse();
        false
    }

    /// A copy with a commit added, where `add` adds it.
    pub(crate) fn with_commit(&self, log: &mut HistoryLog<J>, commit: &Commit) -> Option<Front<J>>
        requires volume { log.old.volume ≡ self.now.volume }
        requires begun { IsBegun (self.now.commits ++ commit.now ∷ []) }
        ensures volume { IfSome result (λ longer. longer.volume ≡ self.now.volume) }
        ensures added { IfSome result (λ longer. longer.commits ≡ self.now.commits ++ commit.now ∷ []) }
        ensures own { log.new.volume ≡ log.old.volume }
        ensures same { OnSome result (log.new ≡ log.old) }
        ensures refused { IfNone result (HasRefused log.old.refusals log.new.refusals) }
    {
        let mut longer = self.again();
        if !longer.add(log, commit) {
            return None;
        }
        Some(longer)
    }
}
