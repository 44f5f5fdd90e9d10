//! The rule by which a reader knows what it reads, and the marks that tell the kit of it.
//!
//! **The rule.** The history of a volume is a list of commits that only grows. Readers see a state, and its
//! tables are what a beginning of the history makes. Of the history nothing is in memory but its length, one
//! atomic word: the commits are in proofs alone, in a book (`logbook`). So whoever knows of which book a state
//! is, and which beginning of it made the state, knows what the state shows.
//!
//! ```text
//!   the writer, under the lock                          readers, beside it
//!
//!   HistoryLog  the word with the length
//!     |
//!     | 1. add
//!     v
//!   Front   how much is noted                           Front   how much was seen
//!     |                                                   ^
//!     | 2. hand over                                      | the longer of the two
//!     v                                                   |
//!   Entry   a commit, and the history that ends with it   |
//!     |                                                   |
//!     | 3. show                                           |
//!     v                                                   |
//!   ReaderState  a copy that no reader sees  <-- swap -->  ReaderState  the copy that readers see
//! ```
//!
//! **The three steps**, each of which keeps what is said here:
//!
//! 1. *Add.* `Front::add` raises the word by one where it is still the front's length. In this very step the
//!    book gets the commit (`AddCommit`), by its rule (`HistoryRule`): the word is the length.
//! 2. *Hand over.* The commit goes to the press as an `Entry`, with the history that ends with it.
//! 3. *Show.* The press applies the entries to the copy that no reader sees, and swaps the two. It waits for
//!    readers who are still in the older one. Each copy that can be seen keeps the rule of states (`StateRule`):
//!    it is what its own history makes.
//!
//! **Who holds which token, and why.** Tokens have no bytes.
//!
//! - The word is the writer's, in its `HistoryLog`. It is the only way to add to the book.
//! - Fronts, entries and states have a `SeenHistory`: the book has had this beginning. It may be copied, and it
//!   stays true, since a book only grows. Of two beginnings of one book the shorter begins the longer, so two
//!   lengths tell which is which (`Front::covers`).
//! - The writer and each reader have a seat at the state, and what a seat knows is a `BookName`. It is there
//!   because the type of a state doesn't say of which book it is: who knows the book sees states of this one
//!   alone (`SeeState`). The writer learns it by its first publication (`LearnBook`), and each reader is told it
//!   by the writer before anything else (`NoteBook`).
//!
//! Which book is that of a volume's id is said by `Volumes`. The rules are defined in `specs/Rules.antt` and
//! `specs/States.antt`.
ghost use Rattle.std.specs.Prelude.{◌≡◌, ◌==◌, ◌<◌, ◌^◌, ◌++◌, ◌∷◌, [], length, MatchBool};
ghost use Rattle.nl_publish.specs.Histories.{IsBegun};
ghost use Rattle.nl_publish.specs.Rules.{head_of};

use crate::reader_state::{Entry, ReaderState};
use atomic_table::{Join, Split};
use crossbeam_utils::rule::{Outcome, Protocol};
use left_right::reader::{Reader, Reading};
use left_right::writer::Writer;
use logbook::{Gain, Offer, Plain, Play, Rule, Seen, Start, Word};
use nl_commit::Commit;
use std::marker::Brand;

// ---- the book of a history

/// Which book keeps the history of the volume with an id. No two volumes have one id.
pub trait Volumes {
    ghost use Rattle.std.specs.Prelude.{ℕ};
    ghost use Rattle.logbook.specs.Pages.{Book};

    ghost book: { ℕ → Book };
}

impl Volumes for Brand {
    ghost book = { λ id. record { number = 0; log_name = 0; cells_name = 0 } };
}

/// The rule of a book: it has a history, or nothing of it yet, and its word is the length.
pub struct HistoryRule;

impl Rule<Commit, u64> for HistoryRule {
    ghost use Rattle.std.specs.Prelude.{[]};
    ghost use base.Fml.{ftrue};
    ghost use Rattle.nl_publish.specs.Rules.{IsRecorded};

    ghost holds = { λ cells log. IsRecorded cells log };

    ghost first = { [] };

    ghost hinted = { λ n log. Unit {0} };

    ghost shows = { λ log. [] };

    ghost keeps = { λ names log. ftrue };

    ghost moves = { λ ask before after answer. Unit {0} };
}

/// The word of a book, by which it grows.
pub(crate) type HistoryWord = Word<Commit, u64, HistoryRule>;

/// That a book has had this beginning.
pub type SeenHistory = Seen<Commit, u64, HistoryRule>;

/// A new book, which has nothing, by its word.
pub(crate) fn open_book() -> (HistoryWord, SeenHistory)
    ensures head { result.0 ≡ head_of result.1.book }
    ensures empty { result.1.log ≡ [] }
{
    let (seen, mut first, _second) = Seen::open(Start::alone(), 0, 0);
    (Word::tracked(0, &mut first), seen)
}

/// The step that adds a commit to a book.
pub struct AddCommit;

impl Play<Commit, u64> for AddCommit {
    ghost use Rattle.nl_publish.specs.Rules.{Adds};

    ghost then = { Adds };
}

impl Plain<Commit, Commit, u64> for AddCommit {
    ghost use Rattle.std.specs.Prelude.{None};

    ghost ask = { λ commit. commit };

    ghost state = { λ commit. None };
}

/// Who adds a commit trades nothing for it.
pub struct NoGain;

impl Gain<Commit, u64> for NoGain {
    ghost use base.Fml.{ftrue};

    ghost after = { λ names about answer. ftrue };
}

/// Adds a commit to all that was seen, which has so many, and answers what the word was. Where it was not so
/// many, the history is longer: it is seen then, and nothing is added.
pub(crate) fn add_commit(
    head: &HistoryWord,
    seen: &mut SeenHistory,
    count: u64,
    commit: &Commit,
) -> u64
    requires head { head.now ≡ head_of seen.old.book }
    requires count { count ≡ length seen.old.log }
    requires room { count < 2 ^ 62 }
    requires begun { IsBegun (seen.old.log ++ commit.now ∷ []) }
    ensures book { seen.new.book ≡ seen.old.book }
    ensures begun { IsBegun seen.new.log }
    ensures added { MatchBool (result == count) (seen.new.log ≡ seen.old.log ++ commit.now ∷ [])
        (length seen.new.log ≡ result) }
{
    let mut offer: Offer<Commit, u64, HistoryRule, NoGain> = seen.plain::<
        NoGain,
        Commit,
        AddCommit,
    >(commit);
    let mut pen = seen.no_pen();
    head.compare_exchange::<AddCommit, NoGain>(count, count + 1, seen, &mut offer, &mut pen)
}

// ---- the two copies of a state

/// What a seat knows of the book: nothing, or which one it is. No value of it is made.
pub type BookName = [u64; 0];

/// The rule of a state: it is what its history makes, which is legal, and each seat knows nothing, or the
/// state's book.
pub struct StateRule;

impl Protocol<ReaderState, BookName> for StateRule {
    ghost use Rattle.std.specs.Prelude.{[]};
    ghost use Rattle.nl_publish.specs.States.{Kept};

    ghost holds = { Kept };

    ghost first = { [] };
}

/// A look at the state, or a publication.
pub struct SeeState;

impl Outcome<ReaderState, BookName> for SeeState {
    ghost use Rattle.nl_publish.specs.States.{Looks};

    ghost then = { Looks };
}

/// The first publication, by which the writer learns the book.
pub struct LearnBook;

impl Outcome<ReaderState, BookName> for LearnBook {
    ghost use Rattle.nl_publish.specs.States.{Learns};

    ghost then = { Learns };
}

/// A note of the book, which a seat that knows it gives to one that doesn't.
pub struct NoteBook;

impl Split<BookName> for NoteBook {
    ghost left = { λ v. v };

    ghost right = { λ v. v };
}

impl Join<BookName> for NoteBook {
    ghost use Rattle.std.specs.Prelude.{[]};

    ghost both = { λ v w. w };

    ghost spent = { [] };
}

/// The writer of the two copies.
pub(crate) type StateWriter = Writer<ReaderState, Entry, BookName, StateRule>;

/// A reader outside of the state.
pub type StateReader = Reader<ReaderState, BookName, StateRule>;

/// A reader inside of the state.
pub type StateReading = Reading<ReaderState, BookName, StateRule>;
