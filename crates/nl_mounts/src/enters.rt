//! What a port needs of its reader, whatever shows states.
ghost use Rattle.std.specs.Prelude.{◌≡◌, None, Some, MatchResult};
ghost use Rattle.nl_publish.specs.States.{Looks};

use nl_publish::{ReaderState, SeeState, StateReader, StateReading};

/// A reader's seat where states are published.
pub trait Enters: Drop {
    ghost use Rattle.std.specs.Prelude.{ℕ, List, Option};
    ghost use Rattle.nl_publish.specs.declared.reader_state.ReaderState.{ReaderState};

    /// The seat while its reader is inside a state.
    type Inside;

    /// The state that it may be given, or none.
    ghost gives: { Self → Option ReaderState → Type 0 };

    /// Which book it knows its states to be of.
    ghost names: { Self → List ℕ };

    ghost names_inside: { Self.Inside → List ℕ };

    ghost shown: { Self.Inside → ReaderState };

    /// Enters the state that is published. Where it is given none, it comes back. It takes no memory, and
    /// never waits.
    fn enter(self) -> Result<Self::Inside, Self>
        ensures { MatchResult result
            (λ i. Looks (names self) (shown i) (shown i) (names_inside i) × gives self (Some (shown i)))
            (λ r. (names r ≡ names self) × gives self None) };

    /// The state that it is inside of.
    fn state(inside: &Self::Inside) -> &ReaderState
        ensures { result.now ≡ shown inside.now };

    /// Leaves the state.
    fn leave(inside: Self::Inside) -> Self
        ensures { names result ≡ names_inside inside };
}

impl Enters for StateReader {
    ghost use Rattle.nl_publish.specs.Seats.{known_to};

    type Inside = StateReading;

    // Nothing is known of which state a reader is given, or whether it is given one.
    ghost gives = { λ r i. Unit {0} };

    ghost names = { λ r. known_to r.place };

    ghost names_inside = { λ r. known_to r.place };

    ghost shown = { λ r. r.part.value };

    fn enter(self) -> Result<Self::Inside, Self> {
        self.enter_as::<SeeState>()
    }

    fn state(inside: &Self::Inside) -> &ReaderState {
        inside.get()
    }

    fn leave(inside: Self::Inside) -> Self {
        inside.leave()
    }
}
