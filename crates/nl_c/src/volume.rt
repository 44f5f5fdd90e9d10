//! The handle that a caller holds: it leads to a volume, or to nothing.
ghost use Rattle.std.specs.Prelude.{◌≡◌, None, Some, is_some, MatchOption};

use crate::held::Held;
use crate::parts::Parts;
use crate::place::Place;
use std::alloc::Global;
use std::mem::replace;

/// All bytes of it are zero where nothing is open, which is how C begins one.
#[repr(C)]
#[derive(Drop)]
pub struct Volume {
    pub(crate) place: Place,
    pub(crate) is_open: bool,
    ghost agrees: { is_open ≡ is_some place.held },
}

impl Volume {
    pub(crate) fn opened(held: Box<Held>) -> Volume
        ensures { result.place.held ≡ Some held.value }
    {
        Volume {
            place: Place::of_parts(Parts::of(held)),
            is_open: true,
        }
    }

    pub(crate) fn into_held(self) -> Option<Box<Held>>
        ensures { MatchOption result (self.place.held ≡ None) (λ held. self.place.held ≡ Some held.value) }
    {
        let Volume { place, is_open } = self;
        if is_open {
            Some(place.into_parts().into_box())
        } else {
            None
        }
    }

    /// Takes out what it leads to.
    pub(crate) fn take(&mut self, alloc: Global) -> Option<Box<Held>>
        ensures was { MatchOption result (self.old.place.held ≡ None)
            (λ held. self.old.place.held ≡ Some held.value) }
        ensures closed { self.new.place.held ≡ None }
    {
        let closed = Volume {
            place: Place::closed(alloc),
            is_open: false,
        };
        replace(self, closed).into_held()
    }

    /// Puts it there again. What it led to before is not freed.
    pub(crate) fn put(&mut self, held: Box<Held>)
        requires { self.old.place.held ≡ None }
        ensures { self.new.place.held ≡ Some held.value }
    {
        *self = Volume::opened(held);
    }
}
