//! The checkpoints before the latest one, in memory.
ghost use Rattle.std.specs.Prelude.{◌≡◌, ◌<◌, ◌+◌, ◌≤◌, [], ◌∷◌, ◌++◌, drop, length, slice_set, vec_capacity, OnErr, OnOk};
ghost use Rattle.std.specs.Fn.{CalledAt};
ghost use Rattle.std.specs.List.{remove};
ghost use Rattle.std.specs.List.Retain.{IsFiltered};

use crate::checkpoint::Checkpoint;
use std::alloc::{AllocError, Global};
use std::marker::Model;

/// Checkpoints in a list whose first places may be out of use, so that one near the front leaves without a
/// move of all that stand behind it. Contracts see those in use, and for how many more there is room.
#[derive(Drop)]
pub(crate) struct Earlier {
    places: Vec<Checkpoint>,
    /// How many places in front are out of use.
    gone: usize,
}

impl Model for Earlier {
    ghost use Rattle.std.specs.Prelude.{◌-◌, ◌≤◌, drop, length, vec_capacity, vec_len};
    ghost use Rattle.nl_cpfile.specs.Tables.{RoomyList};

    ghost Value = { RoomyList };

    ghost view = { λ e. record {
      items = drop e.gone e.places.items;
      room = vec_capacity e.places - vec_len e.places;
    } };

    ghost invariant = { λ e. e.gone ≤ length e.places.items };
}

impl Earlier {
    /// None. Takes no memory yet.
    pub(crate) fn new(alloc: Global) -> Self
        ensures { result.items ≡ [] }
    {
        Earlier::from_vec(Vec::new(alloc))
    }

    /// Takes no memory.
    pub(crate) fn from_vec(places: Vec<Checkpoint>) -> Self
        ensures { result.items ≡ places.items }
    {
        Earlier { places, gone: 0 }
    }

    pub(crate) fn as_slice(&self) -> &[Checkpoint]
        ensures value { result.now ≡ self.now.items }
    {
        &self.places[self.gone..]
    }

    /// Puts a checkpoint in the place of another.
    pub(crate) fn set(&mut self, index: usize, checkpoint: Checkpoint)
        requires { index < length self.old.items }
        ensures { self.new ≡ record self.old { items = slice_set self.old.items index checkpoint } }
    {
        self.places[self.gone + index] = checkpoint;
    }

    /// Makes room for one more. Refused for memory alone. Where more than half of the places are out of use,
    /// the others move to the front and the list doesn't grow, so that adding takes constant time on average.
    pub(crate) fn reserve(&mut self) -> Result<(), AllocError>
        ensures items { self.new.items ≡ self.old.items }
        ensures room { OnOk result (0 < self.new.room) }
        ensures same { OnErr result (self.new ≡ self.old) }
    {
        let len = self.places.len();
        if len == self.places.capacity() && len - self.gone < self.gone {
            take_out_first(&mut self.places, self.gone);
            self.gone = 0;
            return Ok(());
        }
        self.places.reserve(1)
    }

    /// Takes no memory.
    pub(crate) fn push(&mut self, checkpoint: Checkpoint)
        requires { 0 < self.old.room }
        ensures items { self.new.items ≡ self.old.items ++ checkpoint ∷ [] }
        ensures room { self.new.room + 1 ≡ self.old.room }
    {
        // The root is named, since the proof of a push has to know its type.
        self.places.push_reserved(Checkpoint {
            root: checkpoint.root,
            ..checkpoint
        });
    }

    /// Takes one out, and moves those before it or those behind it, whichever are fewer. Takes no memory.
    pub(crate) fn remove(&mut self, index: usize)
        requires { index < length self.old.items }
        ensures items { self.new.items ≡ remove self.old.items index }
        ensures room { self.old.room ≤ self.new.room }
    {
        let rest = self.places.len() - self.gone - index;
        let place = self.gone + index;
        if index < rest {
            self.places.copy_within(self.gone..place, self.gone + 1);
            self.gone += 1;
        } else {
            self.places.remove(place);
        }
    }

    /// Keeps those at which the test is true, and no place stays out of use. Takes no memory.
    pub(crate) fn retain<F: FnMut(&Checkpoint) -> bool>(&mut self, stays: F)
        requires { F.IsAlwaysCallable stays }
        ensures filtered { IsFiltered (CalledAt F.FnMut) stays self.old.items self.new.items }
        ensures room { self.old.room ≤ self.new.room }
    {
        take_out_first(&mut self.places, self.gone);
        self.gone = 0;
        self.places.retain(stays);
    }

    /// Takes no memory.
    pub(crate) fn clear(&mut self)
        ensures items { self.new.items ≡ [] }
        ensures room { self.old.room ≤ self.new.room }
    {
        self.places.clear();
        self.gone = 0;
    }
}

/// Takes the first places out and moves the others to the front. Takes no memory.
fn take_out_first(places: &mut Vec<Checkpoint>, count: usize)
    requires { count ≤ length places.old.items }
    ensures items { places.new.items ≡ drop count places.old.items }
    ensures capacity { vec_capacity places.new ≡ vec_capacity places.old }
{
    if count == 0 {
        return;
    }
    let kept = places.len() - count;
    places.copy_within(count.., 0);
    places.truncate(kept);
}
