//! Numbers that have ended, in the order of their ends.
ghost use Rattle.std.specs.Prelude.{◌≡◌, ◌⊎◌, ◌+◌, ◌<◌, ◌≤◌, [], ◌∷◌, ◌++◌, nat_le, true, false, length, OnOk, OnErr};
ghost use Rattle.std.specs.List.Sorted.{IsNonDecreasingBy, IsPartitionPoint, IsPermutation};
ghost use Rattle.nl_reclaim.specs.EndLists.{IsRun, blanked, end_at, end_of, noted_ends, swept, with_end};

use nl_types::{CheckpointNumber, VirtualNumber};
use std::alloc::{AllocError, Global};
use std::marker::Model;

/// A number that has ended, and the checkpoint where it did. The number is None where it was let go.
#[derive(Clone, Copy)]
pub struct Ended {
    pub number: Option<VirtualNumber>,
    pub end: CheckpointNumber,
}

/// Numbers that have ended, ascending by their ends. A number that is let go leaves a blank, which keeps its
/// end. Contracts see the list, and for how many more there is room.
#[derive(Drop)]
pub struct Ends {
    ended: Vec<Ended>,
    blanks: usize,
}

impl Model for Ends {
    ghost use Rattle.std.specs.Prelude.{◌-◌, vec_capacity, vec_len};
    ghost use Rattle.nl_reclaim.specs.EndLists.{RoomyEnds};

    ghost Value = { RoomyEnds };

    ghost view = { λ e. record { ended = e.ended.items; room = vec_capacity e.ended - vec_len e.ended } };
}

/// How many ends are not behind a checkpoint, in a list that ascends.
fn reach(ended: &[Ended], bound: CheckpointNumber) -> usize
    requires { IsNonDecreasingBy end_of ended.now }
    ensures bound { result ≤ length ended.now }
    ensures point { IsPartitionPoint (λ e. nat_le (end_of e) bound ≡ true)
        (λ e. nat_le (end_of e) bound ≡ false) ended.now result }
{
    ended.partition_point(|ended| ended.end <= bound)
}

/// The places of the ends behind one checkpoint and not behind another, in a list that ascends.
fn run(ended: &[Ended], first: CheckpointNumber, next: CheckpointNumber) -> (usize, usize)
    requires rising { IsNonDecreasingBy end_of ended.now }
    requires order { first ≤ next }
    ensures { IsRun first next result.0 result.1 ended.now }
{
    (reach(ended, first), reach(ended, next))
}

/// Takes the number from a place.
fn blank(ended: &mut [Ended], index: usize)
    requires { index < length ended.old }
    ensures { ended.new ≡ blanked index ended.old }
{
    ended[index].number = None;
}

impl Ends {
    /// No end. Takes no memory yet.
    pub fn new(alloc: Global) -> Ends
        ensures { result.ended ≡ [] }
    {
        Ends {
            ended: Vec::new(alloc),
            blanks: 0,
        }
    }

    /// Ends in any order, put into the order of a list of ends. Takes no memory.
    pub fn from_found(mut ended: Vec<Ended>) -> Ends
        ensures rising { IsNonDecreasingBy end_of result.ended }
        ensures same { IsPermutation ended.items result.ended }
    {
        ended.sort_unstable_by_key(|ended| ended.end.get());
        Ends { ended, blanks: 0 }
    }

    /// How many places there are, blanks among them.
    pub fn len(&self) -> usize
        ensures { result ≡ length self.now.ended }
    {
        self.ended.len()
    }

    /// Makes room for so many more, and sweeps the blanks out where they are more than half. Refused for
    /// memory alone.
    pub fn reserve(&mut self, count: usize) -> Result<(), AllocError>
        ensures swept { OnOk result
            ((self.new.ended ≡ self.old.ended) ⊎ (self.new.ended ≡ swept self.old.ended)) }
        ensures room { OnOk result (count ≤ self.new.room) }
        ensures same { OnErr result (self.new ≡ self.old) }
    {
        self.ended.reserve(count)?;
        if self.blanks > self.ended.len() / 2 {
            self.sweep();
        }
        Ok(())
    }

    /// Takes the blanks out.
    fn sweep(&mut self)
        ensures swept { self.new.ended ≡ swept self.old.ended }
        ensures room { self.old.room ≤ self.new.room }
    {
        self.ended.retain(|ended| ended.number.is_some());
        self.blanks = 0;
    }

    /// Puts a number behind the others. Takes no memory.
    pub fn add(&mut self, number: VirtualNumber, end: CheckpointNumber)
        requires { 0 < self.old.room }
        ensures ended { self.new.ended ≡ self.old.ended ++ with_end end number ∷ [] }
        ensures room { self.new.room + 1 ≡ self.old.room }
    {
        self.ended.push_reserved(Ended {
            number: Some(number),
            end,
        });
    }

    /// Puts numbers behind the others that end at the same checkpoint. Takes no memory.
    pub fn note(&mut self, numbers: &[VirtualNumber], end: CheckpointNumber)
        requires { length numbers.now ≤ self.old.room }
        ensures ended { self.new.ended ≡ self.old.ended ++ noted_ends end numbers.now }
        ensures room { self.new.room + length numbers.now ≡ self.old.room }
    {
        for number in numbers {
            self.add(*number, end);
        }
    }

    /// The number at a place, where it was not let go.
    pub fn number(&self, index: usize) -> Option<VirtualNumber>
        ensures { result ≡ (end_at self.now.ended index).number }
    {
        match self.ended.get(index) {
            Some(ended) => ended.number,
            None => None,
        }
    }

    /// Lets the number at a place go.
    pub fn blank(&mut self, index: usize)
        requires { index < length self.old.ended }
        ensures { self.new ≡ record self.old { ended = blanked index self.old.ended } }
    {
        blank(&mut self.ended, index);
        self.blanks = self.blanks.saturating_add(1);
    }

    /// The places of the ends behind one checkpoint and not behind another: from the first place on, and
    /// below the second. It halves the list twice.
    pub fn run(&self, first: CheckpointNumber, next: CheckpointNumber) -> (usize, usize)
        requires rising { IsNonDecreasingBy end_of self.now.ended }
        requires order { first ≤ next }
        ensures { IsRun first next result.0 result.1 self.now.ended }
    {
        run(&self.ended, first, next)
    }
}
