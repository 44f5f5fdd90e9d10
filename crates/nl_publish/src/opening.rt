//! How a shared volume begins: all that readers see of its pen is published, and each reader has a seat.
ghost use Rattle.std.specs.Prelude.{◌≡◌, ◌<◌, ◌^◌, ◌∷◌, [], All, drop, length, IfErr, IfOk};
ghost use Rattle.nl_commit.specs.Commits.{IsHistory, shown_after};
ghost use Rattle.nl_publish.specs.Begun.{HasBegun};
ghost use Rattle.nl_publish.specs.States.{IsPublished, name_of};
ghost use Rattle.nl_publish.specs.Locks.{told_by};
ghost use Rattle.nl_commit.specs.Shown.{MountsRise};
ghost use Rattle.nl_publish.specs.Seats.{known_to};

use crate::history::{Front, HistoryLog, Opened};
use crate::locked::Locked;
use crate::press::{NamedWriter, Press, Publisher, open};
use crate::protocol::{StateReader, Volumes};
use crate::reader_state::ReaderState;
use nl_commit::{Commit, NotingPen};
use nl_types::VolError;
use std::alloc::{AllocError, Global};
use std::sync::Wait;

/// A reader's seat, and what it has seen of the volume's history, whose book the reader knows.
#[derive(Drop)]
pub struct Seat<J: Volumes> {
    pub reader: StateReader,
    pub front: Front<J>,
    pub ghost known: { known_to reader.place ≡ name_of (J.book front.volume) },
}

/// A seat for each reader.
fn take_seats<J: Volumes>(
    alloc: Global,
    named: &mut NamedWriter,
    front: &Front<J>,
    readers: usize,
) -> Result<Vec<Seat<J>>, AllocError>
    requires { named.old.writer.desk.shown.value.seen.book ≡ J.book front.now.volume }
    ensures count { IfOk result (λ seats. length seats.items ≡ readers) }
    ensures fronts { IfOk result (λ seats. All (λ s. s.front ≡ front.now) seats.items) }
    ensures shown { named.new.writer.desk.shown ≡ named.old.writer.desk.shown }
    ensures unseen { drop named.new.writer.behind named.new.writer.log.items
        ≡ drop named.old.writer.behind named.old.writer.log.items }
{
    let mut seats = Vec::with_capacity(alloc, readers)?;
    for _ in 0..readers {
        let reader = named.seat()?;
        seats.push(Seat {
            reader,
            front: front.again(),
        })?;
    }
    Ok(seats)
}

/// A writer that shows the first state, and a seat for each reader.
pub fn publish<J: Volumes, R: Wait>(
    alloc: Global,
    rt: &R,
    commit: &Commit,
    front: &Front<J>,
    readers: usize,
) -> Result<(Publisher, Vec<Seat<J>>), AllocError>
    requires first { front.now.commits ≡ commit.now ∷ [] }
    requires mounts { MountsRise (shown_after front.now.commits) }
    requires readers { (0 < readers) × (readers < 2 ^ 32) }
    ensures published { IfOk result (λ made. IsPublished front.now
        (⟦<Publisher as Press>⟧.shown made.0) (⟦<Publisher as Press>⟧.unseen made.0)) }
    ensures book { IfOk result (λ made.
        (⟦<Publisher as Press>⟧.shown made.0).seen.book ≡ J.book front.now.volume) }
    ensures seats { IfOk result (λ made. length made.1.items ≡ readers) }
    ensures fronts { IfOk result (λ made. All (λ s. s.front ≡ front.now) made.1.items) }
{
    let first = ReaderState::first(alloc, commit, front)?;
    let second = first.again(alloc, commit)?;
    let mut named = open(alloc, rt, first, second, readers)?;
    let Ok(seats) = take_seats(alloc, &mut named, front, readers) else {
        named.publisher().end(rt);
        return Err(AllocError);
    };
    Ok((named.publisher(), seats))
}

/// Adds the first commit to a history that has none, and publishes it.
fn publish_first<J: Volumes, R: Wait>(
    alloc: Global,
    rt: &R,
    log: &mut HistoryLog<J>,
    front: &mut Front<J>,
    commit: &Commit,
    readers: usize,
) -> Result<(Publisher, Vec<Seat<J>>), AllocError>
    requires volume { log.old.volume ≡ front.old.volume }
    requires none { front.old.commits ≡ [] }
    requires first { IsHistory (commit.now ∷ []) }
    requires mounts { MountsRise (shown_after (commit.now ∷ [])) }
    requires readers { (0 < readers) × (readers < 2 ^ 32) }
    ensures volume { front.new.volume ≡ front.old.volume }
    ensures own { log.new.volume ≡ log.old.volume }
    ensures first { IfOk result (λ _. front.new.commits ≡ commit.now ∷ []) }
    ensures published { IfOk result (λ made. IsPublished front.new
        (⟦<Publisher as Press>⟧.shown made.0) (⟦<Publisher as Press>⟧.unseen made.0)) }
    ensures book { IfOk result (λ made.
        (⟦<Publisher as Press>⟧.shown made.0).seen.book ≡ J.book front.new.volume) }
    ensures seats { IfOk result (λ made. length made.1.items ≡ readers) }
    ensures fronts { IfOk result (λ made. All (λ s. s.front ≡ front.new) made.1.items) }
{
    if !front.add(log, commit) {
        return Err(AllocError);
    }
    publish(alloc, rt, commit, front, readers)
}

impl<P: NotingPen, J: Volumes> Locked<P, J, Publisher> {
    /// Publishes all that readers see of a pen as the first commit of the history that was opened, with a
    /// seat for each of so many readers, which have seen that commit. Refused by `Memory` alone, which gives
    /// the pen back.
    pub fn new<R: Wait>(
        alloc: Global,
        rt: &R,
        pen: P,
        opened: Opened,
        readers: usize,
    ) -> Result<(Self, Vec<Seat<J>>), (VolError, P)>
        requires id { opened.seen.book ≡ J.book opened.id }
        requires readers { (0 < readers) × (readers < 2 ^ 32) }
        ensures begun { IfOk result (λ made. HasBegun opened.id (P.layout pen) made.0) }
        ensures seats { IfOk result (λ made. length made.1.items ≡ readers) }
        ensures fronts { IfOk result (λ made. All (λ s. s.front ≡ told_by made.0) made.1.items) }
        ensures refused { IfErr result (λ e. e.0 ≡ VolError.Memory) }
        ensures pen { IfErr result (λ e. P.layout e.1 ≡ P.layout pen) }
    {
        let Ok(commit) = pen.whole() else {
            return Err((VolError::Memory, pen));
        };
        let (mut log, mut front) = opened.named::<J>();
        let made = publish_first(alloc, rt, &mut log, &mut front, &commit, readers);
        drop(commit);
        let Ok((writer, seats)) = made else {
            return Err((VolError::Memory, pen));
        };
        Ok((Locked::begun(alloc, pen, log, front, writer), seats))
    }
}
