//! What lies under the lock: the pen, and what is published of it.
ghost use Rattle.std.specs.Prelude.{◌≡◌, ◌≢◌, ◌<◌, ◌+◌, ◌++◌, ◌∷◌, [], None, Some, Ok, Err, IfErr, IfOk, MatchBool, MatchResult, length};
ghost use Rattle.nl_types.specs.declared.event.Event.TheVariants as event;
ghost use Rattle.nl_types.specs.declared.reply.Answer.{Answer};
ghost use Rattle.nl_types.specs.Plain.Worlds.{World};
ghost use Rattle.nl_commit.specs.Commits.{shown_after};
ghost use Rattle.nl_commit.specs.Layout.{IsPen, MeansWorld, ReadsCopy, layout_of};
ghost use Rattle.nl_commit.specs.Notes.{shown_of};
ghost use Rattle.nl_commit.specs.Volume.{without_mounts};
ghost use Rattle.nl_publish.specs.States.{IsPublished, IsWhole};
ghost use Rattle.nl_publish.specs.Locks.{Begins, Finished, GoesBy, IsNoMountEvent, IsSoundState, IsHeldPen, IsTried, StaysHeld, LostComesBack, MountGoes, MountRan, Ran, told_by};
ghost use Rattle.nl_publish.specs.Refusals.{HasRefused};
ghost use Rattle.nl_publish.specs.Returns.{IsGivenBack, UnmountRan};
ghost use Rattle.nl_publish.specs.Told.{ShowsCopy};

use crate::entries::next_entry;
use crate::history::{Front, HistoryLog};
use crate::mount::{Gone, Mount, RefusedMount};
use crate::press::{Press, Publisher};
use crate::protocol::Volumes;
use crate::reader_state::Entry;
use nl_commit::{Commit, NotingPen};
use nl_types::{
    Answer, Ask, CheckpointNumber, Event, MountNumber, Reply, VolError, mount_made, without_answer,
};
use std::alloc::Global;
use std::marker::Model;
use std::sync::Wait;

/// The pen of a shared volume, and what of its commits is published. Contracts see the pen, the history of
/// its commits, how much of that is published, and how often memory was refused to that; the type keeps that what
/// readers see of the pen is what all of the history makes.
pub struct Locked<P: NotingPen, J: Volumes, W: Press> {
    pen: P,
    log: HistoryLog<J>,
    /// The history that ends with what was handed to the writer, and with `unsent`.
    noted: Front<J>,
    /// An entry that the writer had no memory for.
    unsent: Option<Entry>,
    /// The commits behind `noted`.
    waiting: Vec<Commit>,
    /// A mount whose commit could not be published.
    lost: Option<MountNumber>,
    writer: W,
}

impl<P: NotingPen, J: Volumes, W: Press> Model for Locked<P, J, W> {
    ghost use Rattle.std.specs.Prelude.{◌+◌, ◌++◌, length};
    ghost use Rattle.nl_commit.specs.Notes.{shown_of};
    ghost use Rattle.nl_publish.specs.Locks.{HeldPen, IsHeld, listed};

    ghost Value = { HeldPen };

    ghost view = { λ l. record {
      volume = l.noted.volume;
      published = (W.shown l.writer).seen.log;
      history = l.noted.commits ++ l.waiting.items;
      unsent = length (listed l.unsent) + length l.waiting.items;
      lost = l.lost;
      layout = P.layout l.pen;
      refusals = W.refusals l.writer + l.log.refusals;
    } };

    ghost invariant = { λ l. IsHeld J.book l.log.volume (W.shown l.writer)
        (W.unseen l.writer ++ listed l.unsent) l.noted l.waiting.items (shown_of (P.layout l.pen)) };
}

/// StaysHeld an entry that the writer doesn't have.
fn keep_entry(unsent: &mut Option<Entry>, entry: Entry)
    ensures { unsent.new ≡ Some entry }
{
    *unsent = Some(entry);
}

// ---- publication

impl<P: NotingPen, J: Volumes, W: Press> Locked<P, J, W> {
    /// Whether the writer lacks a commit.
    fn has_unsent(&self) -> bool
        ensures { MatchBool result (0 < self.now.unsent) (self.now.unsent ≡ 0) }
    {
        match &self.unsent {
            Some(_) => true,
            None => !self.waiting.as_slice().is_empty(),
        }
    }

    /// Hands the next commit to the writer, and says whether it did.
    fn hand_one(&mut self) -> bool
        requires { 0 < self.old.unsent }
        ensures kept { StaysHeld self.old self.new }
        ensures handed { MatchBool result (self.new.unsent < self.old.unsent)
            (HasRefused self.old.refusals self.new.refusals) }
    {
        let Some(entry) = next_entry(
            &mut self.unsent,
            &mut self.noted,
            &mut self.log,
            &mut self.waiting,
        ) else {
            return false;
        };
        match self.writer.push(entry) {
            Ok(()) => true,
            Err(entry) => {
                keep_entry(&mut self.unsent, entry);
                false
            }
        }
    }

    /// Shows readers all that was handed to the writer, and says whether it did.
    fn show<R: Wait>(&mut self, rt: &R) -> bool
        ensures kept { StaysHeld self.old self.new }
        ensures shown { MatchBool result
            (self.old.unsent ≡ 0 → self.new.published ≡ self.new.history)
            (HasRefused self.old.refusals self.new.refusals) }
    {
        self.writer.show(rt)
    }

    /// Whether all of the history is published.
    pub fn has_published_all(&self) -> bool
        ensures { MatchBool result (self.now.published ≡ self.now.history)
            (self.now.published ≢ self.now.history) }
    {
        if !self.waiting.as_slice().is_empty() {
            return false;
        }
        self.writer.state().count == self.noted.len()
    }

    /// Hands all that waits to the writer, and says whether it did.
    fn hand_over(&mut self) -> bool
        ensures kept { StaysHeld self.old self.new }
        ensures handed { MatchBool result (self.new.unsent ≡ 0)
            (HasRefused self.old.refusals self.new.refusals) }
    {
        while self.has_unsent() {
            if !self.hand_one() {
                return false;
            }
        }
        true
    }

    /// Publishes what is pending, as far as there is memory. It waits for readers only where something is
    /// pending.
    fn publish<R: Wait>(&mut self, rt: &R)
        ensures kept { StaysHeld self.old self.new }
        ensures tried { IsTried self.old self.new }
    {
        if self.has_published_all() {
            return;
        }
        if self.hand_over() {
            self.show(rt);
        }
    }

    /// Publishes what is pending, and says whether nothing is pending any more.
    pub(crate) fn publish_pending<R: Wait>(&mut self, rt: &R) -> bool
        ensures sent { StaysHeld self.old self.new }
        ensures tried { IsTried self.old self.new }
        ensures settled { MatchBool result (self.new.published ≡ self.new.history)
            (self.new.published ≢ self.new.history) }
    {
        self.publish(rt);
        self.has_published_all()
    }
}

// ---- events

impl<P: NotingPen, J: Volumes, W: Press> Locked<P, J, W> {
    /// Every pen means a world, and is sound. This says so to its callers, and does nothing.
    pub fn means_a_world(&self)
        ensures { IsPen self.now.layout }
    {
        self.pen.means_a_world();
    }

    /// What readers see of the pen is what its history makes, of which a beginning is published. This says so
    /// to its callers, and does nothing.
    pub fn is_told(&self)
        ensures { IsHeldPen self.now }
    {
        let _ = &self.noted;
    }

    /// Both of it. This says so to its callers, and does nothing.
    pub fn is_sound(&self)
        ensures { IsSoundState self.now }
    {
        self.means_a_world();
        self.is_told();
    }

    /// Applies an event to the pen alone.
    pub(crate) fn run(&mut self, event: &Event) -> Reply
        ensures { GoesBy self.old event.now result self.new }
    {
        self.pen.apply_noting(event, &mut self.waiting)
    }

    /// Applies an event of the volume's own to the pen alone.
    pub(crate) fn run_own(&mut self, event: Event) -> Reply
        ensures { GoesBy self.old event result self.new }
    {
        self.run(&event)
    }

    /// Mounts a checkpoint in the pen alone.
    fn run_mount(&mut self, checkpoint: CheckpointNumber) -> Result<MountNumber, VolError>
        ensures { MountGoes self.old checkpoint result self.new }
    {
        self.means_a_world();
        mount_made(self.run_own(Event::Mount(checkpoint)))
    }

    /// Gives a mount back in the pen alone.
    fn run_unmount(&mut self, number: MountNumber) -> Result<(), VolError>
        ensures { MatchResult result
            (λ _. (answer : Answer) × GoesBy self.old (event.Unmount number) (Ok answer) self.new)
            (λ e. GoesBy self.old (event.Unmount number) (Err e) self.new) }
    {
        without_answer(self.run_own(Event::Unmount(number)))
    }

    /// Gives back the mount whose commit could not be published, in the pen alone. Refused by `Memory` alone.
    fn give_back(&mut self) -> Result<(), VolError>
        ensures { LostComesBack self.old result self.new }
    {
        match self.lost {
            None => Ok(()),
            Some(number) => match self.run_unmount(number) {
                Ok(()) => {
                    self.lost = None;
                    Ok(())
                }
                Err(_) => Err(VolError::Memory),
            },
        }
    }

    /// Gives back a mount that was lost, and publishes what is pending. Refused by `Memory` alone, where the
    /// give-back is.
    pub(crate) fn begin<R: Wait>(&mut self, rt: &R) -> Result<(), VolError>
        ensures begun { Begins self.old result self.new }
        ensures tried { IsTried self.old self.new }
    {
        let begun = self.give_back();
        self.publish_pending(rt);
        begun
    }

    /// Applies an event, behind what comes before it, and publishes its commit.
    fn do_event<R: Wait>(&mut self, rt: &R, event: &Event) -> Reply
        ensures { Ran self.old event.now result self.new }
    {
        if let Err(refusal) = self.begin(rt) {
            return Err(refusal);
        }
        let reply = self.run(event);
        self.publish_pending(rt);
        reply
    }

    /// Applies an event of the volume's own so.
    fn do_own<R: Wait>(&mut self, rt: &R, event: Event) -> Reply
        ensures { Ran self.old event result self.new }
    {
        self.do_event(rt, &event)
    }

    /// Applies an event that is no mount and no unmount, which have calls of their own. It stands where its
    /// commit can't be published for want of memory, and the commit stays pending: each later call publishes
    /// first.
    pub fn apply<R: Wait>(&mut self, rt: &R, event: &Event) -> Reply
        requires { IsNoMountEvent event.now }
        ensures { Ran self.old event.now result self.new }
    {
        self.do_event(rt, event)
    }

    /// The pen, to be asked.
    pub fn pen(&self) -> &P
        ensures { P.layout result.now ≡ self.now.layout }
    {
        &self.pen
    }

    /// What the tree of a kept checkpoint answers, without a mount, also where its commit waits. Refused by
    /// `NoCheckpoint` where it isn't kept, as the call is, and by `Memory` where it isn't `stat`, which takes
    /// none.
    pub fn read_at(&self, number: CheckpointNumber, ask: &Ask) -> Reply
        ensures { ReadsCopy self.now.layout number ask.now result }
    {
        self.pen.read_at(number, ask)
    }

    /// The volume's id.
    pub fn volume(&self) -> u64
        ensures { result ≡ self.now.volume }
    {
        self.noted.volume()
    }
}

// ---- mounts

impl<P: NotingPen, J: Volumes, W: Press> Locked<P, J, W> {
    /// Mounts a checkpoint, and answers the mount's number once its commit is published.
    fn publish_mount<R: Wait>(
        &mut self,
        rt: &R,
        checkpoint: CheckpointNumber,
    ) -> Result<MountNumber, VolError>
        ensures { MountRan self.old checkpoint result self.new }
    {
        if let Err(refusal) = self.begin(rt) {
            return Err(refusal);
        }
        if !self.publish_pending(rt) {
            return Err(VolError::Memory);
        }
        match self.run_mount(checkpoint) {
            Err(refusal) => Err(refusal),
            Ok(number) => self.finish_mount(rt, number),
        }
    }

    /// Publishes a mount's commit, or keeps its number to be given back.
    fn finish_mount<R: Wait>(
        &mut self,
        rt: &R,
        number: MountNumber,
    ) -> Result<MountNumber, VolError>
        requires { self.old.lost ≡ None }
        ensures { Finished self.old number result self.new }
    {
        if self.publish_pending(rt) {
            return Ok(number);
        }
        self.lost = Some(number);
        Err(VolError::Memory)
    }

    /// What is published.
    pub fn told(&self) -> Front<J>
        ensures { result ≡ told_by self.now }
    {
        Front::of(self.writer.state(), self.noted.volume())
    }

    /// Mounts a checkpoint. The mount is told of the history that ends with its own commit, all of which is
    /// published. Refused by `Memory` while something is pending, and where its own commit can't be
    /// published: the next call gives that mount back.
    pub fn mount<R: Wait>(
        &mut self,
        rt: &R,
        checkpoint: CheckpointNumber,
    ) -> Result<Mount<J>, VolError>
        ensures ran { MatchResult result (λ m. MountRan self.old checkpoint (Ok m.number) self.new)
            (λ e. MountRan self.old checkpoint (Err e) self.new) }
        ensures checkpoint { IfOk result (λ m. m.checkpoint ≡ checkpoint) }
        ensures told { IfOk result (λ m. m.told ≡ told_by self.new) }
        ensures copy { IfOk result (λ m. (w : World) → MeansWorld self.new.layout w
            → ShowsCopy (shown_after m.told.commits) m.checkpoint w) }
    {
        match self.publish_mount(rt, checkpoint) {
            Err(refusal) => Err(refusal),
            Ok(number) => {
                self.is_told();
                Ok(Mount::new(number, checkpoint, self.told()))
            }
        }
    }

    /// Gives back the mount of a number, for who has all mounts of the volume by their numbers. With the
    /// answer comes what lets go of that mount.
    pub fn unmount_number<R: Wait>(
        &mut self,
        rt: &R,
        number: MountNumber,
    ) -> Result<(Answer, Gone), VolError>
        ensures { MatchResult result
            (λ done. Ran self.old (event.Unmount number) (Ok done.0) self.new)
            (λ e. Ran self.old (event.Unmount number) (Err e) self.new) }
    {
        match self.do_own(rt, Event::Unmount(number)) {
            Ok(answer) => Ok((answer, Gone::new())),
            Err(refusal) => Err(refusal),
        }
    }

    /// Gives back the mount of a number, without the answer.
    fn apply_unmount<R: Wait>(&mut self, rt: &R, number: MountNumber) -> Result<(), VolError>
        ensures { MatchResult result
            (λ _. (answer : Answer) × Ran self.old (event.Unmount number) (Ok answer) self.new)
            (λ e. Ran self.old (event.Unmount number) (Err e) self.new) }
    {
        without_answer(self.do_own(rt, Event::Unmount(number)))
    }

    /// Gives back a mount of this volume. Refused, it comes back.
    fn unmount_own<R: Wait>(
        &mut self,
        rt: &R,
        mount: Mount<J>,
    ) -> Result<(), (VolError, RefusedMount<J>)>
        ensures given { IsGivenBack self.old mount result self.new }
        ensures same { IfErr result (λ r. r.1 ≡ mount) }
    {
        match self.apply_unmount(rt, mount.number()) {
            Ok(()) => {
                mount.spend(&Gone::new());
                Ok(())
            }
            Err(refusal) => Err((refusal, RefusedMount::new(mount))),
        }
    }

    /// Gives a mount back. Refused, it comes back: by `BadMount` where it is another volume's, and nothing is
    /// done then.
    pub fn unmount<R: Wait>(
        &mut self,
        rt: &R,
        mount: Mount<J>,
    ) -> Result<(), (VolError, RefusedMount<J>)>
        ensures ran { UnmountRan self.old mount result self.new }
        ensures same { IfErr result (λ r. r.1 ≡ mount) }
    {
        match mount.of_volume(self.volume()) {
            Err(refused) => Err((VolError::BadMount, refused)),
            Ok(mount) => self.unmount_own(rt, mount),
        }
    }
}

// ---- beginning and end

impl<P: NotingPen, J: Volumes, W: Press> Locked<P, J, W> {
    /// A pen all of which the writer shows readers by the first commit. `new` makes a writer, and a seat for
    /// each reader.
    pub fn begun(alloc: Global, pen: P, log: HistoryLog<J>, front: Front<J>, writer: W) -> Self
        requires volume { log.volume ≡ front.volume }
        requires pen { shown_of (P.layout pen) ≡ shown_after front.commits }
        requires published { IsPublished front (W.shown writer) (W.unseen writer) }
        requires book { (W.shown writer).seen.book ≡ J.book front.volume }
        ensures { result ≡ record {
          volume = front.volume;
          published = front.commits;
          history = front.commits;
          unsent = 0;
          lost = None;
          layout = P.layout pen;
          refusals = W.refusals writer + log.refusals;
        } }
    {
        Locked {
            pen,
            log,
            noted: front,
            unsent: None,
            waiting: Vec::new(alloc),
            lost: None,
            writer,
        }
    }

    /// The pen, from which all mounts are taken out, the writer, which shows what was published, and that the
    /// volume has ended. It takes no memory.
    pub fn take_apart(self) -> (P, W, Gone)
        ensures pen { P.layout result.0 ≡ layout_of (without_mounts self.layout.lists) self.layout.store }
        ensures whole { IsWhole (W.shown result.1) }
        ensures shown { (W.shown result.1).seen.log ≡ self.published }
        ensures book { (W.shown result.1).seen.book ≡ J.book self.volume }
    {
        let Locked {
            mut pen,
            log: _log,
            noted: _noted,
            unsent: _unsent,
            waiting: _waiting,
            lost: _,
            writer,
        } = self;
        pen.give_all_back();
        (pen, writer, Gone::new())
    }
}

impl<P: NotingPen, J: Volumes> Locked<P, J, Publisher> {
    /// Takes all mounts out, and gives the pen back: who holds a mount lets go of it by what comes with the
    /// pen. Readers find nothing from now on. It takes no memory.
    pub fn end<R: Wait>(self, rt: &R) -> (P, Gone)
        ensures { P.layout result.0 ≡ layout_of (without_mounts self.layout.lists) self.layout.store }
    {
        let (pen, writer, gone) = self.take_apart();
        writer.end(rt);
        (pen, gone)
    }
}
