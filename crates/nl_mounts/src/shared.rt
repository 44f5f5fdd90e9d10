//! A volume that threads share.
ghost use Rattle.std.specs.Prelude.{◌≡◌, ◌≢◌, ◌≤◌, ◌+◌, ◌++◌, Err, IfErr, IfOk, IsOkUnless, MatchBool, length, map, slice_get};
ghost use Rattle.std.specs.Option.{ok_or};
ghost use Rattle.std.specs.Sync.Mutex.{mutex_guard_value};
ghost use Rattle.nl_types.specs.Blocks.Segments.{clean_segments};
ghost use Rattle.nl_cpfile.specs.Tables.{cpstat_of};
ghost use Rattle.nl_commit.specs.CleanerViews.{needed_told};
ghost use Rattle.nl_commit.specs.Layout.{ReadsCopy};
ghost use Rattle.nl_publish.specs.Reading.{HasLearned, IsLater};
ghost use Rattle.nl_mounts.specs.Sharing.{HasCleaned, HasMounted, HasRun, HasTold, HasUnmounted, InSomeState, IsForeignReply, IsKnownTo, IsPenBack, IsPortCount, IsShareRefused, IsShared, MountComes, Tells, UnmountComes};
ghost use Rattle.nl_mounts.specs.Ports.{Learns, fresh, seeing};
ghost use Rattle.nl_publish.specs.Locks.{IsNoMountEvent, IsSoundState};
ghost use Rattle.nl_publish.specs.SegmentViews.{segment_told};

use crate::port::Port;
use nl_commit::Round;
use nl_cpfile::Cpstat;
use nl_protect::Config;
use nl_publish::{
    Gone, Locked, Mount, NotingPen, Opened, Press, Publisher, RefusedMount, Seat, SegmentView,
    Volumes,
};
use nl_sufile::Sustat;
use nl_types::{Ask, CheckpointNumber, Event, Moment, Reply, Segment, SegmentInfo, VolError};
use std::alloc::Global;
use std::marker::Model;
use std::sync::{Mutex, MutexGuard, Wait};

/// The most ports of a volume.
const MOST_PORTS: usize = 32;

/// A volume that one pen changes under a lock. Each call takes the lock, does what `Locked` does, and lets it
/// go: what a contract says of a call is said of some state that stood under the lock then. Contracts see the
/// volume's id, which stands beside the lock: ports and mounts are judged by it before the lock is taken.
pub struct Shared<P: NotingPen, J: Volumes, W: Press = Publisher> {
    volume: u64,
    locked: Mutex<Locked<P, J, W>>,
}

impl<P: NotingPen, J: Volumes, W: Press> Model for Shared<P, J, W> {
    ghost use Rattle.std.specs.Prelude.{ℕ};

    ghost Value = { ℕ };

    ghost view = { λ s. s.volume };
}

/// The reply to an event, and whether the port knows all of the history behind it. It doesn't where a commit waits
/// to be published.
#[derive(Drop)]
pub struct ToldReply {
    pub reply: Reply,
    pub is_told: bool,
}

// ---- what is lent the guard beside a port or a mount

/// Whether a port is of the volume under the lock, and has seen no more than is published. Both are so where it
/// is of the volume whose id stands beside the lock, but no contract can know it of what lies under a lock.
fn is_known<P: NotingPen, J: Volumes, W: Press>(locked: &Locked<P, J, W>, port: &Port<J>) -> bool
    ensures { MatchBool result (IsKnownTo locked.now port.now.known)
        (IsKnownTo locked.now port.now.known → ⊥) }
{
    if port.volume() != locked.volume() {
        return false;
    }
    locked.told().covers(port.seen())
}

/// Applies an event, and tells the port of what is published then.
fn apply_for<P: NotingPen, J: Volumes, W: Press, R: Wait>(
    rt: &R,
    locked: &mut Locked<P, J, W>,
    port: &mut Port<J>,
    event: &Event,
) -> ToldReply
    requires { IsNoMountEvent event.now }
    ensures sound { IsSoundState locked.old }
    ensures left { IsSoundState locked.new }
    ensures tells { Tells locked.old port.old.known event.now result locked.new port.new.known }
    ensures later { IsLater port.old.known port.new.known }
    ensures kept { port.new ≡ seeing port.old port.new.known }
{
    locked.is_sound();
    if !is_known(locked, port) {
        return ToldReply {
            reply: Err(VolError::Memory),
            is_told: false,
        };
    }
    let reply = locked.apply(rt, event);
    locked.is_sound();
    port.see(locked.told());
    ToldReply {
        reply,
        is_told: locked.has_published_all(),
    }
}

/// Mounts a checkpoint, and tells the port.
fn mount_for<P: NotingPen, J: Volumes, W: Press, R: Wait>(
    rt: &R,
    locked: &mut Locked<P, J, W>,
    port: &mut Port<J>,
    checkpoint: CheckpointNumber,
) -> Result<Mount<J>, VolError>
    ensures sound { IsSoundState locked.old }
    ensures comes { MountComes locked.old port.old.known checkpoint result locked.new }
    ensures checkpoint { IfOk result (λ m. m.checkpoint ≡ checkpoint) }
    ensures ahead { IfOk result (λ m. IsLater port.old.known m.told) }
    ensures told { IfOk result (λ m. HasLearned m port.new.known) }
    ensures later { IsLater port.old.known port.new.known }
    ensures learns { IfOk result (λ m. Learns m port.old port.new) }
    ensures same { IfErr result (λ _. port.new ≡ port.old) }
{
    locked.is_sound();
    if !is_known(locked, port) {
        return Err(VolError::Memory);
    }
    match locked.mount(rt, checkpoint) {
        Err(refusal) => Err(refusal),
        Ok(mount) => {
            port.learn(&mount);
            Ok(mount)
        }
    }
}

/// Gives a mount back. It is of the volume under the lock where it is of the one whose id stands beside it,
/// which no contract can know.
fn unmount_of<P: NotingPen, J: Volumes, W: Press, R: Wait>(
    rt: &R,
    locked: &mut Locked<P, J, W>,
    mount: Mount<J>,
) -> Result<(), (VolError, RefusedMount<J>)>
    ensures sound { IsSoundState locked.old }
    ensures comes { UnmountComes locked.old mount result locked.new }
    ensures same { IfErr result (λ r. r.1 ≡ mount) }
{
    locked.is_sound();
    match mount.of_volume(locked.volume()) {
        Err(refused) => Err((VolError::Memory, refused)),
        Ok(mount) => locked.unmount(rt, mount),
    }
}

// ---- events and mounts

impl<P: NotingPen, J: Volumes, W: Press> Shared<P, J, W> {
    /// Takes the lock. What lies under it is sound.
    fn lock<R: Wait>(&self, rt: &R) -> MutexGuard<'_, Locked<P, J, W>>
        ensures { IsSoundState (mutex_guard_value result) }
    {
        let locked = self.locked.lock(rt);
        locked.is_sound();
        locked
    }

    /// Applies an event that is no mount and no unmount, which have calls of their own. It stands where its
    /// commit can't be published for want of memory: each later call publishes first.
    ///
    /// # Errors
    /// Those of the event, and `Memory`.
    pub fn apply<R: Wait>(&self, rt: &R, event: &Event) -> Reply
        requires { IsNoMountEvent event.now }
        ensures { HasRun event.now result }
    {
        self.lock(rt).apply(rt, event)
    }

    /// Applies an event as `apply` does, and tells the port of the history behind it, where all of that is
    /// published: a mount that the port asks for then is told of it too. So what one thread does goes in order.
    ///
    /// # Errors
    /// `BadMount` where the port is another volume's, before all else; those of `apply`.
    pub fn apply_told<R: Wait>(&self, rt: &R, port: &mut Port<J>, event: &Event) -> ToldReply
        requires { IsNoMountEvent event.now }
        ensures foreign { port.old.known.volume ≢ self.now → IsForeignReply result }
        ensures ran { port.old.known.volume ≡ self.now
            → HasTold port.old.known event.now result port.new.known }
        ensures later { IsLater port.old.known port.new.known }
        ensures kept { port.new ≡ seeing port.old port.new.known }
    {
        if port.volume() != self.volume {
            return ToldReply {
                reply: Err(VolError::BadMount),
                is_told: false,
            };
        }
        apply_for(rt, &mut self.locked.lock(rt), port, event)
    }

    /// Mounts a checkpoint, and tells the port. The mount is told of all that the port had seen. Other ports are
    /// told by `Port::learn`.
    ///
    /// # Errors
    /// `BadMount` where the port is another volume's, before all else; those of a mount; `Memory`, also while
    /// a commit waits to be published.
    pub fn mount<R: Wait>(
        &self,
        rt: &R,
        port: &mut Port<J>,
        checkpoint: CheckpointNumber,
    ) -> Result<Mount<J>, VolError>
        ensures foreign { port.old.known.volume ≢ self.now → result ≡ Err VolError.BadMount }
        ensures mounted { port.old.known.volume ≡ self.now
            → HasMounted port.old.known checkpoint result }
        ensures checkpoint { IfOk result (λ m. m.checkpoint ≡ checkpoint) }
        ensures ahead { IfOk result (λ m. IsLater port.old.known m.told) }
        ensures told { IfOk result (λ m. HasLearned m port.new.known) }
        ensures later { IsLater port.old.known port.new.known }
        ensures learns { IfOk result (λ m. Learns m port.old port.new) }
        ensures same { IfErr result (λ _. port.new ≡ port.old) }
    {
        if port.volume() != self.volume {
            return Err(VolError::BadMount);
        }
        mount_for(rt, &mut self.locked.lock(rt), port, checkpoint)
    }

    /// Gives a mount back. Refused, it comes back.
    ///
    /// # Errors
    /// `BadMount` where the mount is another volume's, before all else; `Memory`.
    pub fn unmount<R: Wait>(
        &self,
        rt: &R,
        mount: Mount<J>,
    ) -> Result<(), (VolError, RefusedMount<J>)>
        ensures foreign { mount.told.volume ≢ self.now → result ≡ Err (VolError.BadMount, mount) }
        ensures unmounted { mount.told.volume ≡ self.now → HasUnmounted mount result }
        ensures same { IfErr result (λ r. r.1 ≡ mount) }
    {
        match mount.of_volume(self.volume) {
            Err(refused) => Err((VolError::BadMount, refused)),
            Ok(mount) => unmount_of(rt, &mut self.locked.lock(rt), mount),
        }
    }
}

// ---- rounds of cleaning, and what is told

impl<P: NotingPen, J: Volumes, W: Press> Shared<P, J, W> {
    /// Does the next event of a round of cleaning, and notes the reply in the round; None where the round is
    /// over.
    pub fn clean_step<G: Round<P>, R: Wait>(&self, rt: &R, round: &mut G) -> Option<Reply>
        ensures { HasCleaned G.habits round.old result round.new }
    {
        self.lock(rt).clean_step(rt, round)
    }

    /// The round of cleaning that a configuration asks for at a moment. It only looks.
    ///
    /// # Errors
    /// `Memory`.
    pub fn plan<G: Round<P>, R: Wait>(
        &self,
        rt: &R,
        alloc: Global,
        config: &Config,
        now: Moment,
    ) -> Result<G, VolError>
        ensures planned { IfOk result (λ round.
            InSomeState (λ h. G.habits.plans h.layout config.now now round)) }
        ensures refused { IsOkUnless result VolError.Memory }
    {
        self.lock(rt).plan(alloc, config, now)
    }

    /// What is known of a segment, and how many needed blocks it has, both of one state. It takes no memory.
    ///
    /// # Errors
    /// `BadRange` where there is no such segment.
    pub fn segment<R: Wait>(&self, rt: &R, segment: Segment) -> Result<SegmentView, VolError>
        ensures { InSomeState (λ h. result ≡ segment_told h.layout segment) }
    {
        self.lock(rt).segment(segment)
    }

    /// What is known of a segment. It takes no memory.
    ///
    /// # Errors
    /// `BadRange` where there is no such segment.
    pub fn suinfo<R: Wait>(&self, rt: &R, segment: Segment) -> Result<SegmentInfo, VolError>
        ensures { InSomeState (λ h.
            result ≡ ok_or (slice_get h.layout.store.segments.each segment) VolError.BadRange) }
    {
        self.lock(rt).suinfo(segment)
    }

    /// How many needed blocks a segment has. It takes no memory.
    ///
    /// # Errors
    /// `BadRange` where there is no such segment.
    pub fn needed<R: Wait>(&self, rt: &R, segment: Segment) -> Result<u32, VolError>
        ensures { InSomeState (λ h. result ≡ needed_told h.layout segment) }
    {
        self.lock(rt).needed(segment)
    }

    /// How many segments there are, and of them how many are clean, and how many dirty. It takes no memory.
    pub fn sustat<R: Wait>(&self, rt: &R) -> Sustat
        ensures { InSomeState (λ h. (result.segments ≡ length h.layout.store.segments.each)
            × (result.clean ≡ length (clean_segments h.layout.store.segments))
            × (result.dirty + result.clean ≡ result.segments)) }
    {
        self.lock(rt).sustat()
    }

    /// How many checkpoints and snapshots are kept, and the latest one's number. It takes no memory.
    pub fn cpstat<R: Wait>(&self, rt: &R) -> Cpstat
        ensures { InSomeState (λ h. result ≡ cpstat_of h.layout.lists.table) }
    {
        self.lock(rt).cpstat()
    }

    /// What the tree of a kept checkpoint answers, without a mount: of a plain one too, and of a minor one.
    /// It takes the lock; who reads beside the writer mounts a snapshot and has a port.
    ///
    /// # Errors
    /// `NoCheckpoint` where it isn't kept; those of the call; `Memory`, but for `stat`, which takes none.
    pub fn read_at<R: Wait>(&self, rt: &R, number: CheckpointNumber, ask: &Ask) -> Reply
        ensures { InSomeState (λ h. ReadsCopy h.layout number ask.now result) }
    {
        self.lock(rt).read_at(number, ask)
    }
}

// ---- beginning and end

/// A port for each seat, in a list that has room for all.
pub fn seat_all<J: Volumes>(ports: &mut Vec<Port<J>>, seats: Vec<Seat<J>>)
    requires { length ports.old.items + length seats.items ≤ ports.old.cap }
    ensures { ports.new.items ≡ ports.old.items ++ map (λ s. fresh s.front) seats.items }
{
    for seat in seats {
        if ports.push(Port::new(seat)).is_err() {
            unreachable!();
        }
    }
}

/// Shares a volume among so many ports, each of which has seen its first commit. `opened` has its id, and an
/// empty history.
///
/// # Errors
/// `BadRange` for no port or more than 32, `Memory`; then the pen comes back.
pub fn share<P: NotingPen, J: Volumes, R: Wait>(
    alloc: Global,
    rt: &R,
    pen: P,
    ports: usize,
    opened: Opened,
) -> Result<(Shared<P, J>, Vec<Port<J>>), (VolError, P)>
    requires id { opened.seen.book ≡ J.book opened.id }
    ensures count { IfOk result (λ made. IsPortCount ports × (length made.1.items ≡ ports)) }
    ensures shared { IfOk result (λ made. IsShared opened.id (P.layout pen) made.0 made.1.items) }
    ensures refused { IfErr result (λ e. IsShareRefused ports e.0) }
    ensures pen { IfErr result (λ e. P.layout e.1 ≡ P.layout pen) }
{
    if ports == 0 || ports > MOST_PORTS {
        return Err((VolError::BadRange, pen));
    }
    let Ok(mut list) = Vec::with_capacity(alloc, ports) else {
        return Err((VolError::Memory, pen));
    };
    let (locked, seats) = match Locked::new(alloc, rt, pen, opened, ports) {
        Err(refused) => return Err(refused),
        Ok(made) => made,
    };
    locked.is_sound();
    seat_all(&mut list, seats);
    Ok((
        Shared {
            volume: locked.volume(),
            locked: Mutex::new(locked),
        },
        list,
    ))
}

/// Lets go of mounts whose volume has ended.
pub fn spend_all<J: Volumes>(mut mounts: Vec<Mount<J>>, gone: &Gone) {
    while let Some(mount) = mounts.pop() {
        mount.spend(gone);
    }
    mounts.destroy_empty();
}

impl<P: NotingPen, J: Volumes> Shared<P, J> {
    /// Takes all mounts out, and gives the pen back. Who holds a mount elsewhere lets go of it by what comes with
    /// the pen. Ports find nothing from now on. It takes no memory.
    pub fn end_for_holders<R: Wait>(self, rt: &R) -> (P, Gone)
        ensures { IsPenBack (P.layout result.0) }
    {
        let Shared { volume: _, locked } = self;
        let locked = locked.into_inner();
        locked.is_sound();
        locked.end(rt)
    }

    /// Takes all mounts out, those that are handed in among them, and gives the pen back. Ports find nothing
    /// from now on. It takes no memory.
    pub fn end<R: Wait>(self, rt: &R, mounts: Vec<Mount<J>>) -> P
        ensures { IsPenBack (P.layout result) }
    {
        let (pen, gone) = self.end_for_holders(rt);
        spend_all(mounts, &gone);
        pen
    }
}
