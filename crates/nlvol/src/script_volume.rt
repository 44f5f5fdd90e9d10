//! The volume of a script: one thread has the writer of a shared volume, and one of its ports.
ghost use Rattle.std.specs.Prelude.{◌≡◌, ◌<◌, IfOk, IfSome, IsOkUnless, OnSome, length, option_map};
ghost use Rattle.nl_commit.specs.Layout.{layout_of};
ghost use Rattle.nl_commit.specs.Volume.{without_mounts};
ghost use Rattle.nl_publish.specs.Locks.{Ran};
ghost use Rattle.nlvol.specs.SharedVolumes.{HasBegunShared, IsHeldTold, IsRoundStep, MountComes, ReadComes, mounts_left_by, mount_of, place_of, reader_count, shared_habits, without_mount};
ghost use Rattle.nl_script.specs.FileReads.{IsPortReply};
ghost use Rattle.nl_types.specs.declared.event.Event.TheVariants as event;

use nl_commit::{NotingPen, Round};
use nl_mounts::{Port, seat_all, spend_all};
use nl_publish::{Gone, Locked, Mount, Opened, Publisher, Volumes};
use nl_script::{Volume, is_bad_mount};
use nl_types::{Answer, Ask, CheckpointNumber, Event, MountNumber, Reply, VolError};
use std::alloc::Global;
use std::marker::{Model, PhantomData};
use std::sync::Wait;

/// How many ports read files side by side.
const READERS: usize = 4;

/// A volume whose commits are published, a port of its own, and the mounts that are held. Its rounds of
/// cleaning are values of `G`. A contract sees what lies under the lock, and the mounts.
pub struct ScriptVolume<'a, P: NotingPen, G: Round<P>, J: Volumes, R: Wait> {
    rt: &'a R,
    alloc: Global,
    locked: Locked<P, J, Publisher>,
    port: Port<J>,
    mounts: Vec<Mount<J>>,
    rounds: PhantomData<G>,
}

impl<'a, P: NotingPen, G: Round<P>, J: Volumes, R: Wait> Model for ScriptVolume<'a, P, G, J, R> {
    ghost use Rattle.nlvol.specs.SharedVolumes.{Sharing};

    ghost Value = { Sharing };

    ghost view = { λ v. record { held = v.locked; mounts = v.mounts.items } };
}

// ---- mounts

fn place_of<J: Volumes>(mounts: &[Mount<J>], number: MountNumber) -> Option<usize>
    ensures { result ≡ place_of number mounts.now }
{
    mounts.iter().position(|mount| mount.number() == number)
}

fn mount_of<J: Volumes>(mounts: &[Mount<J>], number: MountNumber) -> Option<&Mount<J>>
    ensures { option_map (λ m. m.now) result ≡ mount_of number mounts.now }
{
    mounts.get(place_of(mounts, number)?)
}

/// Takes the mount of a number out, which was given back.
fn forget<J: Volumes>(mounts: &mut Vec<Mount<J>>, number: MountNumber, gone: &Gone)
    ensures { mounts.new.items ≡ without_mount number mounts.old.items }
{
    if let Some(place) = place_of(mounts.as_slice(), number) {
        mounts.remove(place).spend(gone);
    }
}

// ---- reads

/// What the port replies to a question about a mount.
fn told<J: Volumes>(alloc: Global, port: &mut Port<J>, mount: &Mount<J>, ask: &Ask) -> Reply
    ensures { IsPortReply mount.now ask.now result }
{
    port.learn(mount);
    port.ask(alloc, mount, ask)
}

// ---- beginning and end

impl<'a, P: NotingPen, G: Round<P>, J: Volumes, R: Wait> ScriptVolume<'a, P, G, J, R> {
    /// Shares a volume with four ports beside its own, which are handed out. `opened` has its id, and an
    /// empty history.
    ///
    /// # Errors
    /// `Memory`.
    pub fn new(
        rt: &'a R,
        alloc: Global,
        pen: P,
        opened: Opened,
    ) -> Result<(Self, Vec<Port<J>>), VolError>
        requires id { opened.seen.book ≡ J.book opened.id }
        ensures begun { IfOk result (λ made. HasBegunShared opened.id (P.layout pen) made.0) }
        ensures ports { IfOk result (λ made. length made.1.items ≡ reader_count) }
        ensures refused { IsOkUnless result VolError.Memory }
    {
        let Ok(mut ports) = Vec::with_capacity(alloc, READERS) else {
            return Err(VolError::Memory);
        };
        match Locked::new(alloc, rt, pen, opened, READERS + 1) {
            Err((refusal, _pen)) => Err(refusal),
            Ok((locked, mut seats)) => {
                let seat = seats.remove(0);
                seat_all(&mut ports, seats);
                let volume = ScriptVolume {
                    rt,
                    alloc,
                    locked,
                    port: Port::new(seat),
                    mounts: Vec::new(alloc),
                    rounds: PhantomData,
                };
                Ok((volume, ports))
            }
        }
    }

    /// Takes all mounts out, and gives the pen back. It takes no memory.
    pub fn end(self) -> P
        ensures { P.layout result ≡ layout_of
            (without_mounts self.entry.held.layout.lists) self.entry.held.layout.store }
    {
        let ScriptVolume {
            rt,
            alloc: _,
            locked,
            port,
            mounts,
            rounds: _,
        } = self;
        drop(port);
        let (pen, gone) = locked.end(rt);
        spend_all(mounts, &gone);
        pen
    }
}

// ---- rounds of cleaning

/// Does the next step of a round, where one is left.
fn step_round<P: NotingPen, G: Round<P>, J: Volumes, R: Wait>(
    rt: &R,
    locked: &mut Locked<P, J, Publisher>,
    round: &mut G,
) -> Option<Reply>
    ensures stepped { IsRoundStep G.habits locked.old round.old result locked.new round.new }
    ensures fewer { OnSome result
        (G.habits.left round.new locked.new.layout < G.habits.left round.old locked.old.layout) }
{
    locked.means_a_world();
    drop(round.next(locked.pen())?);
    locked.clean_step(rt, round)
}

// ---- events

impl<P: NotingPen, G: Round<P>, J: Volumes, R: Wait> ScriptVolume<'_, P, G, J, R> {
    /// Mounts a checkpoint, and holds the mount. Its place is there before it is made.
    fn mount(&mut self, checkpoint: CheckpointNumber) -> Reply
        ensures { MountComes self.old checkpoint result self.new }
    {
        if self.mounts.reserve(1).is_err() {
            return Err(VolError::Memory);
        }
        // `match`, as behind `?` the refusal would need a lemma of its own
        match self.locked.mount(self.rt, checkpoint) {
            Err(refusal) => Err(refusal),
            Ok(mount) => {
                let number = mount.number();
                self.mounts.push_reserved(mount);
                Ok(Answer::Mount(number))
            }
        }
    }

    /// Gives a mount back. Refused, it is held on.
    fn unmount(&mut self, number: MountNumber) -> Reply
        ensures ran { Ran self.old.held (event.Unmount number) result self.new.held }
        ensures mounts { self.new.mounts ≡ mounts_left_by number result self.old.mounts }
    {
        match self.locked.unmount_number(self.rt, number) {
            Ok((answer, gone)) => {
                forget(&mut self.mounts, number, &gone);
                Ok(answer)
            }
            Err(refusal) => Err(refusal),
        }
    }

    /// What the port tells of a mount that is held, unless it doesn't find the mount.
    fn told(&mut self, number: MountNumber, ask: &Ask) -> Option<Reply>
        ensures told { IfSome result (IsHeldTold (mount_of number self.old.mounts) ask.now) }
        ensures same { self.new ≡ self.old }
    {
        let mount = mount_of(self.mounts.as_slice(), number)?;
        let reply = told(self.alloc, &mut self.port, mount, ask);
        if is_bad_mount(&reply) {
            drop(reply);
            None
        } else {
            Some(reply)
        }
    }

    /// Reads through a mount, of which the pen is asked where the port doesn't tell.
    fn read(&mut self, number: MountNumber, ask: &Ask, asked: &Event) -> Reply
        requires { asked.now ≡ event.MountRead number ask.now }
        ensures { ReadComes self.old number ask.now result self.new }
    {
        match self.told(number, ask) {
            Some(reply) => reply,
            None => self.locked.apply(self.rt, asked),
        }
    }
}

impl<P: NotingPen, G: Round<P>, J: Volumes + Send + Sync, R: Wait> Volume
    for ScriptVolume<'_, P, G, J, R> {
    type Pen = P;

    type Job = G;

    type Book = J;

    ghost habits = { shared_habits G.habits };

    ghost plans = { λ shown config moment job planned. planned };

    fn pen(&self) -> &P {
        self.locked.pen()
    }

    fn apply(&mut self, event: &Event) -> Reply {
        match event {
            Event::Mount(checkpoint) => self.mount(*checkpoint),
            Event::Unmount(number) => self.unmount(*number),
            Event::MountRead(number, ask) => self.read(*number, ask, event),
            _ => self.locked.apply(self.rt, event),
        }
    }

    fn mount_of(&self, mount: MountNumber) -> Option<&Mount<J>> {
        mount_of(self.mounts.as_slice(), mount)
    }

    fn clean_step(&mut self, job: &mut G) -> Option<Reply> {
        step_round(self.rt, &mut self.locked, job)
    }
}
