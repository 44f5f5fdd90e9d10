//! Events that leave the store: they ask, or change lists alone, each with the commit that tells readers of it.
ghost use Rattle.std.specs.Prelude.{◌≡◌, ◌∷◌, [], ◌-◌, if◌then◌else◌, Some};
ghost use Rattle.nl_commit.specs.Layout.{Does, LeavesStore, unshared};
ghost use Rattle.nl_commit.specs.Notes.{DoesTelling, known_commit, made, mounted_as, noted_of, where_gone};
ghost use Rattle.nl_commit.specs.Volume.{boundary_in};

use crate::notes::Notes;
use crate::parts::Parts;
use crate::tables::Tables;
use nl_commit::{Commit, Mounted};
use nl_protect::boundary;
use nl_types::{Answer, CheckpointNumber, Event, Mode, Moment, MountNumber, Reply};
use nl_vstore::Vstore;

// ---- commits

/// The number just below the boundary of protection.
fn last_unprotected(tables: &Tables, now: Moment, period: u64) -> CheckpointNumber
    ensures { result ≡ boundary_in tables.now.lists.table now period - 1 }
{
    let first = boundary(tables.checkpoints(), now, period);
    CheckpointNumber::new(first.get().saturating_sub(1))
}

/// A change of a mode, where the checkpoint has another one.
fn mode_commit(tables: &Tables, number: CheckpointNumber, mode: Mode) -> Option<Commit>
    ensures { result ≡ known_commit tables.now.lists (Event.ChangeMode number mode) }
{
    if tables.has_other_mode(number, mode) {
        Some(Commit::ModeSet(number, mode))
    } else {
        None
    }
}

/// The commit that is known before an event, where it may have one. 0 stands for the number of a mount.
fn commit_before(tables: &Tables, event: &Event) -> Option<Commit>
    ensures { result ≡ known_commit tables.now.lists event.now }
{
    match event {
        Event::ChangeMode(number, mode) => mode_commit(tables, *number, *mode),
        Event::Remove(number) => Some(Commit::Removed(*number)),
        Event::RemoveRange { first, last } => Some(Commit::RangeRemoved {
            first: *first,
            last: *last,
        }),
        Event::Expire { now, period } => Some(Commit::RangeRemoved {
            first: CheckpointNumber::new(1),
            last: last_unprotected(tables, Moment::new(*now), *period),
        }),
        Event::Mount(checkpoint) => Some(Commit::Mounted(Mounted {
            number: MountNumber::new(0),
            checkpoint: *checkpoint,
        })),
        Event::Unmount(mount) => Some(Commit::GivenBack(*mount)),
        _ => None,
    }
}

/// A mount of a checkpoint, with the number that is answered.
fn mounted_by(answer: &Answer, checkpoint: CheckpointNumber) -> Option<Commit>
    ensures { made result ≡ mounted_as answer.now checkpoint }
{
    match answer {
        Answer::Mount(number) => Some(Commit::Mounted(Mounted {
            number: *number,
            checkpoint,
        })),
        _ => None,
    }
}

/// Whether a removal answers that anything is gone.
fn is_any_gone(answer: &Answer) -> bool
    ensures { (commit : Commit) → where_gone answer.now commit ≡ (if result then commit ∷ [] else []) }
{
    match answer {
        Answer::Removed(range) => !range.removed.is_empty(),
        Answer::Expired(gone) => !gone.is_empty(),
        _ => false,
    }
}

/// What is noted of a commit that was known before its event, once that has answered: a removal only where
/// anything is gone, a mount with its number.
fn commit_after(answer: &Answer, known: Commit) -> Option<Commit>
    ensures { made result ≡ noted_of answer.now known }
{
    match known {
        Commit::Mounted(mount) => mounted_by(answer, mount.checkpoint),
        Commit::RangeRemoved { first, last } => {
            if is_any_gone(answer) {
                Some(Commit::RangeRemoved { first, last })
            } else {
                None
            }
        }
        commit => Some(commit),
    }
}

// ---- events

impl<V: Vstore> Parts<V> {
    /// Does an event on the lists, each by its body.
    fn change_lists(&mut self, event: &Event) -> Reply
        requires { LeavesStore event.now }
        ensures { Does unshared self.old event.now result self.new }
    {
        match event {
            Event::Apply(change) => self.tables.change(self.alloc, &self.store, change),
            Event::Read(ask) => self.tables.read(self.alloc, &self.store, ask),
            Event::ChangeMode(number, mode) => self.tables.change_mode(*number, *mode),
            Event::Remove(number) => self.remove(*number),
            Event::RemoveRange { first, last } => self.remove_range(*first, *last),
            Event::Expire { now, period } => self.expire(Moment::new(*now), *period),
            Event::Mount(number) => self.tables.mount(*number),
            Event::Unmount(mount) => self.tables.unmount(*mount),
            Event::MountRead(mount, ask) => {
                self.tables
                    .read_mounted(self.alloc, &self.store, *mount, ask)
            }
            Event::Listing(options) => self.tables.listing(self.alloc, options),
            Event::Checkpoint { .. } | Event::Move { .. } | Event::Retire(_) | Event::Resize(_) =>
                unreachable!(),
        }
    }

    /// Does an event on the lists whose commit is known before it: room for that comes first.
    fn change_noting<N: Notes>(&mut self, event: &Event, commit: Commit, notes: &mut N) -> Reply
        requires leaves { LeavesStore event.now }
        requires commit { known_commit self.old.lists event.now ≡ Some commit }
        ensures { DoesTelling N.told self.old event.now result self.new
            (N.commits notes.old) (N.commits notes.new) }
    {
        self.means_a_world();
        notes.reserve()?;
        let answer = self.change_lists(event)?;
        notes.note(commit_after(&answer, commit));
        Ok(answer)
    }

    /// An event that leaves the store. Refused by `Memory` before anything changes, where its commit takes
    /// some, and as the lists refuse it.
    pub(crate) fn step_in_lists<N: Notes>(&mut self, event: &Event, notes: &mut N) -> Reply
        requires { LeavesStore event.now }
        ensures { DoesTelling N.told self.old event.now result self.new
            (N.commits notes.old) (N.commits notes.new) }
    {
        match commit_before(&self.tables, event) {
            Some(commit) => self.change_noting(event, commit, notes),
            None => self.change_lists(event),
        }
    }
}
