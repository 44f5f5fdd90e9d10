//! What the pen holds in memory: the current tree, kept checkpoints and mounts. Their blocks are in a store,
//! under virtual block numbers.
ghost use Rattle.std.specs.Prelude.{◌≡◌, ◌<◌, ◌≤◌, [], ◌∷◌, IfErr, IfOk, OnErr, OnOk, IsOkUnless, length};
ghost use Rattle.nl_types.specs.Plain.Calls as calls;
ghost use Rattle.nl_types.specs.Blocks.Roots.{Pages};
ghost use Rattle.nl_types.specs.Plain.Rows.{kept_row};
ghost use Rattle.nl_types.specs.Plain.Worlds as worlds;
ghost use Rattle.nl_cpfile.specs.Tables as cpfile;
ghost use Rattle.nl_types.specs.Plain.Worlds.{World};
ghost use Rattle.nl_vstore.specs.Stores.{content_in};
ghost use Rattle.nl_commit.specs.Notes as notes;

use crate::expiry::expire;
use nl_commit::{Draft, Mounted, Mounts, ShownPage, Whole};
use nl_cpfile::{Checkpoint, Checkpoints, Cpstat};
use nl_files::{ReadTree, most_births, settle};
use nl_layout::Root;
use nl_protect::needed;
use nl_reclaim::Keeping;
use nl_tree::{CurrentTree, answer};
use nl_types::{
    Answer, Ask, Change, CheckpointNumber, Items, ListOptions, Mode, Moment, MountNumber, Period,
    Reply, Row, VolError,
};
use nl_vstore::{Batch, VRead, Vstore};
use std::alloc::{AllocError, Global};
use std::marker::Model;

/// The greatest number of a checkpoint.
const LAST_CHECKPOINT: u64 = u64::MAX - 1;

/// The pen's tables. Contracts see what they hold, and for how many more checkpoints they have room.
#[derive(Drop)]
pub struct Tables {
    current: CurrentTree,
    dirty: bool,
    checkpoints: Checkpoints,
    mounts: Mounts,
}

impl Model for Tables {
    ghost use Rattle.nl_commit.specs.Tables.{RoomyLists};

    ghost Value = { RoomyLists };

    ghost use Rattle.nl_events.specs.Inside.{roomy_of};

    ghost view = { roomy_of };
}

impl Tables {
    ghost use Rattle.nl_types.specs.declared.event.Event.TheVariants.{Apply, Read, ChangeMode, Remove, RemoveRange, Expire, Mount, Unmount, MountRead, Listing};
    ghost use Rattle.nl_cpfile.specs.Searching.{IsLeastAbove};
    ghost use Rattle.nl_cpfile.specs.Tables.{ComesNext, IsTable, with_next};
    ghost use Rattle.nl_commit.specs.CleaningEvents.{kept_numbers};
    ghost use Rattle.nl_events.specs.NeededBlocks.{AreEarlier, taken_out};
    ghost use Rattle.nl_commit.specs.Changes.{HasChanged};
    ghost use Rattle.nl_commit.specs.Draft.{CanBeDrafted, HasFewNames, HasNextNumber, IsDraftRefusal, IsNextDraft};
    ghost use Rattle.nl_commit.specs.Layout.{layout_of};
    ghost use Rattle.nl_tree.specs.Weights.{IsNoLess};
    ghost use Rattle.nl_files.specs.Bounds.{most_births};
    ghost use Rattle.nl_events.specs.Rooms.{HasToWrite};
    ghost use Rattle.nl_commit.specs.Means.{ReadsCopyOver, StepsWorldsOver, Means};
    ghost use Rattle.nl_commit.specs.Tables.{blank_lists};
    ghost use Rattle.nl_commit.specs.Volume.{IsTakenOut, IsExpired, IsTakenOutRange, is_held_at, latest_alone, latest_root, minor_checkpoint, published, with_change, with_checkpoint_mode, with_mount, without_mount, without_mounts};
    ghost use Rattle.nl_commit.specs.Notes.{has_other_mode};
    ghost use Rattle.nl_events.specs.Opened.{opened_lists};
    ghost use Rattle.nl_commit.specs.Shown.{MountsRise, whole_of};

    /// The tables before a volume is formatted: the root alone, over a checkpoint 0 without files. Refused by
    /// `Memory` alone.
    pub fn blank(alloc: Global) -> Result<Tables, VolError>
        ensures blank { IfOk result (λ tables. tables.lists ≡ blank_lists) }
        ensures refused { IsOkUnless result VolError.Memory }
    {
        let blank = Checkpoint {
            number: CheckpointNumber::new(0),
            mode: Mode::Plain,
            minor: false,
            stamp: 0,
            root: Root::Empty,
            inodes: 0,
        };
        Ok(Tables {
            current: CurrentTree::first(alloc)?,
            dirty: false,
            checkpoints: Checkpoints::new(alloc, blank),
            mounts: Mounts::new(alloc),
        })
    }

    /// The tables of a volume that was just opened, over the checkpoints that its image keeps: nothing
    /// differs from the latest one, there is no mount, and no mount number was given. Takes no memory.
    pub fn opened(alloc: Global, checkpoints: Checkpoints) -> Tables
        requires { 1 ≤ checkpoints.table.latest.inodes }
        ensures lists { result.lists ≡ opened_lists checkpoints.table }
        ensures table { IsTable result.lists.table }
    {
        // Of its inodes one is the root's, which no name leads to.
        let names = checkpoints.latest().inodes - 1;
        Tables {
            current: CurrentTree::new(alloc, names),
            dirty: false,
            checkpoints,
            mounts: Mounts::new(alloc),
        }
    }

    /// Whether the current tree may differ from the latest checkpoint's.
    pub fn is_dirty(&self) -> bool
        ensures { result ≡ self.now.lists.dirty }
    {
        self.dirty
    }

    /// The latest checkpoint's number.
    pub fn latest(&self) -> CheckpointNumber
        ensures { result ≡ self.now.lists.table.latest.number }
    {
        self.checkpoints.latest().number
    }

    /// The least kept number above one that is below the latest. Takes no memory.
    pub fn first_above(&self, number: CheckpointNumber) -> CheckpointNumber
        requires { number < self.now.lists.table.latest.number }
        ensures { IsLeastAbove number (kept_numbers self.now.lists) result }
    {
        self.checkpoints.first_above(number)
    }

    /// The kept checkpoints.
    pub fn checkpoints(&self) -> &Checkpoints
        ensures { result.now.table ≡ self.now.lists.table }
    {
        &self.checkpoints
    }

    /// What is told of a kept checkpoint, without memory. Refused by `NoCheckpoint` where it isn't kept.
    pub fn cpinfo(&self, number: CheckpointNumber) -> Result<Row, VolError>
        ensures { result ≡ kept_row number (cpfile.rows self.now.lists.table) }
    {
        self.checkpoints.cpinfo(number)
    }

    /// How many checkpoints and snapshots are kept, and the latest one's number.
    pub fn cpstat(&self) -> Cpstat
        ensures { result ≡ cpfile.cpstat_of self.now.lists.table }
    {
        self.checkpoints.cpstat()
    }

    /// How many mounts there are.
    pub fn mount_count(&self) -> usize
        ensures { result ≡ length self.now.lists.mounts }
    {
        self.mounts.as_slice().len()
    }

    /// All that readers see, with these numbers.
    pub fn whole(
        &self,
        alloc: Global,
        numbers: Items<Option<ShownPage>>,
    ) -> Result<Whole, AllocError>
        ensures lists { IfOk result (λ w. whole_of w ≡ record {
          numbers = numbers;
          table = self.now.lists.table;
          mounts = self.now.lists.mounts;
          given = self.now.lists.given;
        }) }
        ensures mounts { IfOk result (λ w. MountsRise (whole_of w)) }
    {
        let earlier = self.checkpoints.earlier().to_vec(alloc)?;
        let mounts = self.mounts.as_slice().to_vec(alloc)?;
        Ok(Whole {
            numbers,
            earlier: Items::from_vec(earlier),
            latest: *self.checkpoints.latest(),
            mounts: Items::from_vec(mounts),
            given: self.mounts.given(),
        })
    }

    /// Gives all mounts back, without memory.
    pub fn give_all_back(&mut self)
        ensures { self.new.lists ≡ without_mounts self.old.lists }
    {
        self.mounts.clear();
    }

    /// The root of the latest checkpoint, over which the current tree stands.
    fn base_root(&self) -> Root
        ensures { result ≡ latest_root self.now.lists }
    {
        self.checkpoints.latest().root
    }

    /// A change of the current tree. Refused as the call is, and by `Memory`.
    pub fn change<V: VRead>(&mut self, alloc: Global, store: &V, change: &Change) -> Reply
        requires { (w : World) × Means (V.pages store.now) self.old.lists w }
        ensures follows { StepsWorldsOver (V.pages store.now) self.old.lists
            (Apply change.now) result self.new.lists }
        ensures lists { IfOk result (λ _.
            self.new.lists ≡ with_change change.now self.new.lists.current self.old.lists) }
        ensures changed { IfOk result (λ _.
            HasChanged (V.pages store.now) change.now self.old.lists self.new.lists) }
        ensures same { OnErr result (self.new.lists ≡ self.old.lists) }
    {
        let base = ReadTree::new(store, self.base_root());
        let answer = self.current.change(alloc, &base, change)?;
        self.dirty = self.dirty || is_dirtying(change);
        Ok(answer)
    }

    /// What the current tree answers. Refused as the call is, and by `Memory`.
    pub fn read<V: VRead>(&self, alloc: Global, store: &V, ask: &Ask) -> Reply
        ensures { StepsWorldsOver (V.pages store.now) self.now.lists (Read ask.now) result self.now.lists }
    {
        let base = ReadTree::new(store, self.base_root());
        answer(alloc, &self.current.view(&base), ask)
    }

    /// Mounts a snapshot. Refused by `NoCheckpoint` where there is none of the number, by `NotSnapshot` where
    /// it is a plain checkpoint, by `NumbersSpent` where no mount number is left, and by `Memory`.
    pub fn mount(&mut self, number: CheckpointNumber) -> Reply
        ensures follows { (pages : Pages)
            → StepsWorldsOver pages self.old.lists (Mount number) result self.new.lists }
        ensures mounted { IfOk result (λ _. self.new.lists ≡ with_mount number self.old.lists) }
        ensures same { OnErr result (self.new.lists ≡ self.old.lists) }
    {
        match self.checkpoints.kept(number) {
            None => return Err(VolError::NoCheckpoint),
            Some(checkpoint) => match checkpoint.mode {
                Mode::Plain => return Err(VolError::NotSnapshot),
                Mode::Snapshot => {}
            },
        }
        let given = self.mounts.given();
        if given == u64::MAX {
            return Err(VolError::NumbersSpent);
        }
        let mount = MountNumber::new(given + 1);
        self.mounts.add(Mounted {
            number: mount,
            checkpoint: number,
        })?;
        Ok(Answer::Mount(mount))
    }

    /// What the tree of a kept checkpoint answers. Refused by `NoCheckpoint` where it isn't kept, as the call
    /// is, and by `Memory` where it isn't `stat`, which takes none.
    pub fn read_at<V: VRead>(
        &self,
        alloc: Global,
        store: &V,
        number: CheckpointNumber,
        ask: &Ask,
    ) -> Reply
        ensures { ReadsCopyOver (V.pages store.now) self.now.lists number ask.now result }
    {
        let Some(checkpoint) = self.checkpoints.kept(number) else {
            return Err(VolError::NoCheckpoint);
        };
        answer(alloc, &ReadTree::new(store, checkpoint.root), ask)
    }

    /// What the tree of a mounted snapshot answers, which is kept. Refused by `BadMount` where there is no
    /// such mount, as the call is, and by `Memory`.
    pub fn read_mounted<V: VRead>(
        &self,
        alloc: Global,
        store: &V,
        mount: MountNumber,
        ask: &Ask,
    ) -> Reply
        ensures { StepsWorldsOver (V.pages store.now) self.now.lists
            (MountRead mount ask.now) result self.now.lists }
    {
        let Some(number) = self.mounts.find(mount) else {
            return Err(VolError::BadMount);
        };
        self.read_at(alloc, store, number, ask)
    }

    /// Keeps a checkpoint in this mode, without memory. Refused by `NoCheckpoint` where it isn't kept, and by
    /// `Mounted` where a mounted snapshot would become plain.
    pub fn change_mode(&mut self, number: CheckpointNumber, mode: Mode) -> Reply
        ensures follows { (pages : Pages)
            → StepsWorldsOver pages self.old.lists (ChangeMode number mode) result self.new.lists }
        ensures changed { IfOk result (λ _.
            self.new.lists ≡ with_checkpoint_mode number mode self.old.lists) }
        ensures same { OnErr result (self.new.lists ≡ self.old.lists) }
    {
        if self.is_held(number, mode) {
            return Err(VolError::Mounted);
        }
        self.checkpoints.set_mode(number, mode)?;
        Ok(Answer::Done)
    }

    /// Whether a mount keeps a checkpoint from this mode: a mounted snapshot stays one.
    fn is_held(&self, number: CheckpointNumber, mode: Mode) -> bool
        ensures { result ≡ is_held_at number mode self.now.lists }
    {
        let mounted = self.mounts.shows(number);
        match self.checkpoints.cpinfo(number) {
            Ok(row) => is_given_up(row.mode, mode) && mounted,
            Err(_) => false,
        }
    }

    /// Whether a checkpoint is kept in another mode.
    pub fn has_other_mode(&self, number: CheckpointNumber, mode: Mode) -> bool
        ensures { result ≡ has_other_mode number mode self.now.lists.table }
    {
        match self.checkpoints.kept(number) {
            Some(checkpoint) => is_other_mode(checkpoint.mode, mode),
            None => false,
        }
    }

    /// Removes a checkpoint, without memory. Refused by `NoCheckpoint` where it isn't kept, by `IsSnapshot`
    /// where it is a snapshot, and by `Latest` where it is the latest one.
    pub fn remove(&mut self, number: CheckpointNumber) -> Reply
        ensures follows { (pages : Pages)
            → StepsWorldsOver pages self.old.lists (Remove number) result self.new.lists }
        ensures removed { IfOk result (λ _. IsTakenOut (number ∷ []) self.old.lists self.new.lists) }
        ensures low { IfOk result (λ _. number < self.old.lists.table.latest.number) }
        ensures same { OnErr result (self.new.lists ≡ self.old.lists) }
    {
        self.checkpoints.remove(number)?;
        Ok(Answer::Done)
    }

    /// Removes the checkpoints of a range but for snapshots and the latest one, and answers what became of
    /// each. Refused by `BadRange` where the first number is 0 or above the last one, by `NoCheckpoint` where
    /// none of the range is kept, and by `Memory`.
    pub fn remove_range(
        &mut self,
        alloc: Global,
        first: CheckpointNumber,
        last: CheckpointNumber,
    ) -> Reply
        ensures follows { (pages : Pages)
            → StepsWorldsOver pages self.old.lists (RemoveRange first last) result self.new.lists }
        ensures removed { IfOk result (λ answer.
            IsTakenOutRange first last answer self.old.lists self.new.lists) }
        ensures earlier { IfOk result (λ answer. AreEarlier (taken_out answer) self.old.lists) }
        ensures same { OnErr result (self.new.lists ≡ self.old.lists) }
    {
        let range = self.checkpoints.remove_range(alloc, first, last)?;
        Ok(Answer::Removed(range))
    }

    /// Removes the plain checkpoints below the boundary of protection but for the latest one, and answers
    /// their numbers. Refused by `Memory` alone.
    pub fn expire(&mut self, alloc: Global, now: Moment, period: u64) -> Reply
        ensures follows { (pages : Pages)
            → StepsWorldsOver pages self.old.lists (Expire now period) result self.new.lists }
        ensures expired { IfOk result (λ answer. IsExpired now period answer self.old.lists self.new.lists) }
        ensures earlier { IfOk result (λ answer. AreEarlier (taken_out answer) self.old.lists) }
        ensures same { OnErr result (self.new.lists ≡ self.old.lists) }
    {
        let gone = expire(alloc, &mut self.checkpoints, now, period)?;
        Ok(Answer::Expired(gone))
    }

    /// Gives a mount back, without memory. Refused by `BadMount` where there is no such mount.
    pub fn unmount(&mut self, mount: MountNumber) -> Reply
        ensures follows { (pages : Pages)
            → StepsWorldsOver pages self.old.lists (Unmount mount) result self.new.lists }
        ensures gone { IfOk result (λ _. self.new.lists ≡ without_mount mount self.old.lists) }
        ensures same { OnErr result (self.new.lists ≡ self.old.lists) }
    {
        if self.mounts.find(mount).is_none() {
            return Err(VolError::BadMount);
        }
        self.mounts.take_out(mount);
        Ok(Answer::Done)
    }

    /// What is told of the kept checkpoints that a listing shows. Refused by `Memory` alone.
    pub fn listing(&self, alloc: Global, options: &ListOptions) -> Reply
        ensures { (pages : Pages)
            → StepsWorldsOver pages self.now.lists (Listing options.now) result self.now.lists }
    {
        let rows = self.checkpoints.listing(alloc, options)?;
        Ok(Answer::Rows(rows))
    }

    /// The latest checkpoint, where there is a number for one more, and room for that one. Refused by
    /// `NumbersSpent` and `Memory`.
    fn latest_with_room(&mut self) -> Result<Checkpoint, VolError>
        ensures same { self.new.lists ≡ self.old.lists }
        ensures latest { IfOk result (λ latest. latest ≡ self.old.lists.table.latest) }
        ensures left { OnOk result (HasNextNumber self.old.lists) }
        ensures refused { IfErr result (IsDraftRefusal self.old.lists) }
        ensures room { OnOk result (0 < self.new.room) }
    {
        let latest = *self.checkpoints.latest();
        if latest.number.get() >= LAST_CHECKPOINT {
            return Err(VolError::NumbersSpent);
        }
        self.checkpoints.reserve()?;
        Ok(latest)
    }

    /// The next checkpoint, with all the memory that it takes. Refused by `NumbersSpent` and `Memory`.
    pub fn draft<V: Vstore>(
        &mut self,
        alloc: Global,
        store: &V,
        mode: Mode,
        moment: u64,
    ) -> Result<Draft, VolError>
        requires base { CanBeDrafted (content_in (V.store store.now)) self.old.lists }
        requires few { HasFewNames self.old.lists }
        ensures same { self.new.lists ≡ self.old.lists }
        ensures drafted { IfOk result (IsNextDraft (V.store store.now) mode moment self.old.lists) }
        ensures refused { IfErr result (IsDraftRefusal self.old.lists) }
        ensures room { OnOk result (0 < self.new.room) }
    {
        let latest = self.latest_with_room()?;
        let mut batch = Batch::new(alloc);
        let root = settle(alloc, store, &mut batch, latest.root, &self.current)?;
        Ok(Draft {
            checkpoint: Checkpoint {
                number: CheckpointNumber::new(latest.number.get() + 1),
                mode,
                minor: false,
                stamp: moment.max(latest.stamp),
                root,
                inodes: self.current.names() + 1,
            },
            batch,
        })
    }

    /// How many blocks the next checkpoint has to write. It costs what its draft does, and keeps nothing of
    /// that. Refused by `Memory` alone.
    pub fn blocks_to_write<V: Vstore>(&self, alloc: Global, store: &V) -> Result<usize, VolError>
        requires { CanBeDrafted (content_in (V.store store.now)) self.now.lists }
        ensures blocks { IfOk result (HasToWrite (layout_of self.now.lists (V.store store.now))) }
        ensures refused { IsOkUnless result VolError.Memory }
    {
        let root = self.checkpoints.latest().root;
        let mut batch = Batch::new(alloc);
        settle(alloc, store, &mut batch, root, &self.current)?;
        Ok(batch.births().len())
    }

    /// No fewer blocks than the next checkpoint has to write. It takes constant time, and no memory.
    pub fn room_bound(&self) -> usize
        ensures { IsNoLess (most_births self.now.lists.current.became) result }
    {
        most_births(&self.current)
    }

    /// Keeps the next checkpoint, whose blocks are written, and answers its number.
    pub fn publish(&mut self, checkpoint: Checkpoint) -> CheckpointNumber
        requires room { 0 < self.old.room }
        requires next { ComesNext checkpoint self.old.lists.table }
        ensures lists { self.new.lists ≡ published checkpoint self.old.lists }
        ensures number { result ≡ checkpoint.number }
    {
        let number = checkpoint.number;
        self.checkpoints.add(checkpoint);
        self.current.settled();
        self.dirty = false;
        number
    }

    /// The latest checkpoint once more, as the volume keeps it by itself under the next number, and room for
    /// it. Refused by `NumbersSpent` and `Memory`.
    pub fn draft_minor(&mut self, moment: u64) -> Result<Checkpoint, VolError>
        ensures same { self.new.lists ≡ self.old.lists }
        ensures left { OnOk result (HasNextNumber self.old.lists) }
        ensures drafted { IfOk result (λ minor. minor ≡ minor_checkpoint moment self.old.lists) }
        ensures refused { IfErr result (IsDraftRefusal self.old.lists) }
        ensures room { OnOk result (0 < self.new.room) }
    {
        let latest = self.latest_with_room()?;
        Ok(Checkpoint {
            number: CheckpointNumber::new(latest.number.get() + 1),
            mode: Mode::Plain,
            minor: true,
            stamp: latest.stamp.max(moment),
            ..latest
        })
    }

    /// Keeps a checkpoint that the volume made by itself: the current tree and whether it is dirty stay.
    pub fn publish_minor(&mut self, minor: Checkpoint)
        requires room { 0 < self.old.room }
        requires next { ComesNext minor self.old.lists.table }
        ensures { self.new.lists
            ≡ record self.old.lists { table = with_next minor self.old.lists.table } }
    {
        self.checkpoints.add(minor);
    }

    /// Forgets all checkpoints but the latest one.
    pub fn forget_earlier(&mut self)
        ensures { self.new.lists ≡ latest_alone self.old.lists }
    {
        self.checkpoints.forget_earlier();
    }
}

/// What all checkpoints need that a volume keeps.
impl Keeping for Tables {
    ghost use Rattle.nl_commit.specs.CleaningEvents.{kept_numbers};

    ghost kept = { λ t. kept_numbers t.lists };

    fn is_needed(&self, period: Period) -> bool {
        needed(&self.checkpoints, CheckpointNumber::new(0), period)
    }
}

/// Whether a snapshot becomes plain.
fn is_given_up(old: Mode, new: Mode) -> bool
    ensures { result ≡ worlds.is_given_up old new }
{
    old.is_snapshot() && !new.is_snapshot()
}

/// Whether one of the modes is given up for the other.
fn is_other_mode(old: Mode, new: Mode) -> bool
    ensures { result ≡ notes.is_other_mode old new }
{
    is_given_up(old, new) || is_given_up(new, old)
}

/// Whether a change that is done may make the current tree differ from the latest checkpoint's.
fn is_dirtying(change: &Change) -> bool
    ensures { result ≡ calls.is_dirtying change.now }
{
    match change {
        Change::Write { bytes, .. } => !bytes.as_slice().is_empty(),
        Change::Rename { from, to } => from.as_slice() != to.as_slice(),
        Change::Create { .. }
        | Change::Mkdir { .. }
        | Change::Truncate { .. }
        | Change::Unlink { .. }
        | Change::Rmdir { .. } => true,
    }
}
