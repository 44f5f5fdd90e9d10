//! The pen: what the writer of a volume holds, the device included.
ghost use Rattle.std.specs.Prelude.{◌≡◌, ◌↔◌, ◌⊎◌, ◌<◌, ◌≤◌, ◌∷◌, [], false, IfErr, IfOk, IsErr, IsErrOf, IsTrue, OnErr, IsOkUnless, length};
ghost use Rattle.std.specs.Option.{option_map};
ghost use Rattle.nl_types.specs.Plain.Runs.{Run};
ghost use Rattle.nl_types.specs.Plain.Rows.{kept_row};
ghost use Rattle.nl_types.specs.Plain.Worlds as worlds;
ghost use Rattle.nl_types.specs.Plain.Worlds.{World, formatted};
ghost use Rattle.nl_cpfile.specs.Tables as cpfile;
ghost use Rattle.nl_core.specs.Views.{counted};
ghost use Rattle.nl_dat.specs.Described.{descs_of};
ghost use Rattle.nl_vstore.specs.Stores.{capacity, numbered_in};
ghost use Rattle.nl_dat.specs.Table.{dat_entry_of};
ghost use Rattle.nl_vstore.specs.Summaries.{payload_row};
ghost use Rattle.nl_vstore.specs.Located.{needed_count, payload_count_in};
ghost use Rattle.nl_commit.specs.CleaningEvents.{needed_by};
ghost use Rattle.nl_commit.specs.CleanerViews.{cleaning_event, counts_after, needed_after, needed_told};
ghost use Rattle.nl_commit.specs.Commits.{IsHistory, shown_after};
ghost use Rattle.nl_commit.specs.Shown.{MountsRise};
ghost use Rattle.nl_commit.specs.Notes.{DoesNoting, shown_of};
ghost use Rattle.nl_commit.specs.Volume.{boundary_in, without_mounts};

use crate::closing::image_of;
use nl_commit::Commit;
use nl_cpfile::Cpstat;
use nl_dat::{Bdesc, Dat, DatEntry};
use nl_device::Device;
use nl_events::{NoNotes, Parts, Room, is_same_file, is_same_tree};
use nl_names::Name;
use nl_protect::boundary;
use nl_segwriter::LogSpace;
use nl_sufile::{SegTable, SegmentCounts};
use nl_types::{
    Ask, CheckpointNumber, Event, Geometry, MAX_PAYLOAD, Moment, Reply, Row, Segment,
    VirtualNumber, VolError,
};
use nl_vstore::Vstore;
use std::alloc::Global;
use std::marker::Model;

/// The writer's state of a volume: its tables in memory, the store of its blocks on the device that it writes
/// to, and how many needed blocks each segment has.
#[derive(Drop)]
pub struct Pen<D: Device> {
    parts: Parts<Dat<LogSpace<D>>>,
}

impl<D: Device> Model for Pen<D> {
    ghost use Rattle.nl_commit.specs.Layout.{Layout};

    ghost Value = { Layout };

    ghost view = { λ p. p.parts };
}

ghost use Rattle.nl_commit.specs.Layout.{IsPen, Does, MeansWorld, ReadsCopy, Runs, blank_layout, layout_of, unshared};
ghost use Rattle.nl_commit.specs.Tables.{blank_lists};

impl<D: Device> Pen<D> {
    ghost use Rattle.nl_commit.specs.Layout.{IsFormatted, Layout};
    ghost use Rattle.nl_vstore.specs.Stores.{KeepsStored};
    ghost use Rattle.nl_core.specs.PenImages.{CanBeClosed, IsImageBeside, IsPenImage};
    ghost use Rattle.std.specs.Prelude.{ℕ};
    ghost use Rattle.nl_tree.specs.Weights.{IsNoLess};
    ghost use Rattle.nl_events.specs.Rooms.{HasRoom, HasToWrite};
    ghost use Rattle.nl_core.specs.SameFiles.{HaveOneFile, HaveOneInode};
    ghost use Rattle.nl_core.specs.SameTrees.{HaveOneRoot, HaveOneTree};

    /// A volume on a device of this geometry, with checkpoint 1 of the root alone, which it writes. What the
    /// device holds is no part of it.
    ///
    /// Refused by `Memory`, and by `Fault` where the device fails; the device is dropped then.
    pub fn format(alloc: Global, device: D, geometry: Geometry, now: u64) -> Result<Self, VolError>
        requires shape { D.shape device ≡ geometry }
        ensures means { IfOk result (λ pen. MeansWorld pen (formatted now)) }
        ensures formatted { IfOk result (IsFormatted geometry (D.pages device) (D.failed device) now) }
        ensures pen { IfOk result IsPen }
        ensures refused { IfErr result (λ e. (e ≡ VolError.Memory) ⊎ (e ≡ VolError.Fault)) }
    {
        let store = blank_store(alloc, device, geometry)?;
        let parts = Parts::format(alloc, store, now)?;
        Ok(Pen { parts })
    }

    /// The pen of the parts of a volume.
    pub(crate) fn of_parts(parts: Parts<Dat<LogSpace<D>>>) -> Self
        ensures layout { result ≡ parts }
        ensures pen { IsPen result }
    {
        parts.means_a_world();
        Pen { parts }
    }

    /// Every pen means a world, and is sound. This says so to its callers, and does nothing.
    pub fn means_a_world(&self)
        ensures { IsPen self.now }
    {
        self.parts.means_a_world();
    }

    /// What a virtual block number stands for: its period and its block, where it is in use. Refused by
    /// `BadRange` for 0 and for numbers above those that there are: one for each block of the device. It
    /// takes no memory.
    pub fn entry(&self, number: VirtualNumber) -> Result<Option<DatEntry>, VolError>
        ensures range { IsErr result ↔ ((number ≡ 0) ⊎ (capacity self.now.store < number)) }
        ensures kind { OnErr result (result ≡ Err VolError.BadRange) }
        ensures entry { IfOk result (λ entry.
            entry ≡ option_map dat_entry_of (numbered_in self.now.store number)) }
    {
        self.parts.store.entry(number)
    }

    /// The states of the segments.
    pub fn segments(&self) -> &SegTable
        ensures { result.now ≡ self.now.store.segments }
    {
        self.parts.store.table()
    }

    /// A description of each payload block of the logs of a segment, in the order of the blocks, be their
    /// numbers in use or not. Refused by `BadRange` where there is no such segment, and by `Memory` for the
    /// list.
    pub fn bdescs(&self, alloc: Global, segment: Segment) -> Result<Vec<Bdesc>, VolError>
        ensures range { IsErrOf result VolError.BadRange
            ↔ (length self.now.store.segments.each ≤ segment) }
        ensures kinds { IfErr result (λ e. (e ≡ VolError.BadRange) ⊎ (e ≡ VolError.Memory)) }
        ensures descs { IfOk result (λ descs. descs.items
            ≡ descs_of self.now.store segment (payload_row self.now.store segment)) }
    {
        self.parts.store.bdescs(alloc, segment)
    }

    /// Whether the current tree may differ from the latest checkpoint's.
    pub fn is_dirty(&self) -> bool
        ensures layout { result ≡ self.now.lists.dirty }
        ensures world { (w : World) → MeansWorld self.now w → result ≡ w.dirty }
    {
        self.parts.tables.is_dirty()
    }

    /// The latest checkpoint's number.
    pub fn latest(&self) -> CheckpointNumber
        ensures layout { result ≡ self.now.lists.table.latest.number }
        ensures world { (w : World) → MeansWorld self.now w → result ≡ worlds.latest w }
    {
        let parts = &self.parts;
        parts.tables.latest()
    }

    /// What is told of a kept checkpoint. It takes no memory. Refused by `NoCheckpoint` where it isn't kept.
    pub fn cpinfo(&self, number: CheckpointNumber) -> Result<Row, VolError>
        ensures layout { result ≡ kept_row number (cpfile.rows self.now.lists.table) }
        ensures world { (w : World) → MeansWorld self.now w
            → result ≡ kept_row number (worlds.rows w) }
    {
        self.parts.tables.cpinfo(number)
    }

    /// How many checkpoints and snapshots are kept, and the latest one's number. It takes no memory.
    pub fn cpstat(&self) -> Cpstat
        ensures layout { result ≡ cpfile.cpstat_of self.now.lists.table }
        ensures world { (w : World) → MeansWorld self.now w → result ≡ counted w }
    {
        self.parts.tables.cpstat()
    }

    /// What the tree of a kept checkpoint answers, without a mount: of a plain one too, and of a minor one.
    /// Refused by `NoCheckpoint` where it isn't kept, as the call is, and by `Memory` where it isn't `stat`,
    /// which takes none.
    pub fn read_at(&self, number: CheckpointNumber, ask: &Ask) -> Reply
        ensures { ReadsCopy self.now number ask.now result }
    {
        let parts = &self.parts;
        parts.tables.read_at(parts.alloc, &parts.store, number, ask)
    }

    /// Whether a path leads to a file in the trees of two kept checkpoints, by one inode: kind, size and root
    /// are equal, so that the file is the same. It reads no block of the file, and takes no memory.
    pub fn is_same_file(&self, old: CheckpointNumber, new: CheckpointNumber, path: &[Name]) -> bool
        ensures exact { IsTrue result ↔ HaveOneInode self.now old new path.now }
        ensures same { IsTrue result → HaveOneFile self.now old new path.now }
    {
        self.means_a_world();
        let parts = &self.parts;
        is_same_file(&parts.store, parts.tables.checkpoints(), old, new, path)
    }

    /// Whether two kept checkpoints have one root, so that their trees are the same. It reads no block, and
    /// takes no memory. It may answer no where the trees are the same too.
    pub fn is_same_tree(&self, old: CheckpointNumber, new: CheckpointNumber) -> bool
        ensures exact { IsTrue result ↔ HaveOneRoot self.now old new }
        ensures same { IsTrue result → HaveOneTree self.now old new }
    {
        let parts = &self.parts;
        is_same_tree(parts.tables.checkpoints(), old, new)
    }

    /// How many mounts there are.
    pub fn mount_count(&self) -> usize
        ensures layout { result ≡ length self.now.lists.mounts }
        ensures world { (w : World) → MeansWorld self.now w → result ≡ length w.mounts }
    {
        self.parts.tables.mount_count()
    }

    /// The boundary of protection: plain checkpoints below it may go.
    pub fn boundary(&self, now: Moment, period: u64) -> CheckpointNumber
        ensures layout { result ≡ boundary_in self.now.lists.table now period }
        ensures low { result ≤ self.now.lists.table.latest.number }
        ensures world { (w : World) → MeansWorld self.now w → result ≡ worlds.boundary_of w now period }
    {
        boundary(self.parts.tables.checkpoints(), now, period)
    }

    /// How many numbers whose pages stand in a segment are needed once the plain checkpoints below one are
    /// gone. From 0 on none goes. It looks at each block of the segment; there is none where there is no such
    /// segment.
    pub fn needed_in(&self, segment: Segment, below: CheckpointNumber) -> u32
        ensures { result ≡ needed_after self.now below segment }
    {
        self.parts.needed_in(segment, below)
    }

    /// How many needed blocks a segment has. Refused by `BadRange` where there is no such segment. It takes
    /// no memory.
    pub fn needed(&self, segment: Segment) -> Result<u32, VolError>
        ensures { result ≡ needed_told self.now segment }
    {
        self.parts.needed(segment)
    }

    /// How many needed blocks a segment has: 0 where there is no such segment.
    fn count_in(&self, segment: Segment) -> u32
        ensures { result ≡ needed_count self.now.store (needed_by self.now.lists) segment }
    {
        self.means_a_world();
        match self.needed(segment) {
            Ok(count) => count,
            Err(_) => 0,
        }
    }

    /// How many needed blocks each segment has once the plain checkpoints below one are gone. It looks at
    /// those alone that have ended at one of these. Refused by `Memory` alone.
    pub fn counts_after(
        &self,
        alloc: Global,
        below: CheckpointNumber,
    ) -> Result<SegmentCounts, VolError>
        requires { below ≤ self.now.lists.table.latest.number }
        ensures counts { IfOk result (λ counts. counts ≡ counts_after self.now below) }
        ensures refused { IsOkUnless result VolError.Memory }
    {
        self.parts.counts_after(alloc, below)
    }

    /// How many blocks of the logs of a segment have payload, be their numbers in use or not: 0 where there
    /// is no such segment.
    pub fn payload_count(&self, segment: Segment) -> u32
        ensures { result ≡ payload_count_in self.now.store segment }
    {
        self.parts.payload_count(segment)
    }

    /// The event that cleans a segment next: its retirement, or a move where pages in it are needed.
    pub fn cleaning_event(&self, segment: Segment, now: u64) -> Event
        ensures { result ≡ cleaning_event self.now segment now }
    {
        if self.count_in(segment) == 0 {
            Event::Retire(segment)
        } else {
            Event::Move {
                segment,
                limit: MAX_PAYLOAD,
                now,
            }
        }
    }

    /// One event. A refusal leaves the world as it was. `NoSpace` comes only of a checkpoint or a move of
    /// which no list of logs fits what is written, `Fault` only where the device failed during one, and
    /// `Memory` only by want of memory. `nl_core::laws` has what follows.
    pub fn apply(&mut self, event: &Event) -> Reply
        ensures { Does unshared self.old event.now result self.new }
    {
        self.parts.step(event, &mut NoNotes)
    }

    /// One event beside readers, who are told of it by a commit behind the others in `notes`, where it
    /// changes what they see. The commit's memory is taken before anything changes. Else it is as `apply`.
    pub fn apply_noting(&mut self, event: &Event, notes: &mut Vec<Commit>) -> Reply
        ensures { DoesNoting self.old event.now result self.new notes.old.items notes.new.items }
    {
        self.parts.step(event, notes)
    }

    /// The commit with which a history begins: it shows all that readers see of the pen. Refused by `Memory`
    /// alone.
    pub fn whole(&self) -> Result<Commit, VolError>
        ensures begins { IfOk result (λ commit. IsHistory (commit ∷ [])) }
        ensures state { IfOk result (λ commit. shown_after (commit ∷ []) ≡ shown_of self.now) }
        ensures mounts { IfOk result (λ commit. MountsRise (shown_after (commit ∷ []))) }
        ensures refused { IsOkUnless result VolError.Memory }
    {
        self.parts.means_a_world();
        let all = self.parts.whole()?;
        Ok(Commit::Whole(all))
    }

    /// Gives all mounts back. It takes no memory.
    pub fn give_all_back(&mut self)
        ensures layout { self.new ≡ layout_of (without_mounts self.old.lists) self.old.store }
        ensures world { (w : World) → MeansWorld self.old w → MeansWorld self.new (record w { mounts = [] }) }
    {
        self.parts.give_all_back();
    }

    /// How many blocks the next checkpoint has to write, and how many it has room for: where these are fewer,
    /// it is refused by `NoSpace`. It takes as much time and memory as the checkpoint without its writes:
    /// what changed since the latest one. Refused by `Memory` alone.
    pub fn room(&self) -> Result<Room, VolError>
        ensures room { IfOk result (HasRoom self.now) }
        ensures refused { IsOkUnless result VolError.Memory }
    {
        self.parts.room()
    }

    /// No fewer blocks than the next checkpoint has to write, as far as a `usize` goes: without a draft and
    /// without memory, in constant time, since file calls count what they change. So whoever writes asks for
    /// the room itself only where this is more than the segments have room for.
    pub fn room_bound(&self) -> usize
        ensures { (blocks : ℕ) → HasToWrite self.now blocks → IsNoLess blocks result }
    {
        self.parts.room_bound()
    }

    /// The image of a volume of which nothing is dirty, as it is once all mounts are given back. The mounts
    /// stay, and what they show. It reads each used block once from the device, in order. Refused by
    /// `Memory`, and by `Fault` where the device failed.
    pub fn image_beside(&mut self) -> Result<Vec<u8>, VolError>
        requires { self.old.lists.dirty ≡ false }
        ensures image { IfOk result (λ bytes. IsImageBeside self.old bytes.items) }
        ensures lists { self.new.lists ≡ self.old.lists }
        ensures same { KeepsStored self.old.store self.new.store }
        ensures counted { self.old.store.failures ≤ self.new.store.failures }
        ensures fault { IsErrOf result VolError.Fault
            → self.old.store.failures < self.new.store.failures }
        ensures refused { IfErr result (λ e. (e ≡ VolError.Fault) ⊎ (e ≡ VolError.Memory)) }
    {
        self.parts.means_a_world();
        image_of(&mut self.parts)
    }

    /// The image of a volume of which nothing is dirty and nothing mounted. It reads each used block once
    /// from the device, in order. Refused by `Memory`, and by `Fault` where the device failed.
    pub fn close(&mut self) -> Result<Vec<u8>, VolError>
        requires { CanBeClosed self.old.lists }
        ensures image { IfOk result (λ bytes. IsPenImage self.old bytes.items) }
        ensures lists { self.new.lists ≡ self.old.lists }
        ensures same { KeepsStored self.old.store self.new.store }
        ensures counted { self.old.store.failures ≤ self.new.store.failures }
        ensures fault { IsErrOf result VolError.Fault
            → self.old.store.failures < self.new.store.failures }
        ensures refused { IfErr result (λ e. (e ≡ VolError.Fault) ⊎ (e ≡ VolError.Memory)) }
    {
        image_of(&mut self.parts)
    }
}

/// The store of a device of this geometry, with no number in use. Refused by `Memory` alone; the device is
/// dropped then.
fn blank_store<D: Device>(
    alloc: Global,
    device: D,
    geometry: Geometry,
) -> Result<Dat<LogSpace<D>>, VolError>
    requires { D.shape device ≡ geometry }
    ensures blank { IfOk result (λ store.
        layout_of blank_lists store.store ≡ blank_layout geometry (D.pages device) (D.failed device)) }
    ensures refused { IsOkUnless result VolError.Memory }
{
    let space = LogSpace::new(alloc, device, geometry)?;
    let store = Dat::new(alloc, space)?;
    Ok(store)
}

/// Does the events in order. Each reply is that of plain files with a whole copied tree for each checkpoint.
/// Refused by `Memory` before the first event, or not at all.
pub fn run<D: Device>(
    alloc: Global,
    pen: &mut Pen<D>,
    events: &[Event],
) -> Result<Vec<Reply>, VolError>
    ensures run { IfOk result (λ replies.
        Run (Does unshared) pen.old events.now replies.items pen.new) }
    ensures worlds { IfOk result (λ replies.
        Runs unshared pen.old events.now replies.items pen.new) }
    ensures refused { IsOkUnless result VolError.Memory }
    ensures err { OnErr result (pen.new ≡ pen.old) }
{
    let mut replies = Vec::with_capacity(alloc, events.len())?;
    for event in events {
        let reply = pen.apply(event);
        if replies.push(reply).is_err() {
            unreachable!();
        }
    }
    Ok(replies)
}
