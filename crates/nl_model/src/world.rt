//! The volume: a current tree, whole copies of earlier trees, and mounts of these.
ghost use Rattle.std.specs.Prelude.{◌≡◌, ◌≢◌, ◌+◌, nat_le, true, false, IfErr, IfOk, Ok, OnOk, OnErr};
ghost use Rattle.nl_types.specs.Plain.Limits.{checkpoint_number_limit};
ghost use Rattle.nl_types.specs.declared.reply.Answer.TheVariants.{Rows};
ghost use Rattle.nl_types.specs.Plain.Calls.{IsUnlessMemory};
ghost use Rattle.nl_types.specs.Plain.Rows.{listing};
ghost use Rattle.nl_types.specs.Plain.Worlds.{formatted, rows, apply_change, checkpoint, is_moving, latest, move_blocks, with_minor, change_mode, take_out, remove, remove_range, expire, mount, unmount, mount_read, IsDoneUnlessMemory};
ghost use Rattle.nl_model.specs.Model.{ModelStep, cleaned_by};

use crate::copies::{
    Copies, Kept, find_copy, greatest_number, minor_copy, stamp_of_latest, with_mode, without,
};
use crate::dispatch::{make, marks_dirty, reply};
use crate::expiry::{boundary, expired};
use crate::judging::{find_row, range_removal, removal, rows_of};
use crate::listing::listing;
use crate::mounts::{Mounts, find_mount, is_mounted, without_mount};
use crate::tree::{self, Tree, root_alone_tree};
use nl_types::{
    Answer, Ask, Change, CheckpointNumber, Event, Items, ListOptions, Mode, MountNumber, Reply,
    VolError,
};
use std::alloc::{AllocError, Global};
use std::marker::Model;

/// A volume as its users see it. Contracts see the definitions' world.
#[derive(Drop)]
pub struct World {
    tree: Tree,
    /// Whether the current tree may differ from the latest copy.
    dirty: bool,
    copies: Copies,
    mounts: Mounts,
    /// How many mount numbers were given.
    given: u64,
}

impl Model for World {
    ghost use Rattle.nl_types.specs.Plain.Worlds.{World as Volume};

    ghost Value = { Volume };

    ghost view = { λ w. record {
      tree = w.tree;
      dirty = w.dirty;
      copies = w.copies;
      mounts = w.mounts;
      given = w.given;
    } };
}

/// Whether a volume moved blocks.
fn is_moving(reply: &Reply) -> bool
    ensures { result ≡ is_moving (cleaned_by reply.now) }
{
    matches!(reply, Ok(Answer::Moved { moved, .. }) if *moved != 0)
}

/// What a volume may answer to a move, a retirement or a resize.
fn cleaned_by(reply: &Reply) -> Reply
    ensures { result ≡ cleaned_by reply.now }
{
    match reply {
        Ok(Answer::Moved { moved, left }) => Ok(Answer::Moved {
            moved: *moved,
            left: *left,
        }),
        Ok(Answer::Freed(count)) => Ok(Answer::Freed(*count)),
        Ok(_) => Ok(Answer::Done),
        Err(error) => Err(*error),
    }
}

impl World {
    /// A new volume, by a rule of this project's own: the current tree has the root alone, and so
    /// has checkpoint 1, which is plain and bears the moment as its stamp. Fails only for memory.
    pub fn format(alloc: Global, moment: u64) -> Result<World, AllocError>
        ensures { IfOk result (λ world. world ≡ formatted moment) }
    {
        let tree = root_alone_tree(alloc)?;
        let mut copies = Items::new(alloc);
        let first = Kept {
            tree: root_alone_tree(alloc)?,
            mode: Mode::Plain,
            minor: false,
            stamp: moment,
        };
        copies.push((CheckpointNumber::new(1), first))?;
        Ok(World {
            tree,
            dirty: false,
            copies,
            mounts: Items::new(alloc),
            given: 0,
        })
    }

    fn change(&mut self, alloc: Global, asked: &Change) -> Reply
        ensures { IsDoneUnlessMemory result self.new self.old (apply_change self.old asked.now) }
    {
        let (answer, tree) = make(alloc, self.tree.as_slice(), asked)?;
        self.tree = tree;
        self.dirty = self.dirty || marks_dirty(asked);
        Ok(answer)
    }

    fn add_checkpoint(&mut self, alloc: Global, mode: Mode, moment: u64) -> Reply
        ensures { IsDoneUnlessMemory result self.new self.old (checkpoint self.old mode moment) }
    {
        let last = greatest_number(self.copies.as_slice());
        if last >= u64::MAX - 1 {
            return Err(VolError::NumbersSpent);
        }
        let n = CheckpointNumber::new(last + 1);
        let kept = Kept {
            tree: tree::copy(alloc, self.tree.as_slice())?,
            mode,
            minor: false,
            stamp: moment.max(stamp_of_latest(self.copies.as_slice())),
        };
        self.copies.push((n, kept))?;
        self.dirty = false;
        Ok(Answer::Checkpoint(n))
    }

    /// Keeps the latest copy once more, as the volume does by itself where it moves blocks.
    fn add_minor(&mut self, alloc: Global, moment: u64) -> Result<(), VolError>
        ensures added { OnOk result (self.new ≡ with_minor self.old moment) }
        ensures left { OnOk result (nat_le checkpoint_number_limit (latest self.old + 1) ≡ false) }
        ensures same { OnErr result (self.new ≡ self.old) }
        ensures spent { IfErr result (λ e. e ≢ VolError.Memory
            → (e ≡ VolError.NumbersSpent) × (nat_le checkpoint_number_limit (latest self.old + 1) ≡ true)) }
    {
        let last = greatest_number(self.copies.as_slice());
        if last >= u64::MAX - 1 {
            return Err(VolError::NumbersSpent);
        }
        let stamp = moment.max(stamp_of_latest(self.copies.as_slice()));
        let latest = CheckpointNumber::new(last);
        if let Some(kept) = minor_copy(alloc, self.copies.as_slice(), latest, stamp)? {
            self.copies.push((CheckpointNumber::new(last + 1), kept))?;
        }
        Ok(())
    }

    /// What a volume answered to a move; where it took blocks, it keeps the latest copy once more.
    fn move_blocks(&mut self, alloc: Global, cleaned: &Reply, moment: u64) -> Reply
        ensures { IsDoneUnlessMemory result self.new self.old
            (move_blocks (cleaned_by cleaned.now) self.old moment) }
    {
        if is_moving(cleaned) {
            self.add_minor(alloc, moment)?;
        }
        cleaned_by(cleaned)
    }

    fn set_mode(&mut self, alloc: Global, n: CheckpointNumber, mode: Mode) -> Reply
        ensures { IsDoneUnlessMemory result self.new self.old (change_mode self.old n mode) }
    {
        let told = rows_of(alloc, self.copies.as_slice())?;
        let Some(row) = find_row(told.as_slice(), n) else {
            return Err(VolError::NoCheckpoint);
        };
        let is_given_up = row.mode.is_snapshot() && !mode.is_snapshot();
        let is_shown = is_mounted(self.mounts.as_slice(), n);
        if is_given_up && is_shown {
            return Err(VolError::Mounted);
        }
        self.copies = with_mode(alloc, self.copies.as_slice(), n, mode)?;
        Ok(Answer::Done)
    }

    fn take_out(&mut self, alloc: Global, gone: &[CheckpointNumber]) -> Result<(), AllocError>
        ensures ok { OnOk result (self.new ≡ take_out gone.now self.old) }
        ensures err { OnErr result (self.new ≡ self.old) }
    {
        self.copies = without(alloc, self.copies.as_slice(), gone)?;
        Ok(())
    }

    fn remove_one(&mut self, alloc: Global, n: CheckpointNumber) -> Reply
        ensures { IsDoneUnlessMemory result self.new self.old (remove self.old n) }
    {
        let latest = greatest_number(self.copies.as_slice());
        let told = rows_of(alloc, self.copies.as_slice())?;
        removal(told.as_slice(), n, latest)?;
        self.take_out(alloc, &[n])?;
        Ok(Answer::Done)
    }

    fn remove_between(
        &mut self,
        alloc: Global,
        first: CheckpointNumber,
        last: CheckpointNumber,
    ) -> Reply
        ensures { IsDoneUnlessMemory result self.new self.old (remove_range self.old first last) }
    {
        let latest = greatest_number(self.copies.as_slice());
        let told = rows_of(alloc, self.copies.as_slice())?;
        let range = range_removal(alloc, told.as_slice(), first, last, latest)?;
        self.take_out(alloc, range.removed.as_slice())?;
        Ok(Answer::Removed(range))
    }

    fn expire(&mut self, alloc: Global, now: u64, period: u64) -> Reply
        ensures { IsDoneUnlessMemory result self.new self.old (expire self.old now period) }
    {
        let latest = greatest_number(self.copies.as_slice());
        let told = rows_of(alloc, self.copies.as_slice())?;
        let boundary = boundary(told.as_slice(), now, period, latest);
        let gone = expired(alloc, told.as_slice(), boundary, latest)?;
        self.take_out(alloc, gone.as_slice())?;
        Ok(Answer::Expired(gone))
    }

    fn add_mount(&mut self, n: CheckpointNumber) -> Reply
        ensures { IsDoneUnlessMemory result self.new self.old (mount self.old n) }
    {
        let Some(kept) = find_copy(self.copies.as_slice(), n) else {
            return Err(VolError::NoCheckpoint);
        };
        if !kept.mode.is_snapshot() {
            return Err(VolError::NotSnapshot);
        }
        if self.given == u64::MAX {
            return Err(VolError::NumbersSpent);
        }
        let given = self.given + 1;
        let m = MountNumber::new(given);
        self.mounts.push((m, n))?;
        self.given = given;
        Ok(Answer::Mount(m))
    }

    fn give_back(&mut self, alloc: Global, m: MountNumber) -> Reply
        ensures { IsDoneUnlessMemory result self.new self.old (unmount self.old m) }
    {
        if find_mount(self.mounts.as_slice(), m).is_none() {
            return Err(VolError::BadMount);
        }
        self.mounts = without_mount(alloc, self.mounts.as_slice(), m)?;
        Ok(Answer::Done)
    }

    fn list_copies(&self, alloc: Global, options: &ListOptions) -> Reply
        ensures { IsUnlessMemory result (Ok (Rows (listing options.now (rows self.now)))) }
    {
        let told = rows_of(alloc, self.copies.as_slice())?;
        Ok(Answer::Rows(listing(alloc, told, options)?))
    }

    fn read_mount(&self, alloc: Global, m: MountNumber, asked: &Ask) -> Reply
        ensures { IsUnlessMemory result (mount_read self.now m asked.now) }
    {
        let Some(n) = find_mount(self.mounts.as_slice(), m) else {
            return Err(VolError::BadMount);
        };
        let Some(kept) = find_copy(self.copies.as_slice(), n) else {
            return Err(VolError::BadMount);
        };
        reply(alloc, kept.tree.as_slice(), asked)
    }

    /// Does an event, and says what it answers or why it is refused. A refusal leaves the world as
    /// it was, and only `Memory` may stand in the place of what is due.
    ///
    /// - Each file call judges its path first: `BadPath` or `BadName` where the bytes spell none,
    ///   then POSIX's pathname resolution: `NotFound` where a name on the way is missing, `NotDir`
    ///   where it is a file.
    /// - A create goes by POSIX's `open` with `O_CREAT` and `O_EXCL`, and a new directory by `mkdir`:
    ///   `Exists` where something stands, `TooBig` where the volume has its most paths.
    /// - A write goes by POSIX's `pwrite`: where the offset is past the end, zeros stand between.
    ///   No bytes change nothing. `NotFound` where nothing stands, `IsDir` where a directory does,
    ///   `TooBig` where the file would pass its limit.
    /// - A truncation goes by POSIX's `truncate`: a longer file shows zeros. Refused as a write is.
    /// - A file is removed by POSIX's `unlink`: `NotFound` where nothing stands, `IsDir` where a
    ///   directory does. An empty directory is removed by `rmdir`: `BadPath` for the root,
    ///   `NotFound` where nothing stands, `NotDir` where a file does, `NotEmpty` where there are
    ///   names in it.
    /// - A rename goes by POSIX's `rename`, and the same path twice changes nothing. Both paths are
    ///   judged, the old one first; `BadPath` where either is the root; the walk to the old one;
    ///   `IntoItself` where a directory would lie below itself; the walk to the new one's directory;
    ///   `IsDir` and `NotDir` where the target is of the other kind, `NotEmpty` where it is a
    ///   directory with names in it.
    /// - A read goes by POSIX's `pread`: there are no bytes at and past the end. `NotFound` where
    ///   nothing stands, `IsDir` where a directory does.
    /// - A list has the names in a directory with their kinds, ascending by bytes, as POSIX's
    ///   `readdir` has them, without `.` and `..`: `NotFound` where nothing stands, `NotDir` where a
    ///   file does.
    /// - A stat has a file's size, or the number of names in a directory, after POSIX's `stat`:
    ///   `NotFound` where nothing stands.
    /// - A checkpoint goes by mkcp(8): it keeps the current tree under the next number, as a
    ///   snapshot if that is asked for, also where nothing changed. Its stamp is never below the
    ///   latest one's. `NumbersSpent` where the numbers have run out.
    /// - A change of a mode goes by chcp(8): `NoCheckpoint` where the checkpoint is not kept,
    ///   `Mounted` where a snapshot that is mounted would become plain. A checkpoint that has the
    ///   mode stays as it is.
    /// - A removal goes by rmcp(8): `NoCheckpoint` where the checkpoint is not kept, `IsSnapshot`
    ///   where it is a snapshot, `Latest` where it is the latest one.
    /// - A removal of a range removes each plain checkpoint in it but the latest one, and tells why
    ///   the others stay. `BadRange` where the first number is 0 or above the last, `NoCheckpoint`
    ///   where no kept number lies between.
    /// - An expiry removes each plain checkpoint below the boundary but the latest one: the least
    ///   number that the period protects by nilfs_cleanerd.conf(5), or else the latest number.
    /// - A retirement and a resize change nothing, and answer what is handed in. So does a move, but
    ///   that one which moved blocks keeps the latest copy once more, as a minor checkpoint:
    ///   `NumbersSpent` where no number is left.
    /// - A mount goes by nilfs2.rst: it is read-only, and of a snapshot alone. `NoCheckpoint` where
    ///   the checkpoint is not kept, `NotSnapshot` where it is plain, `NumbersSpent` where the
    ///   numbers have run out.
    /// - An unmount gives a mount back, whose number is not given again. `BadMount` where no such
    ///   mount stands.
    /// - A read of a mount is a read of the snapshot's tree. `BadMount` where no such mount stands.
    /// - A listing goes by lscp(1).
    pub fn apply(&mut self, alloc: Global, event: &Event, cleaned: &Reply) -> Reply
        ensures { ModelStep self.old (event.now, cleaned.now) result self.new }
    {
        match event {
            Event::Apply(asked) => self.change(alloc, asked),
            Event::Read(asked) => reply(alloc, self.tree.as_slice(), asked),
            Event::Checkpoint { mode, moment } => self.add_checkpoint(alloc, *mode, *moment),
            Event::ChangeMode(n, mode) => self.set_mode(alloc, *n, *mode),
            Event::Remove(n) => self.remove_one(alloc, *n),
            Event::RemoveRange { first, last } => self.remove_between(alloc, *first, *last),
            Event::Expire { now, period } => self.expire(alloc, *now, *period),
            Event::Move { now, .. } => self.move_blocks(alloc, cleaned, *now),
            Event::Retire(_) | Event::Resize(_) => cleaned_by(cleaned),
            Event::Mount(n) => self.add_mount(*n),
            Event::Unmount(m) => self.give_back(alloc, *m),
            Event::MountRead(m, asked) => self.read_mount(alloc, *m, asked),
            Event::Listing(options) => self.list_copies(alloc, options),
        }
    }
}
