//! Calls of a shared volume, one for each event that a program asks for, with an answer of its own.
ghost use Rattle.nl_types.specs.declared.event.Change.TheVariants as change;
ghost use Rattle.nl_types.specs.declared.event.Event.TheVariants.{Apply, ChangeMode, Checkpoint, Listing, Remove, RemoveRange, Resize};
ghost use Rattle.nl_types.specs.declared.event.Mode.TheVariants.{Plain, Snapshot};
ghost use Rattle.nl_types.specs.declared.reply.Answer.TheVariants as answer;
ghost use Rattle.nl_types.specs.Changes.{change_at};
ghost use Rattle.nl_publish.specs.Locks.{IsNoMountEvent};
ghost use Rattle.nl_mounts.specs.Sharing.{HasRun};
ghost use Rattle.nl_mounts.specs.TypedCalls.{HasAnswered, HasDone, UnlessMemory};

use crate::shared::Shared;
use nl_publish::{NotingPen, Press, Volumes, laws};
use nl_types::{
    Change, CheckpointNumber, Event, Items, ListOptions, Mode, PathCall, Range, Reply, Row,
    VolError, checkpoint_made, copies, range_removed, rows_listed, without_answer, written,
};
use std::alloc::Global;
use std::sync::Wait;

impl<P: NotingPen, J: Volumes, W: Press> Shared<P, J, W> {
    /// Applies an event that nothing else needs. It is dropped here, by one call, and at no exit of a caller: a
    /// drop that the compiler adds takes as long to prove as a hundred calls.
    fn applied<R: Wait>(&self, rt: &R, event: Event) -> Reply
        requires { IsNoMountEvent event }
        ensures { HasRun event result }
    {
        let reply = self.apply(rt, &event);
        drop(event);
        reply
    }
}

// ---- changes of files

impl<P: NotingPen, J: Volumes, W: Press> Shared<P, J, W> {
    /// Changes what stands at a path.
    fn change_path<R: Wait>(
        &self,
        rt: &R,
        alloc: Global,
        call: PathCall,
        path: &[u8],
    ) -> Result<(), VolError>
        ensures { UnlessMemory (HasDone (Apply (change_at call path.now)) result) result }
    {
        let Ok(path) = Items::from_slice(alloc, path) else {
            return Err(VolError::Memory);
        };
        without_answer(self.applied(rt, Event::Apply(call.change(path))))
    }

    /// Makes an empty file.
    ///
    /// # Errors
    /// Those of `Change::Create`, and `Memory`.
    pub fn create<R: Wait>(&self, rt: &R, alloc: Global, path: &[u8]) -> Result<(), VolError>
        ensures { UnlessMemory (HasDone (Apply (change.Create path.now)) result) result }
    {
        self.change_path(rt, alloc, PathCall::Create, path)
    }

    /// Makes an empty directory.
    ///
    /// # Errors
    /// Those of `Change::Mkdir`, and `Memory`.
    pub fn mkdir<R: Wait>(&self, rt: &R, alloc: Global, path: &[u8]) -> Result<(), VolError>
        ensures { UnlessMemory (HasDone (Apply (change.Mkdir path.now)) result) result }
    {
        self.change_path(rt, alloc, PathCall::Mkdir, path)
    }

    /// Sets where a file ends, in bytes. Where that is past its end, zeros stand between.
    ///
    /// # Errors
    /// Those of `Change::Truncate`, and `Memory`.
    pub fn truncate<R: Wait>(
        &self,
        rt: &R,
        alloc: Global,
        path: &[u8],
        size: u64,
    ) -> Result<(), VolError>
        ensures { UnlessMemory (HasDone (Apply (change.Truncate path.now size)) result) result }
    {
        self.change_path(rt, alloc, PathCall::Truncate(size), path)
    }

    /// Removes a file.
    ///
    /// # Errors
    /// Those of `Change::Unlink`, and `Memory`.
    pub fn remove<R: Wait>(&self, rt: &R, alloc: Global, path: &[u8]) -> Result<(), VolError>
        ensures { UnlessMemory (HasDone (Apply (change.Unlink path.now)) result) result }
    {
        self.change_path(rt, alloc, PathCall::Unlink, path)
    }

    /// Removes an empty directory.
    ///
    /// # Errors
    /// Those of `Change::Rmdir`, and `Memory`.
    pub fn rmdir<R: Wait>(&self, rt: &R, alloc: Global, path: &[u8]) -> Result<(), VolError>
        ensures { UnlessMemory (HasDone (Apply (change.Rmdir path.now)) result) result }
    {
        self.change_path(rt, alloc, PathCall::Rmdir, path)
    }

    /// Writes bytes over those of a file from an offset on, and answers how many. Where the offset is past the
    /// end, zeros stand between.
    ///
    /// # Errors
    /// Those of `Change::Write`, and `Memory`.
    pub fn write<R: Wait>(
        &self,
        rt: &R,
        alloc: Global,
        path: &[u8],
        offset: u64,
        bytes: &[u8],
    ) -> Result<u64, VolError>
        ensures { UnlessMemory
            (HasAnswered answer.Written (Apply (change.Write path.now offset bytes.now)) result) result }
    {
        let Ok((path, bytes)) = copies(alloc, path, bytes) else {
            return Err(VolError::Memory);
        };
        laws::locked_runs_lead_on();
        let event = Event::Apply(Change::Write {
            path,
            offset,
            bytes,
        });
        written(self.applied(rt, event))
    }

    /// Gives what stands at a path another one, with all that lies below it.
    ///
    /// # Errors
    /// Those of `Change::Rename`, and `Memory`.
    pub fn rename<R: Wait>(
        &self,
        rt: &R,
        alloc: Global,
        from: &[u8],
        to: &[u8],
    ) -> Result<(), VolError>
        ensures { UnlessMemory (HasDone (Apply (change.Rename from.now to.now)) result) result }
    {
        let Ok((from, to)) = copies(alloc, from, to) else {
            return Err(VolError::Memory);
        };
        without_answer(self.applied(rt, Event::Apply(Change::Rename { from, to })))
    }
}

// ---- checkpoints

impl<P: NotingPen, J: Volumes, W: Press> Shared<P, J, W> {
    /// Makes a checkpoint, and answers its number.
    fn make_checkpoint<R: Wait>(
        &self,
        rt: &R,
        mode: Mode,
        moment: u64,
    ) -> Result<CheckpointNumber, VolError>
        ensures { HasAnswered answer.Checkpoint (Checkpoint mode moment) result }
    {
        laws::locked_runs_lead_on();
        checkpoint_made(self.applied(rt, Event::Checkpoint { mode, moment }))
    }

    /// Keeps the current tree as a plain checkpoint, and answers its number. The moment is in whole seconds.
    ///
    /// # Errors
    /// Those of a checkpoint.
    pub fn checkpoint<R: Wait>(&self, rt: &R, moment: u64) -> Result<CheckpointNumber, VolError>
        ensures { HasAnswered answer.Checkpoint (Checkpoint Plain moment) result }
    {
        self.make_checkpoint(rt, Mode::Plain, moment)
    }

    /// Keeps the current tree as a snapshot, which can be mounted, and answers its number. The moment is in
    /// whole seconds.
    ///
    /// # Errors
    /// Those of a checkpoint.
    pub fn snapshot<R: Wait>(&self, rt: &R, moment: u64) -> Result<CheckpointNumber, VolError>
        ensures { HasAnswered answer.Checkpoint (Checkpoint Snapshot moment) result }
    {
        self.make_checkpoint(rt, Mode::Snapshot, moment)
    }

    /// Makes a plain checkpoint a snapshot or a snapshot a plain checkpoint, as `nl_lib::change_cpmode` does.
    ///
    /// # Errors
    /// `NoCheckpoint` where it isn't kept, `Mounted` where a snapshot that is mounted would become plain;
    /// `Memory`.
    pub fn change_cpmode<R: Wait>(
        &self,
        rt: &R,
        number: CheckpointNumber,
        mode: Mode,
    ) -> Result<(), VolError>
        ensures { HasDone (ChangeMode number mode) result }
    {
        without_answer(self.applied(rt, Event::ChangeMode(number, mode)))
    }

    /// Removes a plain checkpoint, as `nl_lib::delete_checkpoint` does.
    ///
    /// # Errors
    /// `NoCheckpoint` where it isn't kept, `IsSnapshot` where it is a snapshot, `Latest` where it is the latest
    /// one; `Memory`.
    pub fn delete_checkpoint<R: Wait>(
        &self,
        rt: &R,
        number: CheckpointNumber,
    ) -> Result<(), VolError>
        ensures { HasDone (Remove number) result }
    {
        without_answer(self.applied(rt, Event::Remove(number)))
    }

    /// Removes the plain checkpoints from a first number to a last one, but for the latest one, and answers
    /// what became of each.
    ///
    /// # Errors
    /// `BadRange` where the first number is 0 or above the last, `NoCheckpoint` where no kept number lies
    /// between; `Memory`.
    pub fn remove_checkpoints<R: Wait>(
        &self,
        rt: &R,
        first: CheckpointNumber,
        last: CheckpointNumber,
    ) -> Result<Range, VolError>
        ensures { HasAnswered answer.Removed (RemoveRange first last) result }
    {
        laws::locked_runs_lead_on();
        range_removed(self.applied(rt, Event::RemoveRange { first, last }))
    }

    /// What is told of the kept checkpoints that a listing shows, in its order. `Port::checkpoints` takes no
    /// lock.
    ///
    /// # Errors
    /// `Memory`.
    pub fn listing<R: Wait>(&self, rt: &R, options: &ListOptions) -> Result<Items<Row>, VolError>
        ensures { HasAnswered answer.Rows (Listing options.now) result }
    {
        laws::locked_runs_lead_on();
        rows_listed(self.applied(rt, Event::Listing(*options)))
    }

    /// Makes the volume one of so many segments, as `nl_lib::resize` does.
    ///
    /// # Errors
    /// `BadRange` where it has more, `BadGeometry` where a volume can't have so many; `Fault` where the device
    /// failed to grow; `Memory`.
    pub fn resize<R: Wait>(&self, rt: &R, segments: u32) -> Result<(), VolError>
        ensures { HasDone (Resize segments) result }
    {
        without_answer(self.applied(rt, Event::Resize(segments)))
    }
}
