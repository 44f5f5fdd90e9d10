//! Changes of a volume's checkpoints and of its size. Each call is one event of the pen, or none.
ghost use Rattle.std.specs.Prelude.{◌≡◌, ◌≢◌, Ok, Err, IfErr, IfOk, MatchResult};
ghost use Rattle.nl_types.specs.declared.event.Event.TheVariants.{ChangeMode, Checkpoint, Remove, RemoveRange, Resize};
ghost use Rattle.nl_types.specs.declared.event.Mode.TheVariants.{Plain, Snapshot};
ghost use Rattle.nl_types.specs.declared.reply.Answer.{Answer};
ghost use Rattle.nl_types.specs.declared.reply.Answer.TheVariants as answer;
ghost use Rattle.nl_types.specs.Plain.Worlds as worlds;
ghost use Rattle.nl_types.specs.Plain.Worlds.{World};
ghost use Rattle.nl_commit.specs.Layout.{Does, MeansWorld, unshared};
ghost use Rattle.nl_types.specs.Replies.{reply_with};
ghost use Rattle.nl_lib.specs.Calls.{Syncs, done_reply};

use nl_core::Pen;
use nl_device::Device;
use nl_types::{
    CheckpointNumber, Event, Mode, Range, Reply, VolError, range_removed, without_answer,
};

/// Applies an event that nothing else needs. It is dropped here, by one call, and at no exit of a caller: a drop
/// that the compiler adds takes as long to prove as a hundred calls.
pub(crate) fn applied<D: Device>(pen: &mut Pen<D>, event: Event) -> Reply
    ensures { Does unshared pen.old event result pen.new }
{
    let reply = pen.apply(&event);
    drop(event);
    reply
}

/// Applies an event whose answer isn't needed.
pub(crate) fn apply<D: Device>(pen: &mut Pen<D>, event: Event) -> Result<(), VolError>
    ensures { MatchResult result
        (λ _. (found : Answer) × Does unshared pen.old event (Ok found) pen.new)
        (λ e. Does unshared pen.old event (Err e) pen.new) }
{
    without_answer(applied(pen, event))
}

/// Makes a plain checkpoint a snapshot or a snapshot a plain checkpoint, after `nilfs_change_cpmode`. A
/// checkpoint that has the mode stays as it is. Refused by `NoCheckpoint` where it isn't kept, and by
/// `Mounted` where a snapshot that is mounted would become plain. It takes no memory.
pub fn change_cpmode<D: Device>(
    pen: &mut Pen<D>,
    number: CheckpointNumber,
    mode: Mode,
) -> Result<(), VolError>
    ensures does { Does unshared pen.old (ChangeMode number mode) (done_reply result) pen.new }
    ensures memory { IfErr result (λ e. e ≢ VolError.Memory) }
{
    pen.means_a_world();
    apply(pen, Event::ChangeMode(number, mode))
}

/// Removes a plain checkpoint, after `nilfs_delete_checkpoint`. Refused by `NoCheckpoint` where it isn't
/// kept, by `IsSnapshot` where it is a snapshot, and by `Latest` where it is the latest one, in this order.
/// It takes no memory.
pub fn delete_checkpoint<D: Device>(
    pen: &mut Pen<D>,
    number: CheckpointNumber,
) -> Result<(), VolError>
    ensures does { Does unshared pen.old (Remove number) (done_reply result) pen.new }
    ensures memory { IfErr result (λ e. e ≢ VolError.Memory) }
{
    pen.means_a_world();
    apply(pen, Event::Remove(number))
}

/// Removes the plain checkpoints from a first number to a last one, but for the latest one, and answers what
/// became of each. libnilfs has no such call. Refused by `BadRange` where the first number is 0 or above the
/// last, by `NoCheckpoint` where no kept number lies between, and by `Memory` for the lists.
pub fn remove_checkpoints<D: Device>(
    pen: &mut Pen<D>,
    first: CheckpointNumber,
    last: CheckpointNumber,
) -> Result<Range, VolError>
    ensures { Does unshared pen.old (RemoveRange first last) (reply_with answer.Removed result) pen.new }
{
    pen.means_a_world();
    range_removed(applied(pen, Event::RemoveRange { first, last }))
}

/// Makes a checkpoint, and answers its number.
fn make_checkpoint<D: Device>(
    pen: &mut Pen<D>,
    mode: Mode,
    now: u64,
) -> Result<CheckpointNumber, VolError>
    ensures does { Does unshared pen.old (Checkpoint mode now)
        (reply_with answer.Checkpoint result) pen.new }
    ensures latest { IfOk result (λ number. number ≡ pen.new.lists.table.latest.number) }
    ensures told { IfOk result (λ number. (w : World) → MeansWorld pen.new w → number ≡ worlds.latest w) }
{
    pen.means_a_world();
    apply(pen, Event::Checkpoint { mode, moment: now })?;
    Ok(pen.latest())
}

/// Keeps the current tree as a plain checkpoint, be something dirty or not, and answers its number. The
/// moment is in whole seconds.
///
/// Refused by `NumbersSpent` where no checkpoint number is left, by `NoSpace` where no list of logs fits what
/// differs from the latest checkpoint, by `Fault` where the device failed, and by `Memory`.
pub fn checkpoint<D: Device>(pen: &mut Pen<D>, now: u64) -> Result<CheckpointNumber, VolError>
    ensures does { Does unshared pen.old (Checkpoint Plain now)
        (reply_with answer.Checkpoint result) pen.new }
    ensures latest { IfOk result (λ number. number ≡ pen.new.lists.table.latest.number) }
    ensures told { IfOk result (λ number. (w : World) → MeansWorld pen.new w → number ≡ worlds.latest w) }
{
    make_checkpoint(pen, Mode::Plain, now)
}

/// Keeps the current tree as a snapshot, which can be mounted, and answers its number. The moment is in whole
/// seconds. Refused as a checkpoint is.
pub fn snapshot<D: Device>(pen: &mut Pen<D>, now: u64) -> Result<CheckpointNumber, VolError>
    ensures does { Does unshared pen.old (Checkpoint Snapshot now)
        (reply_with answer.Checkpoint result) pen.new }
    ensures latest { IfOk result (λ number. number ≡ pen.new.lists.table.latest.number) }
    ensures told { IfOk result (λ number. (w : World) → MeansWorld pen.new w → number ≡ worlds.latest w) }
{
    make_checkpoint(pen, Mode::Snapshot, now)
}

/// Makes a plain checkpoint where something is dirty, and answers the latest one's number, after
/// `nilfs_sync`. The moment is in whole seconds. Refused as a checkpoint is, and never where nothing is
/// dirty.
pub fn sync<D: Device>(pen: &mut Pen<D>, now: u64) -> Result<CheckpointNumber, VolError>
    ensures synced { Syncs now pen.old.lists.dirty pen.old result pen.new }
    ensures world { (w : World) → MeansWorld pen.old w
        → Syncs now w.dirty pen.old result pen.new }
    ensures latest { IfOk result (λ number. number ≡ pen.new.lists.table.latest.number) }
    ensures told { IfOk result (λ number. (w : World) → MeansWorld pen.new w → number ≡ worlds.latest w) }
{
    if pen.is_dirty() {
        checkpoint(pen, now)
    } else {
        Ok(pen.latest())
    }
}

/// Makes the volume one of so many segments, after `nilfs_resize` with a larger size. The new ones are clean.
/// A volume that has just so many stays as it is.
///
/// Refused by `BadRange` where it has more, and by `BadGeometry` where a volume can't have so many; else by
/// `Fault` where the device failed to grow, and by `Memory`.
pub fn resize<D: Device>(pen: &mut Pen<D>, segments: u32) -> Result<(), VolError>
    ensures does { Does unshared pen.old (Resize segments) (done_reply result) pen.new }
{
    pen.means_a_world();
    apply(pen, Event::Resize(segments))
}
