//! Checkpoints are made, listed, changed and removed. A moment is in whole seconds.
ghost use Rattle.std.specs.Prelude.{◌≡◌, ℕ, MatchOption, Result, length};
ghost use Rattle.nl_types.specs.declared.event.Event.TheVariants.{ChangeMode, Checkpoint, Expire, Listing, Remove, RemoveRange};
ghost use Rattle.nl_types.specs.declared.reply.Answer.{Answer};
ghost use Rattle.nl_c.specs.Calls.{Answers, IsDone};
ghost use Rattle.nl_c.specs.CheckpointCalls.{IsNumberTold, IsRangeTold, IsRowsTold, IsSynced, IsWrong, Syncs, mode_of, number_in, options_of, range_in, rows_in};

use crate::calls::{answer, done};
use crate::copying::{CheckpointRow, copy_rows};
use crate::status::{CLOSED, DONE, WRONG_ARGUMENT, error_number};
use crate::volume::Volume;
use nl_core::Pen;
use nl_device::MemDevice;
use nl_types::{Answer, CheckpointNumber, Event, ListOptions, Mode, Reply, Row};
use std::alloc::Global;

/// What became of the checkpoints of a range.
#[repr(C)]
#[derive(Clone, Copy)]
pub struct RangeTold {
    /// How many were removed.
    pub removed: u64,
    /// How many stay: snapshots, and the latest one.
    pub stayed: u64,
}

// ---- flags

/// The mode of a flag: 0 is plain, and 1 a snapshot.
fn mode_of(flags: u32) -> Option<Mode>
    ensures { result ≡ mode_of flags }
{
    match flags {
        0 => Some(Mode::Plain),
        1 => Some(Mode::Snapshot),
        _ => None,
    }
}

/// A listing from a number on, of so many at most. Flag 1 shows snapshots alone, flag 2 minor ones too.
fn options_of(flags: u32, from: u64, count: u64) -> Option<ListOptions>
    ensures { result ≡ options_of flags from count }
{
    if flags > 3 {
        return None;
    }
    Some(ListOptions {
        reverse: false,
        snapshots_only: flags % 2 == 1,
        with_minor: flags >= 2,
        from: Some(CheckpointNumber::new(from)),
        count: Some(count),
    })
}

// ---- what is in answers

/// The checkpoint that was made, or how many an expiry removed.
fn number_in(answer: &Answer) -> u64
    ensures { result ≡ number_in answer.now }
{
    match answer {
        Answer::Checkpoint(number) => number.get(),
        Answer::Expired(numbers) => numbers.len() as u64,
        _ => 0,
    }
}

fn range_in(answer: &Answer) -> RangeTold
    ensures { result ≡ range_in answer.now }
{
    match answer {
        Answer::Removed(range) => RangeTold {
            removed: range.removed.len() as u64,
            stayed: range.stayed.len() as u64,
        },
        _ => RangeTold {
            removed: 0,
            stayed: 0,
        },
    }
}

fn rows_in(answer: &Answer) -> &[Row]
    ensures { result.now ≡ rows_in answer.now }
{
    match answer {
        Answer::Rows(rows) => rows.as_slice(),
        _ => &[],
    }
}

/// Does an event whose answer is a number.
fn number_told(alloc: Global, volume: &mut Volume, event: &Event, number: &mut u64) -> u32
    ensures { (told : Result Answer ℕ) × Answers volume.old.place.held event.now told volume.new.place.held
        × IsNumberTold told number.old result number.new }
{
    match answer(alloc, volume, event) {
        Ok(answer) => {
            *number = number_in(&answer);
            DONE
        }
        Err(status) => status,
    }
}

/// Makes a plain checkpoint where something is dirty, and answers the latest one.
fn sync(pen: &mut Pen<MemDevice>, moment: u64) -> Reply
    ensures { Syncs moment pen.old result pen.new }
{
    if pen.is_dirty() {
        pen.means_a_world();
        return pen.apply(&Event::Checkpoint {
            mode: Mode::Plain,
            moment,
        });
    }
    Ok(Answer::Checkpoint(pen.latest()))
}

/// Lists checkpoints into an array.
fn rows_told(
    alloc: Global,
    volume: &mut Volume,
    options: ListOptions,
    rows: &mut [CheckpointRow],
    count: &mut u64,
) -> u32
    ensures { (told : Result Answer ℕ)
        × Answers volume.old.place.held (Listing options) told volume.new.place.held
        × IsRowsTold told rows.old count.old result rows.new count.new }
{
    match answer(alloc, volume, &Event::Listing(options)) {
        Ok(answer) => {
            *count = copy_rows(rows_in(&answer), rows) as u64;
            DONE
        }
        Err(status) => status,
    }
}

// ---- calls

/// Makes a checkpoint of the current tree, a plain one by 0 and a snapshot by 1. `number` gets its number.
#[unsafe(no_mangle)]
pub extern "C" fn nlvol_mkcp(
    alloc: Global,
    volume: &mut Volume,
    flags: u32,
    moment: u64,
    number: &mut u64,
) -> u32
    ensures { MatchOption (mode_of flags)
        (IsWrong volume.old.place.held result volume.new.place.held × (number.new ≡ number.old))
        (λ mode. (told : Result Answer ℕ)
        × Answers volume.old.place.held (Checkpoint mode moment) told volume.new.place.held
        × IsNumberTold told number.old result number.new) }
{
    match mode_of(flags) {
        None => WRONG_ARGUMENT,
        Some(mode) => number_told(alloc, volume, &Event::Checkpoint { mode, moment }, number),
    }
}

/// Makes a plain checkpoint where the current tree may differ from the latest one. `number` gets the latest
/// one's number.
#[unsafe(no_mangle)]
pub extern "C" fn nlvol_sync(
    alloc: Global,
    volume: &mut Volume,
    moment: u64,
    number: &mut u64,
) -> u32
    ensures { IsSynced moment volume.old.place.held number.old result volume.new.place.held number.new }
{
    match volume.take(alloc) {
        None => CLOSED,
        Some(mut held) => {
            let reply = sync(&mut held.pen, moment);
            volume.put(held);
            match reply {
                Ok(answer) => {
                    *number = number_in(&answer);
                    DONE
                }
                Err(error) => error_number(error),
            }
        }
    }
}

/// Makes a checkpoint plain by 0, and a snapshot by 1.
#[unsafe(no_mangle)]
pub extern "C" fn nlvol_chcp(alloc: Global, volume: &mut Volume, number: u64, flags: u32) -> u32
    ensures { MatchOption (mode_of flags) (IsWrong volume.old.place.held result volume.new.place.held)
        (λ mode. IsDone volume.old.place.held (ChangeMode number mode) result volume.new.place.held) }
{
    match mode_of(flags) {
        None => WRONG_ARGUMENT,
        Some(mode) => done(
            alloc,
            volume,
            &Event::ChangeMode(CheckpointNumber::new(number), mode),
        ),
    }
}

/// Removes a plain checkpoint.
#[unsafe(no_mangle)]
pub extern "C" fn nlvol_rmcp(alloc: Global, volume: &mut Volume, number: u64) -> u32
    ensures { IsDone volume.old.place.held (Remove number) result volume.new.place.held }
{
    done(alloc, volume, &Event::Remove(CheckpointNumber::new(number)))
}

/// Removes the plain checkpoints from a first number to a last one, but for the latest one.
#[unsafe(no_mangle)]
pub extern "C" fn nlvol_rmcp_range(
    alloc: Global,
    volume: &mut Volume,
    first: u64,
    last: u64,
    range: &mut RangeTold,
) -> u32
    ensures { (told : Result Answer ℕ)
        × Answers volume.old.place.held (RemoveRange first last) told volume.new.place.held
        × IsRangeTold told range.old result range.new }
{
    let first = CheckpointNumber::new(first);
    let last = CheckpointNumber::new(last);
    match answer(alloc, volume, &Event::RemoveRange { first, last }) {
        Ok(answer) => {
            *range = range_in(&answer);
            DONE
        }
        Err(status) => status,
    }
}

/// Removes the plain checkpoints that a period before the moment no longer protects, but for the latest one.
/// Both are in whole seconds. `count` gets how many.
#[unsafe(no_mangle)]
pub extern "C" fn nlvol_expire(
    alloc: Global,
    volume: &mut Volume,
    moment: u64,
    period: u64,
    count: &mut u64,
) -> u32
    ensures { (told : Result Answer ℕ)
        × Answers volume.old.place.held (Expire moment period) told volume.new.place.held
        × IsNumberTold told count.old result count.new }
{
    let event = Event::Expire {
        now: moment,
        period,
    };
    number_told(alloc, volume, &event, count)
}

/// The kept checkpoints from a number on, ascending, as many as there are and as the array has places for.
/// Flag 1 shows snapshots alone, and flag 2 those too that the volume made by itself. `count` gets how many.
#[unsafe(no_mangle)]
pub extern "C" fn nlvol_lscp(
    alloc: Global,
    volume: &mut Volume,
    flags: u32,
    from: u64,
    rows: &mut [CheckpointRow],
    count: &mut u64,
) -> u32
    ensures { MatchOption (options_of flags from (length rows.old))
        (IsWrong volume.old.place.held result volume.new.place.held
        × (rows.new ≡ rows.old) × (count.new ≡ count.old))
        (λ options. (told : Result Answer ℕ)
        × Answers volume.old.place.held (Listing options) told volume.new.place.held
        × IsRowsTold told rows.old count.old result rows.new count.new) }
{
    match options_of(flags, from, rows.len() as u64) {
        None => WRONG_ARGUMENT,
        Some(options) => rows_told(alloc, volume, options, rows, count),
    }
}
