//! The volumes of rows: each is new, of a shape, on a device of which one call may fail, and there twice.
ghost use Rattle.std.specs.Prelude.{◌≡◌};

use crate::looks::look_at_pen;
use crate::rows::again::{Alone, Tally};
use crate::rows::events::event_of;
use crate::rows::ports::Ported;
use crate::rows::twins::{add_ends, do_last, do_lines};
use crate::rows::words::{has_word, number_behind, small_at, words_of};
use nl_core::Pen;
use nl_device::{FaultDevice, MemDevice};
use nl_mounts::share;
use nl_publish::{Opened, Volumes};
use nl_types::{Event, Geometry, VolError};
use std::alloc::{AllocError, Global};
use std::io;
use std::marker::Brand;
use std::mem::replace;
use std::sync::Wait;

/// Which call fails, counted from 1 on; none for 0.
fn turn_of(words: &[&str], call: &str) -> u64 {
    number_behind(words, call).unwrap_or(0)
}

/// The volume of `volume SEGMENTS BLOCKS [put NUMBER [torn]] [get NUMBER] [growth NUMBER]`.
fn volume(alloc: Global, words: &[&str]) -> Result<Pen<FaultDevice>, VolError> {
    let geometry = Geometry::new(small_at(words, 1), small_at(words, 2))?;
    let memory = MemDevice::new(alloc, geometry)?;
    let (put, get) = (turn_of(words, "put"), turn_of(words, "get"));
    let mut device = FaultDevice::new(alloc, memory, put, get, has_word(words, "torn"))?;
    device.fail_growth(turn_of(words, "growth"));
    Pen::format(alloc, device, geometry, 0)
}

/// Makes a volume, and once more where memory is refused. Nothing was there before.
fn made(alloc: Global, words: &[&str], tally: &mut Tally) -> Result<Pen<FaultDevice>, VolError> {
    match volume(alloc, words) {
        Err(VolError::Memory) => {
            tally.note(0, 0);
            volume(alloc, words)
        }
        pen => pen,
    }
}

/// The event that reads the file `/f` for looks. There is none where a call of the device fails, since those
/// of a read count.
fn reading(alloc: Global, words: &[&str]) -> Result<Option<Event>, AllocError> {
    if words.len() > 3 {
        return Ok(None);
    }
    event_of(alloc, &["read", "/f", "0", "4096"])
}

/// What came of lines, and the pen that was shared as it is in the end.
type Ran = (io::Result<()>, Pen<FaultDevice>);

/// What a shared volume waits by, and takes its memory from.
#[derive(Drop)]
struct Host<'a, R: Wait> {
    rt: &'a R,
    alloc: Global,
}

/// Shares a pen, and does lines on it and on another one. Where it can't be shared it comes back alone.
fn do_shared<J: Volumes, R: Wait>(
    host: &Host<'_, R>,
    opened: Opened,
    alone: &mut Alone,
    other: Pen<FaultDevice>,
    lines: &[&str],
    tally: &mut Tally,
    out: &mut Vec<u8>,
) -> Result<Ran, Pen<FaultDevice>>
    requires { opened.seen.book ≡ J.book opened.id }
{
    let (rt, alloc) = (host.rt, host.alloc);
    let (shared, mut ports) = match share::<_, J, _>(alloc, rt, other, 1, opened) {
        Ok(made) => made,
        Err((_, other)) => return Err(other),
    };
    let Some(port) = ports.pop() else {
        return Err(shared.end(rt, Vec::new(alloc)));
    };
    let mut ported = Ported {
        rt,
        shared,
        port,
        mounts: Vec::new(alloc),
        numbers: Vec::new(alloc),
        refused: 0,
    };
    let done = do_lines(alloc, alone, &mut ported, lines, tally, out);
    let last = do_last(alloc, alone, &mut ported, tally, out);
    let Ported {
        rt: _,
        shared,
        port: _port,
        mounts,
        numbers: _numbers,
        refused: _,
    } = ported;
    Ok((done.and(last), shared.end(rt, mounts)))
}

/// Shares a pen and does lines. Where memory is refused before it is shared it has to come back as it was, and
/// is shared once more.
fn do_again<R: Wait>(
    rt: &R,
    alloc: Global,
    alone: &mut Alone,
    other: Pen<FaultDevice>,
    lines: &[&str],
    tally: &mut Tally,
    out: &mut Vec<u8>,
) -> Result<Ran, Pen<FaultDevice>> {
    let before = look_at_pen(&other);
    let host = Host { rt, alloc };
    match do_shared::<Brand, _>(&host, Opened::new(1), alone, other, lines, tally, out) {
        Ok(ran) => Ok(ran),
        Err(other) => {
            tally.note(before, look_at_pen(&other));
            do_shared::<Brand, _>(&host, Opened::new(2), alone, other, lines, tally, out)
        }
    }
}

/// Compares a pen with the one that was shared, in the end.
fn compare(alone: &mut Alone, ran: Ran, tally: &mut Tally, out: &mut Vec<u8>) -> io::Result<()> {
    let (done, mut other) = ran;
    alone.pen.give_all_back();
    let compared = add_ends(&mut alone.pen, &mut other, tally, out);
    drop(other);
    done.and(compared)
}

/// Does lines on a pen and on another one that is shared, and compares both in the end.
fn do_beside<R: Wait>(
    rt: &R,
    alloc: Global,
    words: &[&str],
    alone: &mut Alone,
    lines: &[&str],
    tally: &mut Tally,
    out: &mut Vec<u8>,
) -> io::Result<()> {
    let Ok(other) = made(alloc, words, tally) else {
        return Ok(());
    };
    match do_again(rt, alloc, alone, other, lines, tally, out) {
        Ok(ran) => compare(alone, ran, tally, out),
        Err(_) => Ok(()),
    }
}

/// Does lines on a new pen, whose looks read a file where they can, and on another one.
fn do_alone<R: Wait>(
    rt: &R,
    alloc: Global,
    words: &[&str],
    alone: &mut Alone,
    lines: &[&str],
    tally: &mut Tally,
    out: &mut Vec<u8>,
) -> io::Result<()> {
    let read = reading(alloc, words)?;
    drop(replace(&mut alone.read, read));
    do_beside(rt, alloc, words, alone, lines, tally, out)
}

/// Makes the volume of words, and does the lines behind it.
fn do_made<R: Wait>(
    rt: &R,
    alloc: Global,
    words: &[&str],
    lines: &[&str],
    tally: &mut Tally,
    out: &mut Vec<u8>,
) -> io::Result<()> {
    let Ok(pen) = made(alloc, words, tally) else {
        return Ok(());
    };
    let mut alone = Alone { pen, read: None };
    let done = do_alone(rt, alloc, words, &mut alone, lines, tally, out);
    drop(alone);
    done
}

/// Makes the volume of a line, does the lines behind it, and tells how often memory was refused.
pub(crate) fn do_volume<R: Wait>(
    rt: &R,
    alloc: Global,
    line: &str,
    lines: &[&str],
    out: &mut Vec<u8>,
) -> io::Result<()> {
    let words = words_of(alloc, line)?;
    let mut tally = Tally::new();
    do_made(rt, alloc, words.as_slice(), lines, &mut tally, out)?;
    tally.add_refusals(out)
}
