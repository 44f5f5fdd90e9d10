//! A pen and a shared volume with one port: each line is done on both. No contract says that a shared call
//! does what its event does, so that their replies are compared, and what both are in the end.
use crate::looks::look_at_pen;
use crate::rows::again::{Alone, Tally, Volume, reply_again};
use crate::rows::answers::{add_counted, add_number, add_refusal, add_word, reply_text};
use crate::rows::events::{ask_behind, event_of};
use crate::rows::images::{closes, image_size};
use crate::rows::ports::Ported;
use crate::rows::questions::add_asked;
use crate::rows::rounds::{Sum, round};
use crate::rows::words::{number_at, small_at, word_at, words_of};
use nl_core::Pen;
use nl_device::FaultDevice;
use nl_lib::{Cleaned, clean_segments, sync};
use nl_publish::Volumes;
use nl_types::{Answer, Ask, CheckpointNumber, Event, Mode, Reply, Segment, VolError};
use std::alloc::Global;
use std::io;
use std::sync::Wait;

// ---- lines

fn add_line(out: &mut Vec<u8>, line: &[u8]) -> io::Result<()> {
    out.extend_from_slice(line)?;
    out.push(b'\n')?;
    Ok(())
}

/// Adds a line that no row expects where both tell other things.
fn add_difference(out: &mut Vec<u8>, one: &[u8], other: &[u8]) -> io::Result<()> {
    if one != other {
        out.extend_from_slice(b"differs shared ")?;
        add_line(out, other)?;
    }
    Ok(())
}

/// Adds the line that both tell.
fn add_both(out: &mut Vec<u8>, one: &[u8], other: &[u8]) -> io::Result<()> {
    add_line(out, one)?;
    add_difference(out, one, other)
}

/// Adds the line that both replies are.
fn add_replies(alloc: Global, one: &Reply, other: &Reply, out: &mut Vec<u8>) -> io::Result<()> {
    let one = reply_text(alloc, one)?;
    let other = reply_text(alloc, other)?;
    add_both(out, one.as_slice(), other.as_slice())
}

/// The same of replies that nothing else needs.
fn tell_replies(alloc: Global, one: Reply, other: Reply, out: &mut Vec<u8>) -> io::Result<()> {
    let added = add_replies(alloc, &one, &other, out);
    drop((one, other));
    added
}

// ---- events

/// What an event comes to on both.
fn replies_of<J: Volumes, R: Wait>(
    alloc: Global,
    alone: &mut Alone,
    ported: &mut Ported<'_, J, R>,
    event: Event,
    tally: &mut Tally,
) -> (Reply, Reply) {
    let one = reply_again(alloc, alone, &event, tally);
    let other = reply_again(alloc, ported, &event, tally);
    drop(event);
    (one, other)
}

fn do_event<J: Volumes, R: Wait>(
    alloc: Global,
    alone: &mut Alone,
    ported: &mut Ported<'_, J, R>,
    event: Event,
    tally: &mut Tally,
    out: &mut Vec<u8>,
) -> io::Result<()> {
    let (one, other) = replies_of(alloc, alone, ported, event, tally);
    tell_replies(alloc, one, other, out)
}

/// What a round comes to, or its refusal.
fn round_text(alloc: Global, told: Result<Sum, VolError>) -> io::Result<Vec<u8>> {
    let mut text = Vec::new(alloc);
    match told {
        Ok(sum) => {
            add_counted(&mut text, "round", sum.expired as u64)?;
            add_number(&mut text, u64::from(sum.moved))?;
            add_number(&mut text, u64::from(sum.freed))?;
        }
        Err(refusal) => add_refusal(&mut text, refusal)?,
    }
    Ok(text)
}

fn do_round<J: Volumes, R: Wait>(
    alloc: Global,
    alone: &mut Alone,
    ported: &mut Ported<'_, J, R>,
    tally: &mut Tally,
    out: &mut Vec<u8>,
) -> io::Result<()> {
    let one = round(alloc, alone, tally);
    let other = round(alloc, ported, tally);
    let one = round_text(alloc, one)?;
    let other = round_text(alloc, other)?;
    add_both(out, one.as_slice(), other.as_slice())
}

// ---- calls after libnilfs that are no events

/// A sync on the shared volume: a checkpoint, where something is dirty.
fn synced_by_event<J: Volumes, R: Wait>(
    ported: &Ported<'_, J, R>,
    is_dirty: bool,
    moment: u64,
) -> Reply {
    if is_dirty {
        let mode = Mode::Plain;
        ported.apply_once(Event::Checkpoint { mode, moment })
    } else {
        Ok(Answer::Checkpoint(ported.latest()))
    }
}

fn do_sync<J: Volumes, R: Wait>(
    alloc: Global,
    alone: &mut Alone,
    ported: &mut Ported<'_, J, R>,
    moment: u64,
    out: &mut Vec<u8>,
) -> io::Result<()> {
    let is_dirty = alone.pen.is_dirty();
    let one = sync(&mut alone.pen, moment).map(Answer::Checkpoint);
    let other = synced_by_event(ported, is_dirty, moment);
    tell_replies(alloc, one, other, out)
}

/// How many segments were retired, and the refusal that ended it.
fn cleaned_text(alloc: Global, cleaned: Cleaned) -> io::Result<Vec<u8>> {
    let mut text = Vec::new(alloc);
    add_counted(&mut text, "cleaned", cleaned.retired as u64)?;
    if let Some(refusal) = cleaned.refusal {
        add_word(&mut text, refusal.name())?;
    }
    Ok(text)
}

/// Adds the line that both come to.
fn add_cleaned(alloc: Global, one: Cleaned, other: Cleaned, out: &mut Vec<u8>) -> io::Result<()> {
    let one = cleaned_text(alloc, one)?;
    let other = cleaned_text(alloc, other)?;
    add_both(out, one.as_slice(), other.as_slice())
}

fn do_cleaning<J: Volumes, R: Wait>(
    alloc: Global,
    alone: &mut Alone,
    ported: &Ported<'_, J, R>,
    words: &[&str],
    out: &mut Vec<u8>,
) -> io::Result<()> {
    let segments = [
        Segment::new(small_at(words, 1)),
        Segment::new(small_at(words, 2)),
    ];
    let now = number_at(words, 3);
    let one = clean_segments(&mut alone.pen, &segments, now);
    let other = ported.clean(&segments, now);
    add_cleaned(alloc, one, other, out)
}

// ---- questions

/// Asks the tree of a kept checkpoint.
fn ask_kept<J: Volumes, R: Wait>(
    alloc: Global,
    alone: &Alone,
    ported: &Ported<'_, J, R>,
    number: CheckpointNumber,
    ask: Ask,
    out: &mut Vec<u8>,
) -> io::Result<()> {
    let one = alone.pen.read_at(number, &ask);
    let other = ported.shared.read_at(ported.rt, number, &ask);
    drop(ask);
    tell_replies(alloc, one, other, out)
}

/// Asks the tree of a kept checkpoint: `kept NUMBER`, and a question about a tree.
fn do_kept<J: Volumes, R: Wait>(
    alloc: Global,
    alone: &Alone,
    ported: &Ported<'_, J, R>,
    words: &[&str],
    out: &mut Vec<u8>,
) -> io::Result<()> {
    let number = CheckpointNumber::new(number_at(words, 1));
    match ask_behind(alloc, words)? {
        Some(ask) => ask_kept(alloc, alone, ported, number, ask, out),
        None => add_line(out, b"unknown"),
    }
}

/// Adds a word and a count, or a refusal.
fn add_count(text: &mut Vec<u8>, word: &str, told: Result<usize, VolError>) -> io::Result<()> {
    match told {
        Ok(count) => add_counted(text, word, count as u64),
        Err(refusal) => add_refusal(text, refusal),
    }
}

/// What is done with the pages that the port keeps; a pen keeps none. Those that are put before memory is
/// refused stay, and the call that comes again counts the others.
fn cached<J: Volumes, R: Wait>(
    alloc: Global,
    ported: &mut Ported<'_, J, R>,
    words: &[&str],
    tally: &mut Tally,
) -> Result<usize, VolError> {
    let (before, kept) = (ported.look(), ported.port.cached());
    let told = ported.cache(alloc, words);
    if told != Err(VolError::Memory) {
        return told;
    }
    tally.note(before, ported.look());
    let put = ported.port.cached().saturating_sub(kept);
    let count = ported.cache(alloc, words)?;
    Ok(count.saturating_add(put))
}

/// Adds how many bytes the image has, or the condition that it breaks once it is changed.
fn add_image(text: &mut Vec<u8>, told: Result<Option<usize>, VolError>) -> io::Result<()> {
    match told {
        Ok(None) => add_word(text, "differs"),
        Err(VolError::BadImage(condition)) => add_counted(text, "condition", u64::from(condition)),
        Ok(Some(size)) => add_counted(text, "image", size as u64),
        Err(refusal) => add_refusal(text, refusal),
    }
}

/// The answer to what only one of the two is asked. In the end all of it is compared.
fn do_question<J: Volumes, R: Wait>(
    alloc: Global,
    alone: &mut Alone,
    ported: &mut Ported<'_, J, R>,
    words: &[&str],
    tally: &mut Tally,
    out: &mut Vec<u8>,
) -> io::Result<()> {
    let mut text = Vec::new(alloc);
    match word_at(words, 0) {
        "keep" | "warm" | "pages" => {
            add_count(&mut text, "pages", cached(alloc, ported, words, tally))?;
        }
        "close" => {
            let change = words.get(1..).unwrap_or_default();
            add_image(&mut text, image_size(alloc, &mut alone.pen, change, tally))?;
        }
        _ => add_asked(alloc, &mut text, &alone.pen, words)?,
    }
    add_line(out, text.as_slice())
}

fn do_words<J: Volumes, R: Wait>(
    alloc: Global,
    alone: &mut Alone,
    ported: &mut Ported<'_, J, R>,
    words: &[&str],
    tally: &mut Tally,
    out: &mut Vec<u8>,
) -> io::Result<()> {
    match word_at(words, 0) {
        "sync" => do_sync(alloc, alone, ported, number_at(words, 1), out),
        "clean" => do_cleaning(alloc, alone, ported, words, out),
        "round" => do_round(alloc, alone, ported, tally, out),
        "kept" if words.len() > 2 => do_kept(alloc, alone, ported, words, out),
        _ => match event_of(alloc, words)? {
            Some(event) => do_event(alloc, alone, ported, event, tally, out),
            None => do_question(alloc, alone, ported, words, tally, out),
        },
    }
}

fn do_line<J: Volumes, R: Wait>(
    alloc: Global,
    alone: &mut Alone,
    ported: &mut Ported<'_, J, R>,
    line: &str,
    tally: &mut Tally,
    out: &mut Vec<u8>,
) -> io::Result<()> {
    let words = words_of(alloc, line)?;
    do_words(alloc, alone, ported, words.as_slice(), tally, out)
}

/// Does lines on both, and tells what each comes to.
pub(crate) fn do_lines<J: Volumes, R: Wait>(
    alloc: Global,
    alone: &mut Alone,
    ported: &mut Ported<'_, J, R>,
    lines: &[&str],
    tally: &mut Tally,
    out: &mut Vec<u8>,
) -> io::Result<()> {
    for line in lines {
        do_line(alloc, alone, ported, line, tally, out)?;
    }
    Ok(())
}

// ---- the end

/// Adds a line where the replies differ.
fn add_other_reply(alloc: Global, one: &Reply, other: &Reply, out: &mut Vec<u8>) -> io::Result<()> {
    let one = reply_text(alloc, one)?;
    let other = reply_text(alloc, other)?;
    add_difference(out, one.as_slice(), other.as_slice())
}

/// The same of replies that nothing else needs.
fn tell_other_reply(alloc: Global, one: Reply, other: Reply, out: &mut Vec<u8>) -> io::Result<()> {
    let added = add_other_reply(alloc, &one, &other, out);
    drop((one, other));
    added
}

/// Makes a last checkpoint on both, behind which neither is dirty, where there is space for it.
pub(crate) fn do_last<J: Volumes, R: Wait>(
    alloc: Global,
    alone: &mut Alone,
    ported: &mut Ported<'_, J, R>,
    tally: &mut Tally,
    out: &mut Vec<u8>,
) -> io::Result<()> {
    let mode = Mode::Snapshot;
    let event = Event::Checkpoint { mode, moment: 0 };
    let (one, other) = replies_of(alloc, alone, ported, event, tally);
    tell_other_reply(alloc, one, other, out)
}

/// Whether two pens close to the same bytes, or neither can be closed.
fn close_alike(
    one: &mut Pen<FaultDevice>,
    other: &mut Pen<FaultDevice>,
    tally: &mut Tally,
) -> bool {
    match (closes(one, tally), closes(other, tally)) {
        (Ok(one), Ok(other)) => one.as_slice() == other.as_slice(),
        (Err(one), Err(other)) => one == other,
        _ => false,
    }
}

/// Adds a line that no row expects where two pens tell other things of checkpoints, segments or numbers, or
/// close to other bytes.
pub(crate) fn add_ends(
    one: &mut Pen<FaultDevice>,
    other: &mut Pen<FaultDevice>,
    tally: &mut Tally,
    out: &mut Vec<u8>,
) -> io::Result<()> {
    if look_at_pen(one) != look_at_pen(other) {
        add_line(out, b"differs in what is told")?;
    }
    if !close_alike(one, other, tally) {
        add_line(out, b"differs in the bytes")?;
    }
    Ok(())
}
