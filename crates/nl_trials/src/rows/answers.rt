//! What is told of a reply: words, of which the first says what kind it is.
use nl_types::{Answer, CheckpointNumber, Kind, Named, Range, Reply, Row, Stat, Stays, VolError};
use std::alloc::Global;
use std::io;
use std::io::Write;

/// More bytes than that, all the same, are told as the byte and how often it stands there.
const MOST_SHOWN: usize = 32;

pub(crate) fn add_word(text: &mut Vec<u8>, word: &str) -> io::Result<()> {
    if !text.is_empty() {
        text.push(b' ')?;
    }
    text.extend_from_slice(word.as_bytes())?;
    Ok(())
}

pub(crate) fn add_number(text: &mut Vec<u8>, number: u64) -> io::Result<()> {
    write!(text, " {number}")
}

/// Adds a word, and a number behind it.
pub(crate) fn add_counted(text: &mut Vec<u8>, word: &str, number: u64) -> io::Result<()> {
    add_word(text, word)?;
    add_number(text, number)
}

pub(crate) fn add_refusal(text: &mut Vec<u8>, refusal: VolError) -> io::Result<()> {
    add_word(text, "refused")?;
    add_word(text, refusal.name())
}

// ---- bytes and names

/// Adds a byte as it is, and a zero as `\0`.
fn add_byte(text: &mut Vec<u8>, byte: u8) -> io::Result<()> {
    if byte == 0 {
        text.extend_from_slice(b"\\0")?;
    } else {
        text.push(byte)?;
    }
    Ok(())
}

fn add_shown(text: &mut Vec<u8>, bytes: &[u8]) -> io::Result<()> {
    add_word(text, "bytes ")?;
    for byte in bytes {
        add_byte(text, *byte)?;
    }
    Ok(())
}

fn is_filled(bytes: &[u8], byte: u8) -> bool {
    bytes.len() > MOST_SHOWN && bytes.iter().all(|other| *other == byte)
}

fn add_bytes(text: &mut Vec<u8>, bytes: &[u8]) -> io::Result<()> {
    let first = bytes.first().copied().unwrap_or(0);
    if is_filled(bytes, first) {
        add_counted(text, "filled", u64::from(first))?;
        add_number(text, bytes.len() as u64)
    } else {
        add_shown(text, bytes)
    }
}

/// Adds a name, with a slash behind that of a directory.
fn add_name(text: &mut Vec<u8>, named: &Named) -> io::Result<()> {
    text.push(b' ')?;
    text.extend_from_slice(named.name.as_slice())?;
    if named.kind == Kind::Directory {
        text.push(b'/')?;
    }
    Ok(())
}

fn add_names(text: &mut Vec<u8>, names: &[Named]) -> io::Result<()> {
    add_word(text, "names")?;
    for named in names {
        add_name(text, named)?;
    }
    Ok(())
}

// ---- checkpoints

fn add_numbers(text: &mut Vec<u8>, word: &str, numbers: &[CheckpointNumber]) -> io::Result<()> {
    add_word(text, word)?;
    for number in numbers {
        add_number(text, number.get())?;
    }
    Ok(())
}

fn add_stays(text: &mut Vec<u8>, stays: &Stays) -> io::Result<()> {
    add_counted(text, "|", stays.number.get())?;
    add_word(text, stays.reason.name())
}

/// Adds the numbers that are removed, and those that stay with the reasons.
fn add_range(text: &mut Vec<u8>, range: &Range) -> io::Result<()> {
    add_numbers(text, "removed", range.removed.as_slice())?;
    for stays in range.stayed.as_slice() {
        add_stays(text, stays)?;
    }
    Ok(())
}

/// Adds the number of a checkpoint, its stamp, its mode, whether it is minor, and its inodes, behind a word.
pub(crate) fn add_row(text: &mut Vec<u8>, word: &str, row: &Row) -> io::Result<()> {
    add_counted(text, word, row.number.get())?;
    add_number(text, row.stamp)?;
    add_word(
        text,
        if row.mode.is_snapshot() {
            "snapshot"
        } else {
            "plain"
        },
    )?;
    if row.minor {
        add_word(text, "minor")?;
    }
    add_number(text, row.inodes)
}

fn add_rows(text: &mut Vec<u8>, rows: &[Row]) -> io::Result<()> {
    add_word(text, "rows")?;
    for row in rows {
        add_row(text, "|", row)?;
    }
    Ok(())
}

// ---- replies

fn add_answer(text: &mut Vec<u8>, answer: &Answer) -> io::Result<()> {
    match answer {
        Answer::Done => add_word(text, "done"),
        Answer::Written(count) => add_counted(text, "written", *count),
        Answer::Bytes(bytes) => add_bytes(text, bytes.as_slice()),
        Answer::Names(names) => add_names(text, names.as_slice()),
        Answer::Stat(Stat::File(size)) => add_counted(text, "file", *size),
        Answer::Stat(Stat::Dir(names)) => add_counted(text, "directory", *names),
        Answer::Checkpoint(number) => add_counted(text, "checkpoint", number.get()),
        Answer::Mount(number) => add_counted(text, "mount", number.get()),
        Answer::Removed(range) => add_range(text, range),
        Answer::Expired(gone) => add_numbers(text, "expired", gone.as_slice()),
        Answer::Moved { moved, left } => {
            add_counted(text, "moved", u64::from(*moved))?;
            add_counted(text, "left", u64::from(*left))
        }
        Answer::Freed(count) => add_counted(text, "freed", u64::from(*count)),
        Answer::Rows(rows) => add_rows(text, rows.as_slice()),
    }
}

fn add_reply(text: &mut Vec<u8>, reply: &Reply) -> io::Result<()> {
    match reply {
        Ok(answer) => add_answer(text, answer),
        Err(refusal) => add_refusal(text, *refusal),
    }
}

pub(crate) fn reply_text(alloc: Global, reply: &Reply) -> io::Result<Vec<u8>> {
    let mut text = Vec::new(alloc);
    add_reply(&mut text, reply)?;
    Ok(text)
}
