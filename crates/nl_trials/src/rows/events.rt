//! The events of lines: a line's first word says which one, and the words behind it are what it takes.
use crate::rows::words::{
    byte_at, has_word, number_at, number_behind, number_or, size_at, small_at, word_at,
};
use nl_types::{
    Ask, Change, CheckpointNumber, Event, Items, ListOptions, Mode, MountNumber, Segment,
};
use std::alloc::{AllocError, Global};

/// `plain` or `snapshot`.
fn mode_at(words: &[&str], place: usize) -> Mode {
    if word_at(words, place) == "snapshot" {
        Mode::Snapshot
    } else {
        Mode::Plain
    }
}

/// `reverse`, `snapshots`, `minor`, `from NUMBER` and `count COUNT`, in any order.
fn options_of(words: &[&str]) -> ListOptions {
    ListOptions {
        reverse: has_word(words, "reverse"),
        snapshots_only: has_word(words, "snapshots"),
        with_minor: has_word(words, "minor"),
        from: number_behind(words, "from").map(CheckpointNumber::new),
        count: number_behind(words, "count"),
    }
}

/// An event on checkpoints or mounts.
fn checkpoint_event(words: &[&str]) -> Option<Event> {
    let (first, second) = (number_at(words, 1), number_at(words, 2));
    let number = CheckpointNumber::new(first);
    Some(match word_at(words, 0) {
        "checkpoint" => Event::Checkpoint {
            mode: mode_at(words, 1),
            moment: second,
        },
        "chcp" => Event::ChangeMode(number, mode_at(words, 2)),
        "rmcp" => Event::Remove(number),
        "range" => Event::RemoveRange {
            first: number,
            last: CheckpointNumber::new(second),
        },
        "expire" => Event::Expire {
            now: first,
            period: second,
        },
        "listing" => Event::Listing(options_of(words)),
        "mount" => Event::Mount(number),
        "unmount" => Event::Unmount(MountNumber::new(first)),
        _ => return None,
    })
}

/// An event on segments.
fn segment_event(words: &[&str]) -> Option<Event> {
    let number = small_at(words, 1);
    Some(match word_at(words, 0) {
        "move" => Event::Move {
            segment: Segment::new(number),
            limit: small_at(words, 2),
            now: 0,
        },
        "retire" => Event::Retire(Segment::new(number)),
        "resize" => Event::Resize(number),
        _ => return None,
    })
}

fn bytes_at(alloc: Global, words: &[&str], place: usize) -> Result<Items<u8>, AllocError> {
    Items::from_slice(alloc, word_at(words, place).as_bytes())
}

/// A question about a tree: `read PATH OFFSET [LENGTH]`, `ls PATH` or `stat PATH`.
fn ask_of(alloc: Global, words: &[&str]) -> Result<Option<Ask>, AllocError> {
    let path = bytes_at(alloc, words, 1)?;
    Ok(Some(match word_at(words, 0) {
        "read" => Ask::Bytes {
            path,
            offset: number_at(words, 2),
            len: number_or(words, 3, u64::MAX),
        },
        "ls" => Ask::List { path },
        "stat" => Ask::Stat { path },
        _ => return Ok(None),
    }))
}

/// The question behind a word and a number.
pub(crate) fn ask_behind(alloc: Global, words: &[&str]) -> Result<Option<Ask>, AllocError> {
    ask_of(alloc, words.get(2..).unwrap_or_default())
}

/// A question about the current tree, or `mounted NUMBER` and one about a mount's.
fn question_of(alloc: Global, words: &[&str]) -> Result<Option<Event>, AllocError> {
    if word_at(words, 0) != "mounted" {
        return Ok(ask_of(alloc, words)?.map(Event::Read));
    }
    let mount = MountNumber::new(number_at(words, 1));
    match ask_behind(alloc, words)? {
        Some(ask) => Ok(Some(Event::MountRead(mount, ask))),
        None => Ok(None),
    }
}

/// The path of `create PATH [PART COUNT]`: it ends with the part so many times.
fn long_path(alloc: Global, words: &[&str]) -> Result<Items<u8>, AllocError> {
    let mut path = word_at(words, 1).as_bytes().to_vec(alloc)?;
    for _ in 0..number_at(words, 3) {
        path.extend_from_slice(word_at(words, 2).as_bytes())?;
    }
    Ok(Items::from_vec(path))
}

/// The bytes of `fill PATH OFFSET BYTE COUNT`: the byte so many times.
fn filling(alloc: Global, words: &[&str]) -> Result<Items<u8>, AllocError> {
    let bytes = vec![in alloc; byte_at(words, 3); size_at(words, 4)]?;
    Ok(Items::from_vec(bytes))
}

/// The text of `write PATH OFFSET [TEXT]`, the bytes of `fill`, or the second path of `rename FROM TO`.
fn rest_of(alloc: Global, words: &[&str]) -> Result<Items<u8>, AllocError> {
    match word_at(words, 0) {
        "write" => bytes_at(alloc, words, 3),
        "fill" => filling(alloc, words),
        _ => bytes_at(alloc, words, 2),
    }
}

/// A file call that changes the current tree.
fn change_of(alloc: Global, words: &[&str]) -> Result<Option<Change>, AllocError> {
    let path = bytes_at(alloc, words, 1)?;
    let rest = rest_of(alloc, words)?;
    let number = number_at(words, 2);
    Ok(Some(match word_at(words, 0) {
        "create" => Change::Create {
            path: long_path(alloc, words)?,
        },
        "mkdir" => Change::Mkdir { path },
        "write" | "fill" => Change::Write {
            path,
            offset: number,
            bytes: rest,
        },
        "truncate" => Change::Truncate { path, size: number },
        "unlink" => Change::Unlink { path },
        "rmdir" => Change::Rmdir { path },
        "rename" => Change::Rename {
            from: path,
            to: rest,
        },
        _ => return Ok(None),
    }))
}

/// The event of a line, where it is one.
pub(crate) fn event_of(alloc: Global, words: &[&str]) -> Result<Option<Event>, AllocError> {
    if let Some(event) = checkpoint_event(words) {
        return Ok(Some(event));
    }
    if let Some(event) = segment_event(words) {
        return Ok(Some(event));
    }
    if let Some(event) = question_of(alloc, words)? {
        return Ok(Some(event));
    }
    Ok(change_of(alloc, words)?.map(Event::Apply))
}
