//! Objects of JSON, one a line, in the place of texts. Names that aren't UTF-8 have U+FFFD in the place of
//! what is none.
use crate::checkpoints::is_minor;
use crate::faults::Fault;
use crate::printing::{Printer, Seen};
use nl_manifests::{Attributes, HostDifference, HostObject, Time};
use nl_names::Name;
use nl_types::{Mode, Row};
use serde::Serialize;
use std::alloc::{AllocError, Global};
use std::io::{self, Write};

/// What stands in an object of JSON as it is. Of control characters the library escapes those below a space
/// alone, and `<` would end an element of HTML around it.
fn is_plain(character: char) -> bool {
    character != '<' && !character.is_control()
}

/// An object with all of its characters plain. Others stand in its texts alone.
fn escaped(alloc: Global, text: &str) -> io::Result<Vec<u8>> {
    let mut bytes = Vec::with_capacity(alloc, text.len())?;
    for character in text.chars() {
        if is_plain(character) {
            write!(bytes, "{character}")?;
        } else {
            write!(bytes, "\\u{:04x}", u32::from(character))?;
        }
    }
    Ok(bytes)
}

fn write_escaped<W: Write>(alloc: Global, text: &str, printer: &mut Printer<W>) -> io::Result<()> {
    if text.chars().all(is_plain) {
        return printer.out.write_all(text.as_bytes());
    }
    printer.out.write_all(escaped(alloc, text)?.as_slice())
}

/// Writes an object and the end of the line, with all control characters escaped.
pub fn object<T: Serialize, W: Write>(
    alloc: Global,
    value: &T,
    printer: &mut Printer<W>,
) -> Result<(), Fault> {
    match serde_json::to_string(alloc, value) {
        Ok(text) => {
            write_escaped(alloc, text.as_str(), printer)?;
            printer.line()?;
            Ok(())
        }
        // Nothing but memory lacks where numbers and texts are written.
        Err(_) => Err(Fault::Memory),
    }
}

/// A path as `ls` shows it, but without a slash behind that of a folder.
pub fn path_text(alloc: Global, path: &[Name]) -> Result<String, AllocError> {
    let mut bytes: Vec<u8> = Vec::new(alloc);
    for name in path {
        bytes.push(b'/')?;
        bytes.extend_from_slice(name.as_slice())?;
    }
    if path.is_empty() {
        bytes.push(b'/')?;
    }
    String::from_utf8_lossy(alloc, bytes.as_slice())
}

// ---- checkpoints

/// A checkpoint.
#[derive(Drop, Serialize)]
pub struct CheckpointObject<'a> {
    checkpoint: u64,
    /// Its date in seconds since 1970, and in the system's zone.
    seconds: u64,
    date: &'a str,
    kind: &'static str,
    inodes: u64,
    pinned: bool,
    #[serde(skip_serializing_if = "Option::is_none")]
    text: Option<String>,
    #[serde(skip_serializing_if = "Option::is_none")]
    paths: Option<u64>,
    #[serde(skip_serializing_if = "Option::is_none")]
    bytes: Option<u64>,
}

/// What a kind of checkpoint is called.
fn kind_word(row: &Row) -> &'static str {
    match row.mode {
        Mode::Snapshot => "snapshot",
        Mode::Plain if is_minor(row) => "minor",
        Mode::Plain => "plain",
    }
}

impl<'a> CheckpointObject<'a> {
    /// What is told of a checkpoint of this date. `pin` is what is noted of it, where it is pinned.
    pub fn of(
        alloc: Global,
        row: &Row,
        date: &'a str,
        pin: Option<&[u8]>,
    ) -> Result<CheckpointObject<'a>, AllocError> {
        let text = match pin {
            Some(text) => Some(String::from_utf8_lossy(alloc, text)?),
            None => None,
        };
        Ok(CheckpointObject {
            checkpoint: row.number.get(),
            seconds: row.stamp,
            date,
            kind: kind_word(row),
            inodes: row.inodes,
            pinned: pin.is_some(),
            text,
            paths: None,
            bytes: None,
        })
    }

    /// Notes how many paths and bytes its tree has.
    pub fn set_amount(&mut self, paths: u64, bytes: u64) {
        self.paths = Some(paths);
        self.bytes = Some(bytes);
    }
}

// ---- entries

/// What stands at a path.
#[derive(Drop, Serialize)]
pub struct EntryObject {
    kind: &'static str,
    /// Of a file.
    #[serde(skip_serializing_if = "Option::is_none")]
    bytes: Option<u64>,
    /// Where a link leads.
    #[serde(skip_serializing_if = "Option::is_none")]
    target: Option<String>,
    /// In octal digits.
    #[serde(skip_serializing_if = "Option::is_none")]
    mode: Option<String>,
    #[serde(skip_serializing_if = "Option::is_none")]
    owner: Option<u32>,
    #[serde(skip_serializing_if = "Option::is_none")]
    group: Option<u32>,
    /// The time of the last change, in seconds since 1970, whole ones at or before it.
    #[serde(skip_serializing_if = "Option::is_none")]
    changed: Option<i64>,
}

/// The last whole second at or before a time.
fn second_of(time: Time) -> i64 {
    let seconds = i64::try_from(time.seconds).unwrap_or(i64::MAX);
    if time.is_negative {
        seconds.saturating_neg()
    } else {
        seconds
    }
}

fn mode_text(alloc: Global, attributes: Attributes) -> Result<String, AllocError> {
    format!(in alloc; "{:04o}", attributes.mode)
}

fn kind_of(object: &HostObject) -> &'static str {
    match object {
        HostObject::File(_) => "file",
        HostObject::Directory => "folder",
        HostObject::Link(_) => "link",
    }
}

fn target_of(alloc: Global, object: &HostObject) -> Result<Option<String>, AllocError> {
    match object {
        HostObject::Link(target) => Ok(Some(String::from_utf8_lossy(alloc, target.as_slice())?)),
        _ => Ok(None),
    }
}

impl EntryObject {
    pub fn of(alloc: Global, seen: &Seen<'_>) -> Result<EntryObject, AllocError> {
        let attributes = seen.entry.attributes;
        let mode = match attributes {
            Some(known) => Some(mode_text(alloc, known)?),
            None => None,
        };
        let object = &seen.entry.object;
        Ok(EntryObject {
            kind: kind_of(object),
            bytes: if matches!(object, HostObject::File(_)) {
                Some(seen.size)
            } else {
                None
            },
            target: target_of(alloc, object)?,
            mode,
            owner: attributes.map(|known| known.owner),
            group: attributes.map(|known| known.group),
            changed: attributes.map(|known| second_of(known.time)),
        })
    }

    fn of_some(alloc: Global, seen: Option<Seen<'_>>) -> Result<Option<EntryObject>, AllocError> {
        match seen {
            Some(seen) => Ok(Some(EntryObject::of(alloc, &seen)?)),
            None => Ok(None),
        }
    }
}

/// What stands at a path, with the path.
#[derive(Drop, Serialize)]
pub struct PlacedObject {
    path: String,
    #[serde(flatten)]
    entry: EntryObject,
}

impl PlacedObject {
    pub fn of(alloc: Global, path: &[Name], seen: &Seen<'_>) -> Result<PlacedObject, AllocError> {
        Ok(PlacedObject {
            path: path_text(alloc, path)?,
            entry: EntryObject::of(alloc, seen)?,
        })
    }
}

/// What differs at a path.
#[derive(Drop, Serialize)]
pub struct DifferenceObject {
    path: String,
    change: &'static str,
    old: Option<EntryObject>,
    new: Option<EntryObject>,
}

fn change_word(difference: HostDifference) -> &'static str {
    match difference {
        HostDifference::Added => "added",
        HostDifference::Removed => "removed",
        HostDifference::Rewritten => "rewritten",
        HostDifference::Replaced => "replaced",
        HostDifference::Changed => "changed",
    }
}

impl DifferenceObject {
    pub fn of(
        alloc: Global,
        path: &[Name],
        difference: HostDifference,
        old: Option<Seen<'_>>,
        new: Option<Seen<'_>>,
    ) -> Result<DifferenceObject, AllocError> {
        Ok(DifferenceObject {
            path: path_text(alloc, path)?,
            change: change_word(difference),
            old: EntryObject::of_some(alloc, old)?,
            new: EntryObject::of_some(alloc, new)?,
        })
    }
}

/// What stands at a path from a checkpoint on, if anything.
#[derive(Drop, Serialize)]
pub struct StandingObject<'a> {
    checkpoint: u64,
    seconds: u64,
    date: &'a str,
    entry: Option<EntryObject>,
}

impl<'a> StandingObject<'a> {
    pub fn of(
        alloc: Global,
        row: &Row,
        date: &'a str,
        seen: Option<Seen<'_>>,
    ) -> Result<StandingObject<'a>, AllocError> {
        Ok(StandingObject {
            checkpoint: row.number.get(),
            seconds: row.stamp,
            date,
            entry: EntryObject::of_some(alloc, seen)?,
        })
    }
}
