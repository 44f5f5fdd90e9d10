//! What is kept of the tree of an archive.
use crate::faults::{Fault, fault_at, system_fault, told};
use crate::gauge::{Gauge, MOST_BYTES, Stop};
use crate::printing::Printer;
use nl_folders::{Path, Tree, begins_with};
use nl_host::Reason;
use nl_manifests::{Attributes, HostEntry, HostObject, HostTree, SealError, Time, seal};
use nl_names::Name;
use nl_pins::is_of_pins;
use nl_tar::{Fault as ArchiveFault, Field, InputError, Limits, Loss, Note, Refusal, Unpacked};
use nl_types::Items;
use nl_types::limits::{FILE_LIMIT, PATH_LENGTH_LIMIT, PATH_LIMIT};
use std::alloc::{AllocError, Global};
use std::{fmt, io, str};

/// What is said of what comes from standard input.
pub const INPUT: &str = "standard input";

/// What is said of a tree of too many paths.
pub const TOO_MANY: &str =
    "has more files and folders than a volume takes, a manifest of each folder counted";

/// How much an archive may have. A name may be spelled by some bytes more than its path.
pub const LIMITS: Limits = Limits {
    file: FILE_LIMIT,
    bytes: MOST_BYTES,
    paths: PATH_LIMIT as u64,
    name: PATH_LENGTH_LIMIT as u64 + 64,
};

/// The most bytes that the target of a link may have.
const TARGET_LIMIT: usize = 4095;

/// The name that a manifest has.
const MANIFEST: &[u8] = b".nlkeep";

/// How many bytes it adds to the path of its folder.
const MANIFEST_BYTES: usize = 8;

/// What a folder has that an archive has no member of.
const USUAL: Attributes = Attributes {
    mode: 0o755,
    owner: 0,
    group: 0,
    time: Time {
        is_negative: false,
        seconds: 0,
        nanoseconds: 0,
    },
};

/// Why something of an archive isn't kept.
#[derive(Clone, Copy)]
pub enum Unkept {
    /// As nothing of a host would be kept.
    As(Reason),
    /// It is a link whose target has more bytes than a system takes.
    LongTarget,
    Owner,
    Group,
    Date,
}

impl fmt::Display for Unkept {
    fn fmt<W: fmt::Write>(&self, f: &mut fmt::Formatter<W>) -> fmt::Result {
        match self {
            Unkept::As(reason) => write!(f, "{reason}"),
            Unkept::LongTarget => f.write_str("a link to what has more than 4095 bytes"),
            Unkept::Owner => f.write_str("its owner, for whom no manifest has room: it is 0"),
            Unkept::Group => f.write_str("its group, for which no manifest has room: it is 0"),
            Unkept::Date => f.write_str("its date, for which no manifest has room: it is 1970"),
        }
    }
}

/// What is to be kept of an archive, and what is left out of it.
#[derive(Drop)]
pub struct Kept {
    pub folder: HostTree,
    pub left_out: Items<(Path, Unkept)>,
}

// ---- entries

/// How many bytes a path is spelled by.
fn path_bytes(path: &[Name]) -> usize {
    let mut count: usize = 0;
    for name in path {
        count = count.saturating_add(1).saturating_add(name.len());
    }
    count
}

/// How many bytes the longest path has that an entry needs: a folder needs that of its manifest too.
fn needed_bytes(path: &[Name], object: &HostObject) -> usize {
    let bytes = path_bytes(path);
    match object {
        HostObject::Directory => bytes.saturating_add(MANIFEST_BYTES),
        _ => bytes,
    }
}

/// Whether a path has the name of a manifest, or that of the file of pins.
fn is_reserved(path: &[Name]) -> bool {
    match path {
        [.., name] => name.as_slice() == MANIFEST || is_of_pins(path),
        [] => false,
    }
}

fn has_long_target(object: &HostObject) -> bool {
    match object {
        HostObject::Link(target) => target.len() > TARGET_LIMIT,
        _ => false,
    }
}

/// Why an entry isn't kept, if it isn't.
fn why_left_out(path: &[Name], object: &HostObject) -> Option<Unkept> {
    if is_reserved(path) {
        Some(Unkept::As(Reason::Reserved))
    } else if needed_bytes(path, object) > PATH_LENGTH_LIMIT {
        Some(Unkept::As(Reason::LongPath))
    } else if has_long_target(object) {
        Some(Unkept::LongTarget)
    } else {
        None
    }
}

/// An entry with the attributes that an archive tells of it, or the usual ones.
fn with_attributes(entry: HostEntry) -> HostEntry {
    HostEntry {
        object: entry.object,
        attributes: Some(entry.attributes.unwrap_or(USUAL)),
    }
}

/// Whether a path is that of the last folder that was left out, or lies below it.
fn is_below_last(path: &[Name], left_out: &[(Path, Unkept)]) -> bool {
    match left_out {
        [.., (last, _)] => begins_with(path, last.as_slice()),
        [] => false,
    }
}

/// The entries that are kept. Of what is left out, that is noted below which all else is.
fn kept_entries(
    alloc: Global,
    tree: HostTree,
    left_out: &mut Items<(Path, Unkept)>,
) -> Result<HostTree, AllocError> {
    let mut kept = Items::new(alloc);
    for (path, entry) in tree.into_vec() {
        if is_below_last(path.as_slice(), left_out.as_slice()) {
            continue;
        }
        match why_left_out(path.as_slice(), &entry.object) {
            Some(reason) => left_out.push((path, reason))?,
            None => kept.push((path, with_attributes(entry)))?,
        }
    }
    Ok(kept)
}

/// Why what a note tells of isn't kept.
fn why_noted(loss: Loss) -> Unkept {
    match loss {
        Loss::Special => Unkept::As(Reason::Special),
        Loss::LongName => Unkept::As(Reason::LongPath),
        Loss::Owner => Unkept::Owner,
        Loss::Group => Unkept::Group,
        Loss::Date => Unkept::Date,
    }
}

/// What was noted as the archive was read.
fn take_notes(notes: Items<Note>, left_out: &mut Items<(Path, Unkept)>) -> Result<(), AllocError> {
    for Note { path, loss } in notes.into_vec() {
        left_out.push((path, why_noted(loss)))?;
    }
    Ok(())
}

// ---- all of it

/// Why no tree of a volume shows one of the host.
pub fn seal_fault(alloc: Global, path: &str, error: SealError, unshown: &str) -> Fault {
    match error {
        SealError::Memory => Fault::Memory,
        SealError::Unshown => fault_at(alloc, path, unshown),
        SealError::TooBig => fault_at(alloc, path, TOO_MANY),
    }
}

/// The tree of a volume that shows one of the host.
pub fn sealed(
    alloc: Global,
    path: &str,
    tree: &[(Path, HostEntry)],
    unshown: &str,
) -> Result<Tree, Fault> {
    match seal(alloc, tree) {
        Ok(tree) => Ok(tree),
        Err(error) => Err(seal_fault(alloc, path, error, unshown)),
    }
}

/// What is kept of an archive: all but devices and pipes, the name of manifests, paths above 4,095 bytes and
/// what lies below these, links whose targets are longer than that, and owners and dates for which a manifest
/// has no room. A folder that the archive has no member of gets the usual attributes.
pub fn kept_of(alloc: Global, unpacked: Unpacked) -> Result<Kept, AllocError> {
    let mut left_out = Items::new(alloc);
    let folder = kept_entries(alloc, unpacked.tree, &mut left_out)?;
    take_notes(unpacked.left_out, &mut left_out)?;
    Ok(Kept { folder, left_out })
}

// ---- refusals

/// What is said of a number that is none.
fn number_text(field: Field) -> &'static str {
    match field {
        Field::Mode => "its mode is no number, or too great a one",
        Field::Owner => "its owner is no number, or too great a one",
        Field::Group => "its group is no number, or too great a one",
        Field::Size => "its size is no number, or too great a one",
        Field::Date => "its date is no number, or too great a one",
    }
}

/// What is said of a fault of an archive.
fn text_of(fault: ArchiveFault) -> &'static str {
    match fault {
        ArchiveFault::CutShort => "the archive is cut short",
        ArchiveFault::BadChecksum => "no header of an archive is there",
        ArchiveFault::BadNumber => "a number that is none, or too great",
        ArchiveFault::BadField(field) => number_text(field),
        ArchiveFault::BadRecord => "a record of an extended header that is none",
        ArchiveFault::BadName => "a name that can't stand in a path, or a link to nothing",
        ArchiveFault::UnknownKind => "a member of a kind that POSIX does not have",
        ArchiveFault::Sparse => SPARSE,
        ArchiveFault::BadMap => "the map of its holes has no form, or doesn't fit it",
        ArchiveFault::NoTarget => "a hard link to no file or link before it",
        ArchiveFault::Taken => "a member below a file or a link, or in the place of a folder",
        ArchiveFault::GreatFile(_) => "has more than 64M, and no volume takes such files",
        ArchiveFault::TooMuch => TOO_MUCH,
        ArchiveFault::TooMany => TOO_MANY,
    }
}

/// What is said of a file with holes.
const SPARSE: &str = "a file with holes in a form that GNU tar does not have: \
    bsdtar --no-read-sparse, and tar without --sparse, write it whole";

/// What is said of an archive with too many bytes.
const TOO_MUCH: &str = "has more than 256M in files, and no volume takes that";

/// The name of a member as an archive has it, with what stands behind it. Control characters of it would do
/// harm at a terminal.
fn member_text(alloc: Global, name: &[u8]) -> io::Result<Vec<u8>> {
    let mut printer = Printer {
        out: Vec::new(alloc),
        is_terminal: true,
    };
    if !name.is_empty() {
        printer.text(str::from_utf8(name).unwrap_or("a name that is no UTF-8"))?;
        printer.text(": ")?;
    }
    Ok(printer.out)
}

/// What is said of the member whose header stands at a byte.
fn member_fault(alloc: Global, offset: u64, name: &[u8], text: &str) -> Fault {
    match member_text(alloc, name) {
        Ok(member) => {
            let member = str::from_utf8(member.as_slice()).unwrap_or("");
            told(format!(in alloc; "{INPUT}: byte {offset}: {member}{text}"))
        }
        Err(_) => Fault::Memory,
    }
}

fn great_file_fault(alloc: Global, offset: u64, name: &[u8], bytes: u64) -> Fault {
    match format!(in alloc; "has {bytes} bytes, and no volume takes files above 64M") {
        Ok(text) => member_fault(alloc, offset, name, text.as_str()),
        Err(_) => Fault::Memory,
    }
}

/// What is said of an archive that is refused.
fn refusal_fault(alloc: Global, refusal: Refusal, name: &[u8]) -> Fault {
    let offset = refusal.offset;
    match refusal.fault {
        ArchiveFault::GreatFile(bytes) => great_file_fault(alloc, offset, name, bytes),
        ArchiveFault::TooMuch => fault_at(alloc, INPUT, TOO_MUCH),
        ArchiveFault::TooMany => fault_at(alloc, INPUT, TOO_MANY),
        fault => member_fault(alloc, offset, name, text_of(fault)),
    }
}

/// What is said of an archive that isn't read to its end.
fn stop_fault(alloc: Global, stop: &Stop) -> Fault {
    match stop {
        Stop::Compressed(by) => told(format!(in alloc;
            "{INPUT}: is compressed by {by}: it can be read behind {by} -dc"
        )),
        Stop::GreatFile(offset, bytes, name) => {
            great_file_fault(alloc, *offset, name.as_slice(), *bytes)
        }
        Stop::TooMuch => fault_at(alloc, INPUT, TOO_MUCH),
        Stop::Unread(error) => system_fault(alloc, INPUT, "cannot be read", error),
    }
}

/// Why there is no tree of what standard input gives.
pub fn input_fault(alloc: Global, error: InputError, gauge: &Gauge) -> Fault {
    if let Some(stop) = &gauge.stop {
        return stop_fault(alloc, stop);
    }
    match error {
        InputError::Unread => fault_at(alloc, INPUT, "cannot be read"),
        InputError::Memory => Fault::Memory,
        InputError::Refused(refusal, name) => refusal_fault(alloc, refusal, name.as_slice()),
    }
}
