//! What goes to standard output and error.
use crate::complaining::complain;
use crate::parts::path_said;
use nl_folders::{Path, begins_with};
use nl_host::{LeftOut, Reason};
use nl_manifests::{Attributes, HostDifference, HostEntry, HostObject, LineFault};
use nl_names::Name;
use std::alloc::{AllocError, Global};
use std::fmt::Display;
use std::io::{self, Stderr, Write};
use std::str;

/// Standard output, or error.
#[derive(Drop)]
pub struct Printer<W: Write> {
    pub out: W,
    /// Whether a person reads it at a terminal, where control characters of names would do harm. Standard
    /// error is taken for one.
    pub is_terminal: bool,
}

/// What writes to standard error. A person reads it sooner or later, so names are escaped there always.
pub fn errors(rt: &HostRuntime) -> Printer<Stderr> {
    Printer {
        out: rt.stderr(),
        is_terminal: true,
    }
}

impl<W: Write> Printer<W> {
    /// A text that isn't ours.
    pub fn text(&mut self, text: &str) -> io::Result<()> {
        if !self.is_terminal {
            return self.out.write_all(text.as_bytes());
        }
        for character in text.chars() {
            if character.is_control() {
                write!(self.out, "\\u{{{:x}}}", u32::from(character))?;
            } else {
                write!(self.out, "{character}")?;
            }
        }
        Ok(())
    }

    /// A name that isn't UTF-8, at a terminal.
    fn odd_bytes(&mut self, bytes: &[u8]) -> io::Result<()> {
        for byte in bytes {
            if byte.is_ascii_graphic() || *byte == b' ' {
                self.out.write_all(&[*byte])?;
            } else {
                write!(self.out, "\\x{byte:02x}")?;
            }
        }
        Ok(())
    }

    fn name(&mut self, name: &[u8]) -> io::Result<()> {
        match str::from_utf8(name) {
            Ok(text) => self.text(text),
            Err(_) if self.is_terminal => self.odd_bytes(name),
            Err(_) => self.out.write_all(name),
        }
    }

    /// A path of a volume, with a slash behind that of a directory.
    pub fn path(&mut self, path: &[Name], is_directory: bool) -> io::Result<()> {
        for name in path {
            self.out.write_all(b"/")?;
            self.name(name.as_slice())?;
        }
        if is_directory || path.is_empty() {
            self.out.write_all(b"/")?;
        }
        Ok(())
    }

    /// That a checkpoint is pinned, and what was noted of it.
    pub fn pin(&mut self, text: &[u8]) -> io::Result<()> {
        self.out.write_all(b"  pinned")?;
        if !text.is_empty() {
            self.out.write_all(b": ")?;
            self.name(text)?;
        }
        Ok(())
    }

    pub fn line(&mut self) -> io::Result<()> {
        self.out.write_all(b"\n")
    }
}

/// What is told of what stands at a path.
#[derive(Clone, Copy)]
pub struct Seen<'t> {
    pub entry: &'t HostEntry,
    /// How many bytes it has, if it is a file.
    pub size: u64,
}

fn is_folder(seen: &Seen<'_>) -> bool {
    matches!(seen.entry.object, HostObject::Directory)
}

/// What a line on a difference begins with.
fn sign(difference: HostDifference) -> char {
    match difference {
        HostDifference::Added => '+',
        HostDifference::Removed => '-',
        HostDifference::Rewritten => 'M',
        HostDifference::Replaced => 'T',
        HostDifference::Changed => 'm',
    }
}

impl<W: Write> Printer<W> {
    /// Where a link leads to.
    fn target(&mut self, seen: &Seen<'_>) -> io::Result<()> {
        if let HostObject::Link(target) = &seen.entry.object {
            self.out.write_all(b" -> ")?;
            self.name(target.as_slice())?;
        }
        Ok(())
    }

    /// A path, and where it leads to, if it is that of a link.
    pub fn place(&mut self, path: &[Name], seen: &Seen<'_>) -> io::Result<()> {
        self.path(path, is_folder(seen))?;
        self.target(seen)
    }

    /// A name, with a slash behind that of a directory, and where it leads to, if it is that of a link.
    pub fn named(&mut self, name: &[u8], seen: &Seen<'_>) -> io::Result<()> {
        self.name(name)?;
        if is_folder(seen) {
            self.out.write_all(b"/")?;
        }
        self.target(seen)
    }

    /// What stands at a path, in a line: how many bytes a file has, and the path.
    pub fn entry(&mut self, path: &[Name], seen: &Seen<'_>) -> io::Result<()> {
        match seen.entry.object {
            HostObject::File(_) => write!(self.out, "{:>10}  ", seen.size)?,
            _ => write!(self.out, "{:>10}  ", "")?,
        }
        self.place(path, seen)?;
        self.line()
    }

    /// The same behind the number of a checkpoint.
    pub fn found(&mut self, number: u64, path: &[Name], seen: &Seen<'_>) -> io::Result<()> {
        write!(self.out, "{number:>8}  ")?;
        self.entry(path, seen)
    }

    /// What stands at a path of a checkpoint, if anything, in a line without the path.
    pub fn standing(&mut self, number: u64, date: &str, seen: Option<Seen<'_>>) -> io::Result<()> {
        write!(self.out, "{number:>8}  {date}  ")?;
        match seen {
            Some(seen) => match &seen.entry.object {
                HostObject::File(_) => write!(self.out, "{:>10} bytes", seen.size)?,
                HostObject::Directory => self.out.write_all(b"folder")?,
                HostObject::Link(target) => {
                    self.out.write_all(b"-> ")?;
                    self.name(target.as_slice())?;
                }
            },
            None => self.out.write_all(b"gone")?,
        }
        self.line()
    }

    /// What stood there before.
    fn earlier(&mut self, old: &Seen<'_>) -> io::Result<()> {
        match old.entry.object {
            HostObject::Directory => self.out.write_all(b"a folder before"),
            HostObject::Link(_) => self.out.write_all(b"a link before"),
            HostObject::File(_) => write!(self.out, "a file of {} bytes before", old.size),
        }
    }

    /// How many bytes a file has, and what else stood there.
    fn replaced(&mut self, old: &Seen<'_>, new: &Seen<'_>) -> io::Result<()> {
        self.out.write_all(b" (")?;
        if let HostObject::File(_) = new.entry.object {
            write!(self.out, "{} bytes, ", new.size)?;
        }
        self.earlier(old)?;
        self.out.write_all(b")")
    }

    /// How many bytes a file has.
    fn size(&mut self, seen: &Seen<'_>) -> io::Result<()> {
        match seen.entry.object {
            HostObject::File(_) => write!(self.out, " ({} bytes)", seen.size),
            _ => Ok(()),
        }
    }

    /// What is other of the mode and the owners, as far as both are known.
    fn attributes(&mut self, old: Attributes, new: Attributes) -> io::Result<()> {
        if old.mode != new.mode {
            write!(self.out, " (mode {:04o} to {:04o})", old.mode, new.mode)?;
        }
        if old.owner != new.owner {
            write!(self.out, " (owner {} to {})", old.owner, new.owner)?;
        }
        if old.group != new.group {
            write!(self.out, " (group {} to {})", old.group, new.group)?;
        }
        Ok(())
    }

    /// What is other of two entries of one kind.
    fn changed(&mut self, old: &Seen<'_>, new: &Seen<'_>) -> io::Result<()> {
        if let HostObject::Link(target) = &old.entry.object {
            if !is_to(new, target.as_slice()) {
                self.out.write_all(b" (to ")?;
                self.name(target.as_slice())?;
                self.out.write_all(b" before)")?;
            }
        }
        match (old.entry.attributes, new.entry.attributes) {
            (Some(old), Some(new)) => self.attributes(old, new),
            _ => Ok(()),
        }
    }

    /// What is other where something stood and something stands.
    fn both(
        &mut self,
        difference: HostDifference,
        old: &Seen<'_>,
        new: &Seen<'_>,
    ) -> io::Result<()> {
        match difference {
            HostDifference::Replaced => self.replaced(old, new),
            HostDifference::Rewritten => {
                write!(self.out, " ({} to {} bytes)", old.size, new.size)?;
                self.changed(old, new)
            }
            _ => self.changed(old, new),
        }
    }

    /// What differs at a path, in a line.
    pub fn difference(
        &mut self,
        path: &[Name],
        difference: HostDifference,
        old: Option<Seen<'_>>,
        new: Option<Seen<'_>>,
    ) -> io::Result<()> {
        write!(self.out, "{} ", sign(difference))?;
        match (old, new) {
            (Some(old), Some(new)) => {
                self.place(path, &new)?;
                self.both(difference, &old, &new)?;
            }
            (Some(one), None) | (None, Some(one)) => {
                self.place(path, &one)?;
                self.size(&one)?;
            }
            (None, None) => {}
        }
        self.line()
    }
}

/// Whether it is a link that leads there.
fn is_to(seen: &Seen<'_>, target: &[u8]) -> bool {
    match &seen.entry.object {
        HostObject::Link(to) => to.as_slice() == target,
        _ => false,
    }
}

/// Tells what is left out, a line each, on standard error.
pub fn tell_left_out(rt: &HostRuntime, all: &[LeftOut]) {
    let mut printer = errors(rt);
    for left in all {
        if printer.left_out(left).is_err() {
            return;
        }
    }
}

impl<W: Write> Printer<W> {
    /// That a file is kept as it was read, though it changed meanwhile.
    fn changed_file(&mut self, left: &LeftOut) -> io::Result<()> {
        write!(self.out, "nlkeep: {}: ", left.reason)?;
        self.text(left.path.as_str())?;
        self.out.write_all(b": kept as it was read\n")
    }

    fn left_out(&mut self, left: &LeftOut) -> io::Result<()> {
        if matches!(left.reason, Reason::Changed) {
            return self.changed_file(left);
        }
        self.out.write_all(b"nlkeep: left out: ")?;
        self.text(left.path.as_str())?;
        writeln!(self.out, ": {}", left.reason)
    }
}

/// Why a line of a manifest shows nothing.
fn fault(fault: LineFault) -> &'static str {
    match fault {
        LineFault::BadName => "a name that a manifest has, and no name",
        LineFault::NoFile => "a file that a manifest has, and none is there",
        LineFault::Taken => "a link that a manifest has, and something else is there",
    }
}

impl<W: Write> Printer<W> {
    fn refused(&mut self, path: &[Name], why: LineFault) -> io::Result<()> {
        self.out.write_all(b"nlkeep: left out: ")?;
        self.path(path, false)?;
        writeln!(self.out, ": {}", fault(why))
    }
}

/// Tells the lines of manifests at and below a path that show nothing, on standard error. Answers whether
/// there are none.
pub fn tell_refused(rt: &HostRuntime, all: &[(Path, LineFault)], top: &[Name]) -> bool {
    let mut printer = errors(rt);
    let mut is_whole = true;
    for (path, why) in all {
        if begins_with(path.as_slice(), top) {
            let _ = printer.refused(path.as_slice(), *why);
            is_whole = false;
        }
    }
    is_whole
}

/// The same of the path that a word says.
pub fn tell_refused_below(
    rt: &HostRuntime,
    all: &[(Path, LineFault)],
    word: &str,
) -> Result<bool, AllocError> {
    let top = path_said(rt.alloc(), word)?;
    Ok(tell_refused(rt, all, top.as_slice()))
}

impl<W: Write> Printer<W> {
    fn path_left_out<R: Display>(&mut self, path: &[Name], reason: &R) -> io::Result<()> {
        self.out.write_all(b"nlkeep: left out: ")?;
        self.path(path, false)?;
        writeln!(self.out, ": {reason}")
    }
}

/// Tells what is left out of an archive, a line each, on standard error.
pub fn tell_paths_left_out<R: Display>(rt: &HostRuntime, all: &[(Path, R)]) {
    let mut printer = errors(rt);
    for (path, reason) in all {
        if printer.path_left_out(path.as_slice(), reason).is_err() {
            return;
        }
    }
}

/// Tells that the file of pins is none.
pub fn tell_no_pins(rt: &HostRuntime) {
    complain(rt, "left out: /.nlkeep-pins: a file of pins that is none");
}

/// The last line of a text, which is all that a person is told who wants no more.
pub fn last_line(text: &[u8]) -> &[u8] {
    let mut begin: usize = 0;
    for (index, byte) in text.iter().enumerate() {
        let next = index.saturating_add(1);
        if *byte == b'\n' && next < text.len() {
            begin = next;
        }
    }
    let (_, line) = text.split_at(begin.min(text.len()));
    line
}

/// A path of a volume for a line on standard error, where control characters of names would do harm.
pub fn path_text(alloc: Global, path: &[Name]) -> io::Result<Vec<u8>> {
    let mut printer = Printer {
        out: Vec::new(alloc),
        is_terminal: true,
    };
    printer.path(path, false)?;
    Ok(printer.out)
}
