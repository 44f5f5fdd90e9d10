//! Refusals, and lines that are no command.
ghost use Rattle.std.specs.Prelude.{◌≡◌, OnOk};
ghost use Rattle.std.specs.Io.KnownBytes.{Appends};
ghost use Rattle.nl_script.specs.RefusalTexts.{changed_text, place_text, kind_text, detail_of, detail_text, in_use_text, refusal_text, save_text, start_text, step_text, taken_text, unread_text, unwritten_text, usage_text};

use nl_types::VolError;
use std::io;
use std::io::Write;

/// What a refusal says beyond its name.
fn detail_of(error: VolError) -> Option<u64>
    ensures { result ≡ detail_of error }
{
    match error {
        VolError::BadImage(condition) => Some(u64::from(condition)),
        VolError::BadConfig(line) => Some(line),
        _ => None,
    }
}

fn place<W: Write>(line: u64, number: Option<u64>, out: &mut W) -> io::Result<()>
    ensures { OnOk result (Appends (W.contents out.old) (W.contents out.new)
        (place_text line number)) }
{
    match number {
        None => write!(out, "{line}: "),
        Some(number) => write!(out, "{line}: {number}: "),
    }
}

fn kind<W: Write>(error: VolError, out: &mut W) -> io::Result<()>
    ensures { OnOk result (Appends (W.contents out.old) (W.contents out.new) (kind_text error)) }
{
    write!(out, "error {} {}", error.number(), error.name())
}

fn detail<W: Write>(detail: Option<u64>, out: &mut W) -> io::Result<()>
    ensures { OnOk result (Appends (W.contents out.old) (W.contents out.new)
        (detail_text detail)) }
{
    match detail {
        None => Ok(()),
        Some(detail) => write!(out, " {detail}"),
    }
}

/// Writes that a line of the script was refused, or one of its numbers, where each is a call of its own.
pub fn refusal_text<W: Write>(
    line: u64,
    number: Option<u64>,
    error: VolError,
    out: &mut W,
) -> io::Result<()>
    ensures { OnOk result (Appends (W.contents out.old) (W.contents out.new)
        (refusal_text line number error)) }
{
    place(line, number, out)?;
    kind(error, out)?;
    detail(detail_of(error), out)?;
    out.write_all(b"\n")
}

/// Writes that a line of the script is no command.
pub fn usage_text<W: Write>(line: u64, out: &mut W) -> io::Result<()>
    ensures { OnOk result (Appends (W.contents out.old) (W.contents out.new) (usage_text line)) }
{
    writeln!(out, "{line}: usage")
}

/// What the program does before the first line.
#[derive(Clone, Copy)]
pub enum StartStep {
    /// It reads the configuration.
    Configuration,
    /// It judges the image of the volume.
    Image,
    /// It judges the geometry.
    Geometry,
    /// It makes the volume, and takes the memory for it and for its streams.
    Start,
}

fn step(step: StartStep) -> &'static [u8]
    ensures { result.now ≡ step_text step }
{
    match step {
        StartStep::Configuration => b"conf: ",
        StartStep::Image => b"image: ",
        StartStep::Geometry => b"geometry: ",
        StartStep::Start => b"start: ",
    }
}

/// Writes that a step before the first line was refused.
pub fn start_text<W: Write>(what: StartStep, error: VolError, out: &mut W) -> io::Result<()>
    ensures { OnOk result (Appends (W.contents out.old) (W.contents out.new)
        (start_text what error)) }
{
    out.write_all(step(what))?;
    kind(error, out)?;
    detail(detail_of(error), out)?;
    out.write_all(b"\n")
}

/// Writes that the image of the volume isn't saved in the end.
pub fn save_text<W: Write>(error: VolError, out: &mut W) -> io::Result<()>
    ensures { OnOk result (Appends (W.contents out.old) (W.contents out.new) (save_text error)) }
{
    out.write_all(b"save: ")?;
    kind(error, out)?;
    detail(detail_of(error), out)?;
    out.write_all(b"\n")
}

/// Writes that a file can't be read.
pub fn unread_text<W: Write>(path: &[u8], out: &mut W) -> io::Result<()>
    ensures { OnOk result (Appends (W.contents out.old) (W.contents out.new)
        (unread_text path.now)) }
{
    out.write_all(path)?;
    out.write_all(b": cannot be read\n")
}

/// Writes that a file can't be written.
pub fn unwritten_text<W: Write>(path: &[u8], out: &mut W) -> io::Result<()>
    ensures { OnOk result (Appends (W.contents out.old) (W.contents out.new)
        (unwritten_text path.now)) }
{
    out.write_all(path)?;
    out.write_all(b": cannot be written\n")
}

/// Writes that another program has a file in use.
pub fn in_use_text<W: Write>(path: &[u8], out: &mut W) -> io::Result<()>
    ensures { OnOk result (Appends (W.contents out.old) (W.contents out.new)
        (in_use_text path.now)) }
{
    out.write_all(path)?;
    out.write_all(b": is in use by another program\n")
}

/// Writes that a file can't be written, since no name beside it is free for a new one: which ones are taken,
/// the first and the last, and what to do.
pub fn taken_text<W: Write>(path: &[u8], first: &[u8], last: &[u8], out: &mut W) -> io::Result<()>
    ensures { OnOk result (Appends (W.contents out.old) (W.contents out.new)
        (taken_text path.now first.now last.now)) }
{
    out.write_all(path)?;
    out.write_all(b": cannot be written: beside it stand ")?;
    out.write_all(first)?;
    out.write_all(b" to ")?;
    out.write_all(last)?;
    out.write_all(b": move away those that are worth keeping, and remove the others\n")
}

/// Writes that another program changed a file, and where the image is that was to be in it.
pub fn changed_text<W: Write>(path: &[u8], side: &[u8], out: &mut W) -> io::Result<()>
    ensures { OnOk result (Appends (W.contents out.old) (W.contents out.new)
        (changed_text path.now side.now)) }
{
    out.write_all(path)?;
    out.write_all(b": was changed by another program: this session is in ")?;
    out.write_all(side)?;
    out.write_all(b"\n")
}
