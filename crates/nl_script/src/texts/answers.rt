//! Answers to a line of the script.
ghost use Rattle.std.specs.Prelude.{◌≡◌, OnOk};
ghost use Rattle.std.specs.Io.KnownBytes.{Appends};
ghost use Rattle.nl_script.specs.AnswerTexts.{clean_text, number_text, content_text, stat_text, name_end, name_text, name_texts};

use nl_types::{Kind, Named, Stat};
use std::io;
use std::io::Write;

/// Writes the number of a checkpoint or of a mount.
pub fn number_line<W: Write>(number: u64, out: &mut W) -> io::Result<()>
    ensures { OnOk result (Appends (W.contents out.old) (W.contents out.new)
        (number_text number)) }
{
    writeln!(out, "{number}")
}

/// Writes what a file holds, and ends the line.
pub fn content_line<W: Write>(bytes: &[u8], out: &mut W) -> io::Result<()>
    ensures { OnOk result (Appends (W.contents out.old) (W.contents out.new)
        (content_text bytes.now)) }
{
    out.write_all(bytes)?;
    out.write_all(b"\n")
}

/// Writes what stands at a path.
pub fn stat_text<W: Write>(stat: Stat, out: &mut W) -> io::Result<()>
    ensures { OnOk result (Appends (W.contents out.old) (W.contents out.new) (stat_text stat)) }
{
    match stat {
        Stat::File(size) => writeln!(out, "file {size}"),
        Stat::Dir(count) => writeln!(out, "dir {count}"),
    }
}

/// Writes what a round of cleaning came to: how many checkpoints expired, how many blocks it moved, and how
/// many segments it freed.
pub fn clean_line<W: Write>(expired: u64, moved: u64, freed: u64, out: &mut W) -> io::Result<()>
    ensures { OnOk result (Appends (W.contents out.old) (W.contents out.new)
        (clean_text expired moved freed)) }
{
    writeln!(out, "expired {expired} moved {moved} freed {freed}")
}

fn name_end(kind: Kind) -> &'static [u8]
    ensures { result.now ≡ name_end kind }
{
    match kind {
        Kind::File => b"\n",
        Kind::Directory => b"/\n",
    }
}

/// Writes a name of a directory. A slash behind it shows that it is a directory's.
pub fn name_line<W: Write>(named: &Named, out: &mut W) -> io::Result<()>
    ensures { OnOk result (Appends (W.contents out.old) (W.contents out.new)
        (name_text named.now)) }
{
    out.write_all(named.name.as_slice())?;
    out.write_all(name_end(named.kind))
}

/// Writes names, one a line, in this order.
pub fn name_lines<W: Write>(names: &[Named], out: &mut W) -> io::Result<()>
    ensures { OnOk result (Appends (W.contents out.old) (W.contents out.new)
        (name_texts names.now)) }
{
    for named in names {
        name_line(named, out)?;
    }
    Ok(())
}
