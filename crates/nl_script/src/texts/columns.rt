//! Values in columns.
ghost use Rattle.std.specs.Prelude.{OnOk};
ghost use Rattle.std.specs.Fmt.{decimal};
ghost use Rattle.std.specs.Io.KnownBytes.{Appends};
ghost use Rattle.nl_script.specs.Texts.{blanks, right, left};

use std::io;
use std::io::Write;

/// Writes a number at the right end of a column. One that is longer is written whole.
pub fn right<W: Write>(number: u64, width: usize, out: &mut W) -> io::Result<()>
    ensures { OnOk result (Appends (W.contents out.old) (W.contents out.new)
        (right width (decimal number))) }
{
    write!(out, "{number:>width$}")
}

fn blanks<W: Write>(count: usize, out: &mut W) -> io::Result<()>
    ensures { OnOk result (Appends (W.contents out.old) (W.contents out.new) (blanks count)) }
{
    write!(out, "{:count$}", "")
}

/// Writes a text at the left end of a column, whose width is in bytes. One that is longer is written whole.
pub fn left<W: Write>(text: &str, width: usize, out: &mut W) -> io::Result<()>
    ensures { OnOk result (Appends (W.contents out.old) (W.contents out.new) (left width text.now)) }
{
    out.write_all(text.as_bytes())?;
    blanks(width.saturating_sub(text.len()), out)
}
