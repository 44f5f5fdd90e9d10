//! The listing of kept checkpoints.
ghost use Rattle.std.specs.Prelude.{◌≡◌, OnOk};
ghost use Rattle.std.specs.Io.KnownBytes.{Appends};
ghost use Rattle.nl_script.specs.CheckpointLines.{mode_name, minor_flag, cp_header, cp_text, cp_texts};

use crate::texts::columns::{left, right};
use nl_types::{Mode, Row};
use std::io;
use std::io::Write;

fn mode_name(mode: Mode) -> &'static str
    ensures { result.now ≡ mode_name mode }
{
    match mode {
        Mode::Plain => "cp",
        Mode::Snapshot => "ss",
    }
}

fn minor_flag(minor: bool) -> &'static str
    ensures { result.now ≡ minor_flag minor }
{
    if minor { "i" } else { "-" }
}

/// Writes the line above the lines of checkpoints.
pub fn cp_header<W: Write>(out: &mut W) -> io::Result<()>
    ensures { OnOk result (Appends (W.contents out.old) (W.contents out.new) cp_header) }
{
    out.write_all(b"     CNO       MOMENT MODE FLG     ICNT\n")
}

/// Writes the line of a checkpoint.
pub fn cp_line<W: Write>(row: &Row, out: &mut W) -> io::Result<()>
    ensures { OnOk result (Appends (W.contents out.old) (W.contents out.new) (cp_text row.now)) }
{
    right(row.number.get(), 8, out)?;
    out.write_all(b" ")?;
    right(row.stamp, 12, out)?;
    out.write_all(b" ")?;
    left(mode_name(row.mode), 4, out)?;
    out.write_all(b" ")?;
    left(minor_flag(row.minor), 3, out)?;
    out.write_all(b" ")?;
    right(row.inodes, 8, out)?;
    out.write_all(b"\n")
}

/// Writes the lines of checkpoints, in this order.
pub fn cp_lines<W: Write>(rows: &[Row], out: &mut W) -> io::Result<()>
    ensures { OnOk result (Appends (W.contents out.old) (W.contents out.new) (cp_texts rows.now)) }
{
    for row in rows {
        cp_line(row, out)?;
    }
    Ok(())
}
