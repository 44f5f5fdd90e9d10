//! The listing of segments.
ghost use Rattle.std.specs.Prelude.{◌≡◌, ◌≤◌, ◌^◌, length, OnOk};
ghost use Rattle.std.specs.Io.KnownBytes.{Appends};
ghost use Rattle.nl_script.specs.SegmentLines.{state_letters, is_listed, needed_column, seg_header, seg_text, listed_seg_text, seg_texts};

use crate::texts::columns::{left, right};
use nl_types::{Segment, SegmentInfo, SegmentState};
use std::io;
use std::io::Write;

/// What a listing has of a segment.
#[derive(Clone, Copy)]
pub struct SegmentRow {
    pub info: SegmentInfo,
    /// How many needed blocks it has, where the listing has a column for them.
    pub needed: Option<u32>,
}

fn state_letters(state: SegmentState) -> &'static str
    ensures { result.now ≡ state_letters state }
{
    match state {
        SegmentState::Clean => "---",
        SegmentState::Dirty => "-d-",
        SegmentState::Active => "ad-",
        SegmentState::Error => "-de",
    }
}

fn is_listed(info: &SegmentInfo, all: bool) -> bool
    ensures { result ≡ is_listed all info.now }
{
    all || !matches!(info.state, SegmentState::Clean)
}

/// Writes the line above the lines of segments. A `long` one has the column of needed blocks.
pub fn seg_header<W: Write>(long: bool, out: &mut W) -> io::Result<()>
    ensures { OnOk result (Appends (W.contents out.old) (W.contents out.new) (seg_header long)) }
{
    if long {
        out.write_all(b"  SEGNUM       MOMENT STAT  NBLOCKS   NEEDED\n")
    } else {
        out.write_all(b"  SEGNUM       MOMENT STAT  NBLOCKS\n")
    }
}

fn needed_column<W: Write>(needed: Option<u32>, out: &mut W) -> io::Result<()>
    ensures { OnOk result (Appends (W.contents out.old) (W.contents out.new) (needed_column needed)) }
{
    match needed {
        Some(count) => {
            out.write_all(b" ")?;
            right(u64::from(count), 8, out)
        }
        None => Ok(()),
    }
}

/// Writes the line of a segment, with its needed blocks where they are given.
pub fn seg_line<W: Write>(
    segment: Segment,
    info: &SegmentInfo,
    needed: Option<u32>,
    out: &mut W,
) -> io::Result<()>
    ensures { OnOk result (Appends (W.contents out.old) (W.contents out.new)
        (seg_text segment info.now needed)) }
{
    right(u64::from(segment.get()), 8, out)?;
    out.write_all(b" ")?;
    right(info.stamp, 12, out)?;
    out.write_all(b" ")?;
    left(state_letters(info.state), 4, out)?;
    out.write_all(b" ")?;
    right(u64::from(info.used), 8, out)?;
    needed_column(needed, out)?;
    out.write_all(b"\n")
}

/// Writes the line of a segment, if the listing shows it: clean segments are shown among all alone.
pub fn listed_seg_line<W: Write>(
    segment: Segment,
    row: &SegmentRow,
    all: bool,
    out: &mut W,
) -> io::Result<()>
    ensures { OnOk result (Appends (W.contents out.old) (W.contents out.new)
        (listed_seg_text all segment row.now)) }
{
    if is_listed(&row.info, all) {
        seg_line(segment, &row.info, row.needed, out)
    } else {
        Ok(())
    }
}

/// Writes the lines of a table of segments, which are numbered from 0. Clean ones are shown among all alone.
pub fn seg_lines<W: Write>(rows: &[SegmentRow], all: bool, out: &mut W) -> io::Result<()>
    requires { length rows.now ≤ 2 ^ 32 }
    ensures { OnOk result (Appends (W.contents out.old) (W.contents out.new)
        (seg_texts all rows.now)) }
{
    for (segment, row) in rows.iter().enumerate() {
        listed_seg_line(Segment::new(segment as u32), row, all, out)?;
    }
    Ok(())
}
