//! What is told of events and their replies. One pass tells of them, and counts the refusals.
ghost use Rattle.std.specs.Prelude.{◌≡◌, ◌∷◌, [], ◌++◌, ◌&&◌, map, length, OnOk};
ghost use Rattle.std.specs.Io.KnownBytes.{Appends};
ghost use Rattle.nl_script.specs.CheckpointLines.{cp_header, cp_texts};
ghost use Rattle.nl_script.specs.Outcomes.{Refused, all_outcomes, event_outcomes, may_be_left_out, outcome, range_outcomes, stays_outcome};
ghost use Rattle.nl_script.specs.OutcomeTexts.{answer_text, text_of};
ghost use Rattle.nl_script.specs.ExitStatus.{status_if_refused, status_of};
ghost use Rattle.nl_script.specs.Private.Tellings.{HasTold};

use crate::status::{LineResult, Status};
use crate::texts;
use nl_types::{Answer, Event, Reply, Row, Stays, VolError};
use std::io;
use std::io::Write;

fn write_rows<W: Write>(rows: &[Row], out: &mut W) -> io::Result<()>
    ensures { OnOk result (Appends (W.contents out.old) (W.contents out.new)
        (cp_header ++ cp_texts rows.now)) }
{
    texts::cp_header(out)?;
    texts::cp_lines(rows, out)
}

fn write_answer<W: Write>(answer: &Answer, out: &mut W) -> io::Result<()>
    ensures { OnOk result (Appends (W.contents out.old) (W.contents out.new)
        (answer_text answer.now)) }
{
    match answer {
        Answer::Done | Answer::Written(_) | Answer::Removed(_) | Answer::Expired(_) => Ok(()),
        Answer::Moved { .. } | Answer::Freed(_) => Ok(()),
        Answer::Bytes(bytes) => texts::content_line(bytes.as_slice(), out),
        Answer::Names(names) => texts::name_lines(names.as_slice(), out),
        Answer::Stat(stat) => texts::stat_text(*stat, out),
        Answer::Checkpoint(number) => texts::number_line(number.get(), out),
        Answer::Mount(mount) => texts::number_line(mount.get(), out),
        Answer::Rows(rows) => write_rows(rows.as_slice(), out),
    }
}

/// What was told so far. Where the writer failed it is given nothing more, and refusals are counted on.
#[derive(Drop)]
struct Told {
    /// A refusal is among it.
    refused: bool,
    /// All of it was written.
    written: io::Result<()>,
}

fn may_be_left_out(error: VolError) -> bool
    ensures { result ≡ may_be_left_out error }
{
    matches!(error, VolError::NoCheckpoint | VolError::IsSnapshot)
}

fn is_left_out(quiet: bool, error: VolError) -> bool
    ensures { result ≡ (quiet && may_be_left_out error) }
{
    quiet && may_be_left_out(error)
}

fn tell_refusal<W: Write>(
    line: u64,
    quiet: bool,
    number: Option<u64>,
    error: VolError,
    told: Told,
    out: &mut W,
) -> Told
    ensures { HasTold line quiet (Refused number error ∷ []) told result
        (W.contents out.old) (W.contents out.new) }
{
    if is_left_out(quiet, error) {
        return told;
    }
    let written = match told.written {
        Ok(()) => texts::refusal_text(line, number, error, out),
        failed => failed,
    };
    Told {
        refused: true,
        written,
    }
}

fn tell_reply<W: Write>(
    line: u64,
    quiet: bool,
    number: Option<u64>,
    reply: &Reply,
    told: Told,
    out: &mut W,
) -> Told
    ensures { HasTold line quiet (outcome number reply.now ∷ []) told result
        (W.contents out.old) (W.contents out.new) }
{
    match reply {
        Ok(answer) => {
            let written = match told.written {
                Ok(()) => write_answer(answer, out),
                failed => failed,
            };
            Told {
                refused: told.refused,
                written,
            }
        }
        Err(error) => tell_refusal(line, quiet, number, *error, told, out),
    }
}

fn tell_stays<W: Write>(line: u64, quiet: bool, stays: &Stays, told: Told, out: &mut W) -> Told
    ensures { HasTold line quiet (stays_outcome stays.now ∷ []) told result
        (W.contents out.old) (W.contents out.new) }
{
    let number = stays.number.get();
    tell_refusal(line, quiet, Some(number), stays.reason, told, out)
}

fn tell_stayed<W: Write>(
    line: u64,
    quiet: bool,
    stayed: &[Stays],
    mut told: Told,
    out: &mut W,
) -> Told
    ensures { HasTold line quiet (map stays_outcome stayed.now) told result
        (W.contents out.old) (W.contents out.new) }
{
    for stays in stayed {
        told = tell_stays(line, quiet, stays, told, out);
    }
    told
}

fn tell_range<W: Write>(line: u64, quiet: bool, reply: &Reply, told: Told, out: &mut W) -> Told
    ensures { HasTold line quiet (range_outcomes reply.now) told result
        (W.contents out.old) (W.contents out.new) }
{
    match reply {
        Ok(Answer::Removed(range)) => {
            tell_stayed(line, quiet, range.stayed.as_slice(), told, out)
        }
        _ => tell_reply(line, quiet, None, reply, told, out),
    }
}

fn tell_event<W: Write>(
    line: u64,
    quiet: bool,
    event: &Event,
    reply: &Reply,
    told: Told,
    out: &mut W,
) -> Told
    ensures { HasTold line quiet (event_outcomes event.now reply.now) told result
        (W.contents out.old) (W.contents out.new) }
{
    match event {
        Event::ChangeMode(number, _) | Event::Remove(number) => {
            tell_reply(line, quiet, Some(number.get()), reply, told, out)
        }
        Event::RemoveRange { .. } => tell_range(line, quiet, reply, told, out),
        _ => tell_reply(line, quiet, None, reply, told, out),
    }
}

fn tell_events<W: Write>(
    line: u64,
    quiet: bool,
    events: &[Event],
    replies: &[Reply],
    mut told: Told,
    out: &mut W,
) -> Told
    requires { length events.now ≡ length replies.now }
    ensures { HasTold line quiet (all_outcomes events.now replies.now) told result
        (W.contents out.old) (W.contents out.new) }
{
    for (index, event) in events.iter().enumerate() {
        told = tell_event(line, quiet, event, &replies[index], told, out);
    }
    told
}

fn status_if_refused(refused: bool) -> Status
    ensures { result ≡ status_if_refused refused }
{
    if refused {
        Status::Refused
    } else {
        Status::Fine
    }
}

/// Writes what is told of the events of a line, in their order. Where `quiet`, refusals because a checkpoint
/// is not kept or is a snapshot are left out. A refusal that is told of counts for the status, also where it
/// isn't written because the writer fails.
pub fn tell_all<W: Write>(
    line: u64,
    quiet: bool,
    events: &[Event],
    replies: &[Reply],
    out: &mut W,
) -> LineResult
    requires { length events.now ≡ length replies.now }
    ensures status { result.0 ≡ status_of quiet events.now replies.now }
    ensures written { OnOk result.1 (Appends (W.contents out.old) (W.contents out.new)
        (text_of line quiet events.now replies.now)) }
{
    let nothing = Told {
        refused: false,
        written: Ok(()),
    };
    let told = tell_events(line, quiet, events, replies, nothing, out);
    (status_if_refused(told.refused), told.written)
}
