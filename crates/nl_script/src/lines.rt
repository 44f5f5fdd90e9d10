//! A line of a script on a volume.
ghost use Rattle.std.specs.Prelude.{◌≡◌, ◌⊎◌, ◌≤◌, ◌<◌, ◌^◌, ◌++◌, [], ℕ, List, None, Result, is_some, length, map, take, vec_capacity, IfErr, IfOk, OnErr, OnOk};
ghost use Rattle.std.specs.Io.KnownBytes.{Appends};
ghost use Rattle.std.specs.List.{list_all, list_any};
ghost use Rattle.nl_script.specs.RefusalTexts.{refusal_text};
ghost use Rattle.nl_script.specs.SegmentLines.{seg_header, seg_texts};
ghost use Rattle.nl_types.specs.Plain.Worlds.{Reply};
ghost use Rattle.nl_script.specs.ExitStatus.{status_if_refused};
ghost use Rattle.nl_types.specs.Plain.Runs.{Run};
ghost use Rattle.nl_types.specs.Blocks.Segments.{info_of};
ghost use Rattle.nl_script.specs.Events.{reading};
ghost use Rattle.nl_script.specs.FileReads.{is_bad_mount};
ghost use Rattle.nl_script.specs.Lines.{AreEventsDone, AreFilesTold, AreOutcomesTold, ComesTo, IsCommandDone, IsLatestFor, IsLineDone, IsRoundDone, LacksMemory, line_end, listed, files_end, is_open, is_since, needed_of, refused, row_of, segment_rows};
ghost use Rattle.nl_script.specs.Rounds.{IsRoundOver, round_text};
ghost use Rattle.nl_script.specs.declared.rounds.RoundSum.{RoundSum};

use crate::events::{events_of, is_quiet, readings};
use crate::readers::{Readers, is_bad_mount};
use crate::rounds::{RoundSum, run_steps, tell_round};
use crate::runner::Runner;
use crate::running::{run_events, run_rest};
use crate::status::{LineResult, Status};
use crate::telling::tell_all;
use crate::texts;
use crate::texts::SegmentRow;
use crate::volume::Volume;
use nl_commands::{CheckpointRange, Command, LineError, read_line};
use nl_commit::{NotingPen, Round};
use nl_protect::Config;
use nl_publish::FileReader;
use nl_types::{CheckpointNumber, Event, Items, Moment, MountNumber, Reply, Segment, VolError};
use std::alloc::{AllocError, Global};
use std::io;
use std::io::Write;
use std::thread::Threads;

/// Tells that a line is refused as a whole.
fn refused<W: Write>(number: u64, error: VolError, out: &mut W) -> LineResult
    ensures status { result.0 ≡ Status.Refused }
    ensures written { OnOk result.1 (Appends (W.contents out.old) (W.contents out.new)
        (refusal_text number None error)) }
{
    (
        Status::Refused,
        texts::refusal_text(number, None, error, out),
    )
}

fn is_since(range: &CheckpointRange) -> bool
    ensures { result ≡ is_since range.now }
{
    matches!(range, CheckpointRange::Since(_))
}

fn has_since(ranges: &[CheckpointRange]) -> bool
    ensures { result ≡ list_any is_since ranges.now }
{
    for range in ranges {
        if is_since(range) {
            return true;
        }
    }
    false
}

fn is_open(command: &Command) -> bool
    ensures { result ≡ is_open command.now }
{
    match command {
        Command::Rmcp { ranges, .. } => has_since(ranges.as_slice()),
        _ => false,
    }
}

/// The latest checkpoint, if the command's events depend on it.
fn latest_for<P: NotingPen>(pen: &P, command: &Command) -> CheckpointNumber
    ensures { IsLatestFor (P.layout pen.now) command.now result }
{
    if is_open(command) {
        pen.cpstat().latest
    } else {
        CheckpointNumber::new(0)
    }
}

/// Does a command's events. Refused, none was done.
fn do_events<V: Volume>(
    alloc: Global,
    volume: &mut V,
    moment: u64,
    command: Command,
) -> Result<(Vec<Event>, Vec<Reply>), AllocError>
    ensures done { IfOk result (λ done. AreEventsDone V.habits.does (V.habits.view volume.old) moment command
        done.0.items done.1.items volume.old volume.new) }
    ensures count { IfOk result (λ done. length done.0.items ≡ length done.1.items) }
    ensures err { OnErr result (volume.new ≡ volume.old) }
{
    let latest = latest_for(volume.pen(), &command);
    let events = events_of(alloc, moment, latest, command)?;
    let replies = run_events(alloc, volume, events.as_slice())?;
    Ok((events, replies))
}

fn run_all<V: Volume, W: Write>(
    alloc: Global,
    volume: &mut V,
    moment: u64,
    number: u64,
    command: Command,
    out: &mut W,
) -> LineResult
    ensures { ComesTo (λ end.
        AreOutcomesTold V.habits.does (V.habits.view volume.old) number moment command
        volume.old volume.new end
        ⊎ LacksMemory number moment volume.old volume.new end)
        moment result (W.contents out.old) (W.contents out.new) }
{
    let quiet = is_quiet(&command);
    match do_events(alloc, volume, moment, command) {
        Ok((events, replies)) => {
            tell_all(number, quiet, events.as_slice(), replies.as_slice(), out)
        }
        Err(_) => refused(number, VolError::Memory, out),
    }
}

/// How many needed blocks a segment has, where the listing is long.
fn told_needed<P: NotingPen>(pen: &P, segment: Segment, long: bool) -> Result<Option<u32>, VolError>
    ensures told { IfOk result (λ needed. needed ≡ needed_of long (P.layout pen.now) segment) }
    ensures refused { OnErr result (length (P.layout pen.now).store.segments.each ≤ segment) }
{
    if long {
        let count = pen.needed(segment)?;
        Ok(Some(count))
    } else {
        Ok(None)
    }
}

/// What is told of a segment.
fn told_row<P: NotingPen>(pen: &P, segment: Segment, long: bool) -> Result<SegmentRow, VolError>
    ensures told { IfOk result (λ row. row ≡ row_of long (P.layout pen.now) segment
        (info_of (P.layout pen.now).store.segments.each segment)) }
    ensures refused { OnErr result (length (P.layout pen.now).store.segments.each ≤ segment) }
{
    let info = pen.segments().suinfo(segment)?;
    let needed = told_needed(pen, segment, long)?;
    Ok(SegmentRow { info, needed })
}

/// What is told of all segments, in a vector with room for them.
fn told_rows<P: NotingPen>(
    pen: &P,
    count: usize,
    long: bool,
    mut rows: Vec<SegmentRow>,
) -> Vec<SegmentRow>
    requires empty { rows.items ≡ [] }
    requires room { count ≤ vec_capacity rows }
    requires small { count < 2 ^ 32 }
    requires all { count ≡ length (P.layout pen.now).store.segments.each }
    ensures told { result.items ≡ segment_rows long (P.layout pen.now) }
    ensures count { length result.items ≡ count }
{
    for segment in 0..count {
        let Ok(row) = told_row(pen, Segment::new(segment as u32), long) else {
            unreachable!();
        };
        if rows.push(row).is_err() {
            unreachable!();
        }
    }
    rows
}

/// What is told of all segments.
fn segment_rows<P: NotingPen>(
    alloc: Global,
    pen: &P,
    long: bool,
) -> Result<Vec<SegmentRow>, AllocError>
    ensures told { IfOk result (λ rows. rows.items ≡ segment_rows long (P.layout pen.now)) }
    ensures small { IfOk result (λ rows. length rows.items ≤ 2 ^ 32) }
{
    pen.means_a_world();
    let count = pen.segments().sustat().segments;
    let rows = Vec::with_capacity(alloc, count)?;
    Ok(told_rows(pen, count, long, rows))
}

fn list_segments<P: NotingPen, W: Write>(
    alloc: Global,
    pen: &P,
    number: u64,
    all: bool,
    long: bool,
    out: &mut W,
) -> LineResult
    ensures { (moment : ℕ) → ComesTo (λ end.
        (end ≡ listed moment all long (P.layout pen.now))
        ⊎ (end ≡ refused number moment VolError.Memory))
        moment result (W.contents out.old) (W.contents out.new) }
{
    match segment_rows(alloc, pen, long) {
        Ok(rows) => (Status::Fine, tell_segments(rows.as_slice(), all, long, out)),
        Err(_) => refused(number, VolError::Memory, out),
    }
}

fn tell_segments<W: Write>(
    rows: &[SegmentRow],
    all: bool,
    long: bool,
    out: &mut W,
) -> io::Result<()>
    requires { length rows.now ≤ 2 ^ 32 }
    ensures { OnOk result (Appends (W.contents out.old) (W.contents out.new)
        (seg_header long ++ seg_texts all rows.now)) }
{
    texts::seg_header(long, out)?;
    texts::seg_lines(rows, all, out)
}

fn round_status(sum: RoundSum) -> Status
    ensures { result ≡ status_if_refused (is_some sum.refusal) }
{
    match sum.refusal {
        Some(_) => Status::Refused,
        None => Status::Fine,
    }
}

/// Does a round, and tells what it came to.
fn run_round<V: Volume, W: Write>(
    volume: &mut V,
    job: V::Job,
    number: u64,
    out: &mut W,
) -> LineResult
    ensures { (moment : ℕ) → ComesTo (λ end. (sum : RoundSum)
        × IsRoundOver V.habits.steps job volume.old volume.new sum
        × (end ≡ line_end moment (status_if_refused (is_some sum.refusal)) (round_text number sum)))
        moment result (W.contents out.old) (W.contents out.new) }
{
    let sum = run_steps(volume, job);
    (round_status(sum), tell_round(number, sum, out))
}

/// Plans a round and does it. A plan is refused for memory alone.
fn clean<V: Volume, W: Write>(
    alloc: Global,
    volume: &mut V,
    config: &Config,
    moment: u64,
    number: u64,
    out: &mut W,
) -> LineResult
    ensures { ComesTo (λ end.
        IsRoundDone V.habits config.now
        number moment volume.old volume.new end
        ⊎ LacksMemory number moment volume.old volume.new end)
        moment result (W.contents out.old) (W.contents out.new) }
{
    match V::Job::plan(alloc, volume.pen(), config, Moment::new(moment)) {
        Ok(job) => run_round(volume, job, number, out),
        Err(_) => refused(number, VolError::Memory, out),
    }
}

/// Reads files of a mount by the readers, where it is held, up to the first that they don't find.
fn first_files<V: Volume, P: FileReader<V::Book> + Send, R: Threads + Sync>(
    alloc: Global,
    volume: &V,
    readers: &mut Readers<'_, P, R>,
    mount: MountNumber,
    paths: &[Items<u8>],
) -> Result<Vec<Reply>, VolError>
    ensures fewer { IfOk result (λ replies. length replies.items ≤ length paths.now) }
    ensures run { IfOk result (λ replies. Run V.habits.does volume.now
        (take (length replies.items) (map (reading mount) paths.now)) replies.items volume.now) }
{
    let Some(held) = volume.mount_of(mount) else {
        return Ok(Vec::new(alloc));
    };
    let first = readers.read_files(alloc, held, paths)?;
    Ok(first)
}

/// Reads files of a mount. The volume itself is asked from the first one on that the readers don't find.
fn read_files<V: Volume, P: FileReader<V::Book> + Send, R: Threads + Sync>(
    alloc: Global,
    volume: &mut V,
    readers: &mut Readers<'_, P, R>,
    mount: MountNumber,
    paths: &[Items<u8>],
) -> Result<(Vec<Event>, Vec<Reply>), VolError>
    ensures events { IfOk result (λ done. done.0.items ≡ map (reading mount) paths.now) }
    ensures run { IfOk result (λ done.
        Run V.habits.does volume.old done.0.items done.1.items volume.new) }
    ensures count { IfOk result (λ done. length done.0.items ≡ length done.1.items) }
    ensures err { OnErr result (volume.new ≡ volume.old) }
{
    let events = readings(alloc, mount, paths)?;
    let first = first_files(alloc, volume, readers, mount, paths)?;
    let replies = run_rest(volume, events.as_slice(), first)?;
    Ok((events, replies))
}

fn are_bad_mounts(replies: &[Reply]) -> bool
    ensures { result ≡ list_all is_bad_mount replies.now }
{
    replies.iter().all(|reply| is_bad_mount(reply))
}

/// Tells of files in their places, or once that the mount isn't found.
fn tell_files<W: Write>(number: u64, events: &[Event], replies: &[Reply], out: &mut W) -> LineResult
    requires { length events.now ≡ length replies.now }
    ensures { (moment : ℕ) → ComesTo (λ end. end ≡ files_end number moment events.now replies.now)
        moment result (W.contents out.old) (W.contents out.new) }
{
    if are_bad_mounts(replies) {
        refused(number, VolError::BadMount, out)
    } else {
        tell_all(number, false, events, replies, out)
    }
}

/// Reads files of a mount, and tells of them.
fn show_files<V: Volume, P: FileReader<V::Book> + Send, R: Threads + Sync, W: Write>(
    alloc: Global,
    volume: &mut V,
    readers: &mut Readers<'_, P, R>,
    number: u64,
    mount: MountNumber,
    paths: &[Items<u8>],
    out: &mut W,
) -> LineResult
    ensures { (moment : ℕ) → ComesTo (λ end.
        AreFilesTold V.habits.does number moment mount paths.now volume.old volume.new end
        ⊎ LacksMemory number moment volume.old volume.new end)
        moment result (W.contents out.old) (W.contents out.new) }
{
    match read_files(alloc, volume, readers, mount, paths) {
        Ok((events, replies)) => tell_files(number, events.as_slice(), replies.as_slice(), out),
        Err(_) => refused(number, VolError::Memory, out),
    }
}

impl<V: Volume, P: FileReader<V::Book> + Send, R: Threads + Sync> Runner<'_, V, P, R> {
    fn run_command<W: Write>(
        &mut self,
        moment: &mut u64,
        number: u64,
        command: Command,
        out: &mut W,
    ) -> LineResult
        ensures done { ComesTo (λ end.
            IsCommandDone V.habits self.old.config
            number moment.old command self.old.volume self.new.volume end
            ⊎ LacksMemory number moment.old self.old.volume self.new.volume end)
            moment.new result (W.contents out.old) (W.contents out.new) }
        ensures config { self.new.config ≡ self.old.config }
    {
        match command {
            Command::At(later) => {
                *moment = later;
                (Status::Fine, Ok(()))
            }
            Command::Lssu { all, long } => {
                list_segments(self.alloc, self.volume.pen(), number, all, long, out)
            }
            Command::Catm { mount, paths } => {
                let (volume, readers) = (&mut self.volume, &mut self.readers);
                show_files(
                    self.alloc,
                    volume,
                    readers,
                    number,
                    mount,
                    paths.as_slice(),
                    out,
                )
            }
            Command::Clean => {
                clean(
                    self.alloc,
                    &mut self.volume,
                    &self.config,
                    *moment,
                    number,
                    out,
                )
            }
            command => run_all(self.alloc, &mut self.volume, *moment, number, command, out),
        }
    }

    /// Runs a line, without its line break, and writes what is told of it. Rounds of cleaning go by the
    /// configuration, and files of a mount are read by the readers.
    pub fn run_line<W: Write>(
        &mut self,
        moment: &mut u64,
        number: u64,
        line: &[u8],
        out: &mut W,
    ) -> LineResult
        ensures done { ComesTo (λ end.
            IsLineDone V.habits self.old.config
            number moment.old line.now self.old.volume self.new.volume end)
            moment.new result (W.contents out.old) (W.contents out.new) }
        ensures config { self.new.config ≡ self.old.config }
    {
        match read_line(self.alloc, line) {
            Ok(None) => (Status::Fine, Ok(())),
            Ok(Some(command)) => self.run_command(moment, number, command, out),
            Err(LineError::Usage) => (Status::Misread, texts::usage_text(number, out)),
            Err(LineError::Memory) => refused(number, VolError::Memory, out),
        }
    }
}
