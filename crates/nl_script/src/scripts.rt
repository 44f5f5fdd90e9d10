//! A script on a volume: its lines, one after another.
ghost use Rattle.std.specs.Prelude.{◌≡◌, ◌⊎◌, ◌||◌, None, Some, if◌then◌else◌, OnOk};
ghost use Rattle.std.specs.Io.KnownBytes.{Appends};
ghost use Rattle.nl_script.specs.RefusalTexts.{refusal_text};
ghost use Rattle.nl_script.specs.Lines.{ComesTo, IsLineDone, LineEnd, refused};
ghost use Rattle.nl_script.specs.Scripts.{IsScriptDone, is_misread_status, is_refused_status};
ghost use Rattle.nl_script.specs.Private.Turns.{HasDoneLine, HasStopped, IsCounted};

use crate::reading::{Next, next_line};
use crate::runner::Runner;
use crate::status::{LineResult, Status};
use crate::texts::{self, Done, StandardStream};
use crate::volume::Volume;
use nl_publish::FileReader;
use nl_types::VolError;
use std::io;
use std::io::{BufRead, Write};
use std::thread::Threads;

fn count(done: &mut Done, status: Status)
    ensures moment { done.new.moment ≡ done.old.moment }
    ensures misread { done.new.misread ≡ (done.old.misread || is_misread_status status) }
    ensures refused { done.new.refused ≡ (done.old.refused || is_refused_status status) }
    ensures failed { done.new.failed ≡ done.old.failed }
{
    match status {
        Status::Fine => (),
        Status::Refused => done.refused = true,
        Status::Misread => done.misread = true,
    }
}

/// Counts whether a line was told. Returns whether the script goes on.
fn goes_on(done: &mut Done, is_told: bool) -> bool
    ensures same { result ≡ is_told }
    ensures done { done.new ≡ record done.old {
      failed = if is_told then done.old.failed else Some StandardStream.Output;
    } }
{
    if !is_told {
        done.failed = Some(StandardStream::Output);
    }
    is_told
}

/// Tells that there is no memory for a line, and hands it on at once.
fn refuse<W: Write>(number: u64, out: &mut W) -> io::Result<()>
    ensures { OnOk result (Appends (W.contents out.old) (W.contents out.new)
        (refusal_text number None VolError.Memory)) }
{
    texts::refusal_text(number, None, VolError::Memory, out)?;
    out.flush()
}

/// Refuses a line that there is no memory for, and counts it. Returns whether the script goes on.
fn refuse_counted<W: Write>(done: &mut Done, number: u64, out: &mut W) -> bool
    ensures { IsCounted (refused number done.old.moment VolError.Memory) done.old done.new result
        (W.contents out.old) (W.contents out.new) }
{
    let told = refuse(number, out);
    count(done, Status::Refused);
    goes_on(done, told.is_ok())
}

impl<V: Volume, P: FileReader<V::Book> + Send, R: Threads + Sync> Runner<'_, V, P, R> {
    /// Runs a line, and hands on at once what is told of it.
    fn run_flushed<W: Write>(
        &mut self,
        moment: &mut u64,
        number: u64,
        line: &[u8],
        out: &mut W,
    ) -> LineResult
        ensures done { ComesTo (λ end.
            IsLineDone V.habits self.old.config
            number moment.old line.now self.old.volume self.new.volume end)
            moment.new result (W.contents out.old) (W.contents out.new) }
        ensures config { self.new.config ≡ self.old.config }
    {
        match self.run_line(moment, number, line, out) {
            (status, Ok(())) => (status, out.flush()),
            failed => failed,
        }
    }

    /// Runs a line, and counts what it came to. Returns whether the script goes on: what is told of the line
    /// was written.
    fn run_counted<W: Write>(
        &mut self,
        done: &mut Done,
        number: u64,
        line: &[u8],
        out: &mut W,
    ) -> bool
        ensures done { (end : LineEnd)
            × IsLineDone V.habits self.old.config
            number done.old.moment line.now self.old.volume self.new.volume end
            × IsCounted end done.old done.new result (W.contents out.old) (W.contents out.new) }
        ensures config { self.new.config ≡ self.old.config }
    {
        let mut moment = done.moment;
        let (status, told) = self.run_flushed(&mut moment, number, line, out);
        done.moment = moment;
        count(done, status);
        goes_on(done, told.is_ok())
    }

    /// Does the next line, and counts it. Returns whether the script goes on.
    fn run_next<I: BufRead, O: Write>(
        &mut self,
        done: &mut Done,
        number: u64,
        input: &mut I,
        output: &mut O,
    ) -> bool
        ensures done { HasDoneLine V.habits self.old.config number self.old.volume self.new.volume
            done.old done.new result
            (I.remaining input.old) (I.remaining input.new) (O.contents output.old) (O.contents output.new)
            ⊎ HasStopped self.old.volume self.new.volume done.old done.new result
            (I.remaining input.old) (O.contents output.old) (O.contents output.new) }
        ensures config { self.new.config ≡ self.old.config }
    {
        match next_line(self.alloc, input) {
            Next::Line(line) => self.run_counted(done, number, line.as_slice(), output),
            Next::Unheld => refuse_counted(done, number, output),
            Next::End => false,
            Next::Unread => {
                done.failed = Some(StandardStream::Input);
                false
            }
        }
    }

    /// Runs the lines up to the end of the input, or until a stream fails: a line that is read in part isn't
    /// done, and what follows one that can't be told of isn't done either. A line that there is no memory for
    /// is refused by `Memory`, and the script goes on behind it.
    pub fn script<I: BufRead + Drop, O: Write>(
        &mut self,
        moment: u64,
        mut input: I,
        output: &mut O,
    ) -> Done
        ensures { IsScriptDone V.habits self.old.config moment self.old.volume self.new.volume result
            (I.remaining input) O.contents output.old output.new }
    {
        let mut done = Done {
            moment,
            misread: false,
            refused: false,
            failed: None,
        };
        for number in 1..u64::MAX {
            if !self.run_next(&mut done, number, &mut input, output) {
                return done;
            }
        }
        // Nothing says that an input ends: behind so many lines it counts as one that can't be read.
        done.failed = Some(StandardStream::Input);
        done
    }
}
