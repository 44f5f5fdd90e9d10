//! A round of cleaning on a volume, and what is told of it.
ghost use Rattle.std.specs.Prelude.{◌≡◌, OnOk};
ghost use Rattle.std.specs.Io.KnownBytes.{Appends};
ghost use Rattle.nl_script.specs.Rounds.{IsRoundOver, nothing_done, plus, round_text, with_answer, with_refusal, with_reply};

use crate::texts;
use crate::volume::Volume;
use nl_commit::ends_round;
use nl_types::{Answer, Reply, VolError};
use std::io;
use std::io::Write;

/// What a round came to. A count that 64 bits can't hold stays at the greatest that they can.
#[derive(Clone, Copy)]
pub struct RoundSum {
    /// Checkpoints that expired.
    pub expired: u64,
    /// Blocks that were moved.
    pub moved: u64,
    /// Segments that were freed.
    pub freed: u64,
    /// The refusal that ended it.
    pub refusal: Option<VolError>,
}

fn plus(count: u64, more: u64) -> u64
    ensures { result ≡ plus count more }
{
    count.saturating_add(more)
}

impl RoundSum {
    fn nothing() -> RoundSum
        ensures { result ≡ nothing_done }
    {
        RoundSum {
            expired: 0,
            moved: 0,
            freed: 0,
            refusal: None,
        }
    }

    fn with_answer(self, answer: &Answer) -> RoundSum
        ensures { result ≡ with_answer self answer.now }
    {
        match answer {
            Answer::Expired(gone) => RoundSum {
                expired: plus(self.expired, gone.len() as u64),
                ..self
            },
            Answer::Moved { moved, .. } => RoundSum {
                moved: plus(self.moved, u64::from(*moved)),
                ..self
            },
            Answer::Freed(_) => RoundSum {
                freed: plus(self.freed, 1),
                ..self
            },
            _ => self,
        }
    }

    fn with_refusal(self, error: VolError) -> RoundSum
        ensures { result ≡ with_refusal self error }
    {
        if ends_round(error) {
            RoundSum {
                refusal: Some(error),
                ..self
            }
        } else {
            self
        }
    }

    fn with_reply(self, reply: Reply) -> RoundSum
        ensures { result ≡ with_reply self reply }
    {
        match reply {
            Ok(answer) => self.with_answer(&answer),
            Err(error) => self.with_refusal(error),
        }
    }
}

/// Does the steps of a round to its end.
pub fn run_steps<V: Volume>(volume: &mut V, mut job: V::Job) -> RoundSum
    ensures { IsRoundOver V.habits.steps job volume.old volume.new result }
{
    let mut sum = RoundSum::nothing();
    while let Some(reply) = volume.clean_step(&mut job) {
        sum = sum.with_reply(reply);
    }
    sum
}

/// Writes what a round came to, and then the refusal that ended it.
pub fn tell_round<W: Write>(line: u64, sum: RoundSum, out: &mut W) -> io::Result<()>
    ensures { OnOk result (Appends (W.contents out.old) (W.contents out.new)
        (round_text line sum)) }
{
    texts::clean_line(sum.expired, sum.moved, sum.freed, out)?;
    match sum.refusal {
        None => Ok(()),
        Some(error) => texts::refusal_text(line, None, error, out),
    }
}
