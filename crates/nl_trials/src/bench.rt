//! Does what `bin/bench` measures and no script can ask for: checkpoints by the pen's call for events alone
//! or by the one for events beside readers, which print nothing, and reads of a mount, on a pen or by ports,
//! which print their nanoseconds.
ghost use Rattle.std.specs.Prelude.{◌≡◌};

use crate::bench::checkpoints::{Call, make_checkpoints};
use crate::bench::mounts::read_pen;
use crate::bench::ports::{Case, Task, measure};
use crate::words::size;
use nl_publish::{Opened, Volumes};
use nl_types::{VolError, decimal};
use std::alloc::Global;
use std::marker::Brand;
use std::sync::Wait;
use std::thread::Threads;
use std::time::{Clock, Duration};

mod checkpoints;
mod clock;
mod mounts;
mod ports;
mod volume;

/// What is asked for.
#[derive(Clone, Copy)]
enum Asked {
    Checkpoints(Call, u64),
    ReadPen(u64),
    Ports(Task),
}

fn asked_of_pen(word: &str, count: &str) -> Option<Asked> {
    let count = decimal(count)?;
    match word {
        "apply" => Some(Asked::Checkpoints(Call::Apply, count)),
        "apply_noting" => Some(Asked::Checkpoints(Call::ApplyNoting, count)),
        "read_pen" => Some(Asked::ReadPen(count)),
        _ => None,
    }
}

fn case_of(word: &str) -> Option<Case> {
    match word {
        "read_ports" => Some(Case::Reads),
        "read_ports_into_new" => Some(Case::ReadsIntoNew),
        "read_ports_beside_writer" => Some(Case::ReadsBesideWriter),
        "read_kept" => Some(Case::ReadsOfKept),
        "read_kept_beside_writer" => Some(Case::ReadsOfKeptBesideWriter),
        "read_in_turn" => Some(Case::ReadsInTurn),
        "read_kept_in_turn" => Some(Case::ReadsOfKeptInTurn),
        "write_beside_ports" => Some(Case::CallsBesidePorts),
        "checkpoint_beside_ports" => Some(Case::CheckpointsBesidePorts),
        "checkpoint_beside_parts" => Some(Case::CheckpointsBesideParts),
        _ => None,
    }
}

fn asked_of_ports(word: &str, ports: &str, bytes: &str, count: &str) -> Option<Asked> {
    Some(Asked::Ports(Task {
        case: case_of(word)?,
        ports: size(ports)?,
        bytes: size(bytes)?,
        count: decimal(count)?,
    }))
}

/// What the words behind `bench` ask for.
fn read_words(words: &[String]) -> Option<Asked> {
    match words {
        [word, count] => asked_of_pen(word.as_str(), count.as_str()),
        [word, ports, bytes, count] => {
            asked_of_ports(
                word.as_str(),
                ports.as_str(),
                bytes.as_str(),
                count.as_str(),
            )
        }
        _ => None,
    }
}

/// Does what is asked for, and answers how long it took, where that is told.
fn work<J: Volumes + Send + Sync, R: Threads + Wait + Clock + Sync>(
    rt: &R,
    alloc: Global,
    opened: Opened,
    asked: Asked,
) -> Result<Option<Duration>, VolError>
    requires { opened.seen.book ≡ J.book opened.id }
{
    match asked {
        Asked::Checkpoints(call, count) => make_checkpoints(alloc, call, count).map(|()| None),
        Asked::ReadPen(count) => read_pen(rt, alloc, count).map(Some),
        Asked::Ports(task) => measure::<J, _>(rt, alloc, opened, task).map(Some),
    }
}

fn tell_usage(rt: &HostRuntime) -> u8 {
    let _ = eprintln!(rt; "usage: nl_trials bench apply|apply_noting|read_pen COUNT");
    let _ = eprintln!(rt;
        "       nl_trials bench read_ports|read_ports_into_new|read_ports_beside_writer PORTS BYTES COUNT"
    );
    let _ = eprintln!(rt;
        "       nl_trials bench read_kept|read_kept_beside_writer PORTS BYTES COUNT"
    );
    let _ = eprintln!(rt;
        "       nl_trials bench write_beside_ports|checkpoint_beside_ports PORTS BYTES COUNT"
    );
    let _ = eprintln!(rt; "       nl_trials bench checkpoint_beside_parts PORTS BYTES COUNT");
    2
}

/// Prints how long it took, and answers the exit status.
fn tell(rt: &HostRuntime, done: Result<Option<Duration>, VolError>) -> u8 {
    match done {
        Ok(None) => 0,
        Ok(Some(took)) => match println!(rt; "{}", took.as_nanos()) {
            Ok(()) => 0,
            Err(_) => 1,
        },
        Err(refusal) => {
            let _ = eprintln!(rt; "{}", refusal);
            1
        }
    }
}

/// Does what the words ask for, and answers the exit status.
pub(crate) fn run<R: Threads + Wait + Clock + Sync>(
    rt: &HostRuntime,
    handles: &R,
    words: &[String],
) -> u8 {
    match read_words(words) {
        Some(asked) => tell(
            rt,
            work::<Brand, _>(handles, rt.alloc(), Opened::new(1), asked),
        ),
        None => tell_usage(rt),
    }
}
