//! What scripts ask of the layers below the program `nlvol`. The first word says what: `bench` is measured by
//! `bin/bench`, `rows` does the rows of events of `tests/events` and `tests/sweep`, and `tests` shows what no
//! contract says and no row can show, for `tests/trials`.
#![tactic(auto)]

use crate::words::all_words;
use std::process::ExitCode;
use std::sync::Wait;
use std::thread::Threads;
use std::time::Clock;

mod bench;
mod events;
mod looks;
mod ports;
mod rows;
mod tests;
mod volumes;
mod words;

fn tell_usage(rt: &HostRuntime) -> u8 {
    let _ = eprintln!(rt; "usage: nl_trials bench|rows|tests [WORD ..]");
    2
}

/// Does what the words behind the program's name ask for, and answers the exit status. `handles` is the
/// system too, with what `main` alone may hand on: threads, and that a call may wait.
fn run<R: Threads + Wait + Clock + Sync>(rt: &HostRuntime, handles: &R, words: &[String]) -> u8 {
    let [_, first, rest @ ..] = words else {
        return tell_usage(rt);
    };
    match first.as_str() {
        "bench" => bench::run(rt, handles, rest),
        "rows" => rows::run(rt, handles),
        "tests" => tests::run(rt, handles),
        _ => tell_usage(rt),
    }
}

fn main(rt: HostRuntime) -> ExitCode {
    match all_words(&rt) {
        Ok(words) => ExitCode::from(run(&rt, &rt, words.as_slice())),
        Err(_) => ExitCode::from(rows::NOT_DONE),
    }
}
