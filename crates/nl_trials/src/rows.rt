//! Does the lines of standard input: events and questions, on a new volume behind each line `volume`. Each is
//! done on a pen and on a shared volume, and prints a line of what it comes to. `tests/events` has such lines
//! with what is due, and `tests/sweep` some that memory is refused to.
use crate::rows::volumes::do_volume;
use std::alloc::Global;
use std::io;
use std::io::Write;
use std::sync::Wait;

mod again;
mod answers;
mod events;
mod images;
mod ports;
mod questions;
mod rounds;
mod twins;
mod volumes;
mod words;

fn begins_volume(line: &str) -> bool {
    line.starts_with("volume ")
}

/// The lines before the next one that begins a volume.
fn lines_before_next<'a, 'b>(lines: &'b [&'a str]) -> &'b [&'a str] {
    let count = lines.iter().position(|line| begins_volume(line));
    lines
        .get(..count.unwrap_or(lines.len()))
        .unwrap_or_default()
}

/// Prints the line that begins a volume, and what those of the volume come to.
fn add_volume<R: Wait>(
    handles: &R,
    alloc: Global,
    line: &str,
    behind: &[&str],
    out: &mut Vec<u8>,
) -> io::Result<()> {
    out.extend_from_slice(line.as_bytes())?;
    out.push(b'\n')?;
    do_volume(handles, alloc, line, lines_before_next(behind), out)
}

/// What all lines come to.
fn told<R: Wait>(handles: &R, alloc: Global, lines: &[&str]) -> io::Result<Vec<u8>> {
    let mut out = Vec::new(alloc);
    for (place, line) in lines.iter().enumerate() {
        if begins_volume(line) {
            let behind = lines.get(place.saturating_add(1)..).unwrap_or_default();
            add_volume(handles, alloc, line, behind, &mut out)?;
        }
    }
    Ok(out)
}

fn do_rows<R: Wait>(rt: &HostRuntime, handles: &R) -> io::Result<()> {
    let text = io::read_to_string(rt.alloc(), rt.stdin())?;
    let lines: Vec<&str> = text.lines().collect(rt.alloc())?;
    let out = told(handles, rt.alloc(), lines.as_slice())?;
    rt.stdout().write_all(out.as_slice())
}

/// The status where memory was refused to the program itself, and to no volume, or a stream failed.
pub(crate) const NOT_DONE: u8 = 3;

/// Does what the lines say, and answers the exit status.
pub(crate) fn run<R: Wait>(rt: &HostRuntime, handles: &R) -> u8 {
    match do_rows(rt, handles) {
        Ok(()) => 0,
        Err(_) => NOT_DONE,
    }
}
