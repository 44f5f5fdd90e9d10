//! The lines of a script, as its input gives them.
ghost use Rattle.std.specs.Prelude.{◌≡◌, ◌<◌, Option, List, length, ℕ};
ghost use Rattle.std.specs.Io.{StopsAt};
ghost use Rattle.std.specs.Io.BufRead.{ends_with_byte, strip_last};
ghost use Rattle.std.specs.Io.KnownBytes.{Consumes};
ghost use Rattle.nl_script.specs.Private.Turns.{IsNextIn};

use nl_types::Items;
use std::alloc::Global;
use std::io::{BufRead, ErrorKind};

/// What comes next in the input of a script.
#[derive(Drop)]
pub enum Next {
    /// A line, without its line feed.
    Line(Items<u8>),
    /// A line that there is no memory for. It is passed over.
    Unheld,
    /// The end.
    End,
    /// The input can't be read.
    Unread,
}

fn ends_with_feed(bytes: &[u8]) -> bool
    ensures { result ≡ ends_with_byte 10 bytes.now }
{
    match bytes.last() {
        Some(last) => *last == b'\n',
        None => false,
    }
}

fn without_feed(mut line: Vec<u8>) -> Items<u8>
    ensures { result ≡ strip_last 10 line.items }
{
    if ends_with_feed(line.as_slice()) {
        line.pop();
    }
    Items::from_vec(line)
}

/// What the input has at its end, where so much of a line was read.
fn at_end(begun: &[u8]) -> Next
    ensures begun { 0 < length begun.now → result ≡ Next.Unheld }
    ensures none { length begun.now ≡ 0 → result ≡ Next.End }
{
    if begun.is_empty() {
        Next::End
    } else {
        Next::Unheld
    }
}

/// Passes over a line that begins so, up to its line feed, which may have been read already. It takes no
/// memory.
fn pass_over<I: BufRead>(begun: &[u8], input: &mut I) -> Next
    ensures { (whole : Option (List ℕ)) → Consumes whole (I.remaining input.old) begun.now
        → StopsAt begun.now 10 → IsNextIn whole (I.remaining input.new) result }
{
    if ends_with_feed(begun) {
        return Next::Unheld;
    }
    match input.skip_until(b'\n') {
        Ok(0) => at_end(begun),
        Ok(_) => Next::Unheld,
        Err(_) => Next::Unread,
    }
}

/// Reads the next line.
pub fn next_line<I: BufRead>(alloc: Global, input: &mut I) -> Next
    ensures { IsNextIn (I.remaining input.old) (I.remaining input.new) result }
{
    let mut line = Vec::new(alloc);
    match input.read_until(b'\n', &mut line) {
        Ok(0) => Next::End,
        Ok(_) => Next::Line(without_feed(line)),
        Err(error) => match error.kind() {
            ErrorKind::OutOfMemory => pass_over(line.as_slice(), input),
            _ => Next::Unread,
        },
    }
}
