//! A person at a terminal, who is asked for each line, and told the form of a command that was called wrongly.
use nl_commands::{COMMANDS, CommandForm};
use std::cell::Cell;
use std::io::{self, Read, Stdin, Write};
use std::str;

/// What stands on standard error where a line is asked for.
const PROMPT: &str = "nlvol> ";

/// What the answer to a line that is no command ends with.
const USAGE: &[u8] = b": usage\n";

/// The form of a command.
fn form_of(word: &str) -> Option<&'static CommandForm> {
    COMMANDS.iter().find(|form| form.word == word)
}

/// The first word of a line.
fn first_word(line: &[u8]) -> Option<&str> {
    str::from_utf8(line).ok()?.split_whitespace().next()
}

/// Standard input that a person types.
#[derive(Drop)]
pub struct Typed<'a> {
    rt: &'a HostRuntime,
    input: Stdin,
    /// Whether the line that was typed last was no command.
    is_misread: &'a Cell<bool>,
    /// The form of the command that it begins with, if it begins with one.
    form: Option<&'static CommandForm>,
}

impl<'a> Typed<'a> {
    pub fn new(rt: &'a HostRuntime, is_misread: &'a Cell<bool>) -> Typed<'a> {
        Typed {
            rt,
            input: rt.stdin(),
            is_misread,
            form: None,
        }
    }

    /// Tells the form of a command that was called wrongly.
    fn tell_form(&self) {
        if !self.is_misread.replace(false) {
            return;
        }
        let _ = match self.form {
            Some(form) => eprintln!(self.rt; "usage: {} {}", form.word, form.form),
            None => eprintln!(self.rt; "no such command: nlvol --help lists them all"),
        };
    }
}

impl Read for Typed<'_> {
    /// Asks before it reads. At the end of the input the line of the prompt is ended.
    fn read(&mut self, buf: &mut [u8]) -> io::Result<usize> {
        self.tell_form();
        let _ = eprint!(self.rt; "{PROMPT}");
        let count = self.input.read(buf)?;
        if count == 0 {
            let _ = eprintln!(self.rt);
        }
        self.form = first_word(&buf[..count]).and_then(form_of);
        Ok(count)
    }
}

/// An output by which it is seen whether a line was no command.
#[derive(Drop)]
pub struct Watched<'a, W: Write> {
    pub out: W,
    pub is_misread: &'a Cell<bool>,
}

impl<W: Write> Write for Watched<'_, W> {
    fn write(&mut self, buf: &[u8]) -> io::Result<usize> {
        if buf.ends_with(USAGE) {
            self.is_misread.set(true);
        }
        self.out.write(buf)
    }

    fn flush(&mut self) -> io::Result<()> {
        self.out.flush()
    }
}
