//! Standard error. All that nlkeep tells there is written here or by `errors` of `printing`, but for the line
//! on the work at a terminal, and all of it is escaped: names, words and texts that aren't ours would do harm
//! at a terminal by their control characters.
use std::fmt::{self, Display, Formatter, Write};
use std::io::Eprint;

/// A text of which each control character is written as `\u{1b}`.
#[derive(Drop)]
struct Escaped<D> {
    text: D,
    /// Whether its ends of lines stay.
    has_lines: bool,
}

/// What escapes the control characters of what is written to it.
#[derive(Drop)]
struct Escaping<'f, W: fmt::Write> {
    out: &'f mut Formatter<W>,
    has_lines: bool,
}

impl<W: fmt::Write> fmt::Write for Escaping<'_, W> {
    fn write_str(&mut self, text: &str) -> fmt::Result {
        for character in text.chars() {
            let is_end = character == '\n' && self.has_lines;
            if character.is_control() && !is_end {
                write!(self.out, "\\u{{{:x}}}", u32::from(character))?;
            } else {
                write!(self.out, "{character}")?;
            }
        }
        Ok(())
    }
}

impl<D: Display> Display for Escaped<D> {
    fn fmt<W: fmt::Write>(&self, f: &mut Formatter<W>) -> fmt::Result {
        let mut escaping = Escaping {
            out: f,
            has_lines: self.has_lines,
        };
        write!(escaping, "{}", self.text)
    }
}

/// Writes a line, behind the name of the program. Where that fails there is nobody to tell.
pub fn complain<R: Eprint, D: Display + Drop>(rt: &R, text: D) {
    let line = Escaped {
        text,
        has_lines: false,
    };
    let _ = eprintln!(rt; "nlkeep: {line}");
}

/// Writes a further line.
pub fn complain_more<R: Eprint, D: Display + Drop>(rt: &R, text: D) {
    let line = Escaped {
        text,
        has_lines: false,
    };
    let _ = eprintln!(rt; "{line}");
}

/// Writes a text of whole lines that has the program's name where it needs one.
pub fn complain_whole<R: Eprint, D: Display + Drop>(rt: &R, text: D) {
    let lines = Escaped {
        text,
        has_lines: true,
    };
    let _ = eprint!(rt; "{lines}");
}
