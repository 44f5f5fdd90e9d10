//! What help says of commands.
ghost use Rattle.std.specs.Prelude.{◌≡◌, ◌++◌, IfOk, OnOk, map, replicate, string_bytes};
ghost use Rattle.nl_commands.specs.HelpTexts.{form_help, forms_help, help_line, help_lines};

use crate::names::CommandForm;
use std::alloc::{AllocError, Global};
use std::fmt::Write;

/// The column at which what is said of a command begins.
const COLUMN: usize = 31;

fn write_blanks(count: usize, text: &mut String) -> Result<(), AllocError>
    ensures { OnOk result (string_bytes text.new ≡ string_bytes text.old ++ replicate count 32) }
{
    for _ in 0..count {
        text.push_str(" ")?;
    }
    Ok(())
}

/// Writes a line that begins so, and says so much from the column on.
fn write_line(head: &str, line: &str, text: &mut String) -> Result<(), AllocError>
    ensures { OnOk result (string_bytes text.new ≡ string_bytes text.old ++ help_line head.now line.now) }
{
    text.push_str(head)?;
    write_blanks(COLUMN.saturating_sub(head.len()), text)?;
    write!(text, "{line}\n")
}

/// Writes lines, of which the first begins so.
fn write_lines(head: &str, lines: &[&str], text: &mut String) -> Result<(), AllocError>
    ensures { OnOk result (string_bytes text.new ≡ string_bytes text.old ++ help_lines head.now (map (λ l. l.now) lines.now)) }
{
    match lines {
        [] => Ok(()),
        [line, rest @ ..] => {
            write_line(head, line, text)?;
            write_lines("", rest, text)
        }
    }
}

/// Writes what is said of a command.
fn write_form(alloc: Global, form: &CommandForm, text: &mut String) -> Result<(), AllocError>
    ensures { OnOk result (string_bytes text.new ≡ string_bytes text.old ++ form_help form.now) }
{
    let head = format!(in alloc; "  {} {}", form.word, form.form)?;
    write_lines(head.as_str(), form.help, text)
}

fn write_forms(alloc: Global, forms: &[CommandForm], text: &mut String) -> Result<(), AllocError>
    ensures { OnOk result (string_bytes text.new ≡ string_bytes text.old ++ forms_help forms.now) }
{
    match forms {
        [] => Ok(()),
        [form, rest @ ..] => {
            write_form(alloc, form, text)?;
            write_forms(alloc, rest, text)
        }
    }
}

/// What help says of commands, in their order: how each is written, and from a column on what it does, in one
/// line or more.
///
/// # Errors
/// For want of memory.
pub fn help_of(alloc: Global, forms: &[CommandForm]) -> Result<String, AllocError>
    ensures { IfOk result (λ text. string_bytes text ≡ forms_help forms.now) }
{
    let mut text = String::new(alloc);
    write_forms(alloc, forms, &mut text)?;
    Ok(text)
}
