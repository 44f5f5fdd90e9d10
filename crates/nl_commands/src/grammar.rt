//! The words behind a command's name, by the arguments that it may be given. This module alone knows
//! the library that reads them.
ghost use Rattle.std.specs.Prelude.{◌≡◌, IfOk, false, map, option_map, true};
ghost use Rattle.clap.specs.Words.{all_of, app_of, first_of, rule_of};
ghost use Rattle.nl_types.specs.Plain.Calls.{IsUnless};
ghost use Rattle.nl_commands.specs.Grammars.{Reads, argument_rule, bare_grammar, grammar, has_hyphen, is_from_words, is_readable, is_used, parsed};

use crate::error::LineError;
use clap::parser::ValueSource;
use clap::{Arg, ArgAction, ArgMatches, Command};
use std::alloc::{AllocError, Global};
use std::marker::Model;

/// One or more of the words behind a command's name, by the name that they are asked for by. An option
/// has a letter, too.
#[derive(Clone, Copy)]
pub enum Argument<'a> {
    /// An option that is there or not.
    Flag(&'a str, char),
    /// An option that has a value.
    Value(&'a str, char),
    /// One word.
    Operand(&'a str),
    /// One word or more at the end.
    Operands(&'a str),
}

/// What a command is given.
#[derive(Drop)]
pub struct Given<'a> {
    matches: ArgMatches<'a>,
}

impl<'a> Model for Given<'a> {
    ghost use Rattle.std.specs.Prelude.{List};
    ghost use Rattle.clap.specs.Words.{Row, found_of, rows_of};

    ghost Value = { List Row };

    ghost view = { λ g. rows_of (found_of g.matches) };
}

/// Whether a lone hyphen stands before the end of the options.
fn has_hyphen(words: &[&str]) -> bool
    ensures { result ≡ has_hyphen (map (λ w. w.now) words.now) }
{
    match words {
        [] => false,
        [word, rest @ ..] => *word != "--" && (*word == "-" || has_hyphen(rest)),
    }
}

fn is_from_words(source: Option<ValueSource>) -> bool
    ensures { result ≡ is_from_words source }
{
    match source {
        Some(ValueSource::CommandLine) => true,
        Some(ValueSource::DefaultValue) | None => false,
    }
}

/// What the words give by a command. The library takes a lone hyphen for a value; that it is none is
/// judged behind the library's reading, which has used up the command.
fn read_by<'a>(command: &mut Command<'a>, words: &'a [&'a str]) -> Result<Given<'a>, LineError>
    ensures { is_readable (app_of command.old) ≡ true
        → IsUnless LineError.Memory result
        (parsed (app_of command.old) (map (λ w. w.now) words.entry.now)) }
{
    let matches = command.try_get_matches_from_mut(words)?;
    if has_hyphen(words) {
        return Err(LineError::Usage);
    }
    Ok(Given { matches })
}

/// An argument, as one of the library's.
fn library_argument(alloc: Global, argument: Argument<'_>) -> Arg<'_>
    ensures local { result.global ≡ false }
    ensures rule { rule_of result ≡ argument_rule argument.entry }
{
    match argument {
        Argument::Flag(id, letter) => {
            Arg::new(alloc, id).short(letter).action(ArgAction::SetTrue)
        }
        Argument::Value(id, letter) => Arg::new(alloc, id).short(letter).action(ArgAction::Set),
        Argument::Operand(id) => Arg::new(alloc, id).required(true).action(ArgAction::Set),
        Argument::Operands(id) => Arg::new(alloc, id).required(true).action(ArgAction::Append),
    }
}

/// A command that is given nothing. It has no help of its own.
fn bare<'a>(alloc: Global, name: &'a str) -> Command<'a>
    ensures { app_of result ≡ bare_grammar name.entry.now }
{
    Command::new(alloc, name)
        .no_binary_name(true)
        .disable_help_flag(true)
}

/// A command that may be given these arguments.
fn command_of<'a>(
    alloc: Global,
    name: &'a str,
    arguments: &[Argument<'a>],
) -> Result<Command<'a>, AllocError>
    ensures { IfOk result (λ command.
        app_of command ≡ grammar name.entry.now (map argument_rule arguments.now)) }
{
    let mut command = bare(alloc, name);
    for argument in arguments {
        command = command.arg(library_argument(alloc, *argument))?;
    }
    Ok(command)
}

/// What the words give by the arguments that the command of this name may be given.
///
/// # Errors
/// `Usage` where they are not of that form; `Memory`.
pub fn read<'a>(
    alloc: Global,
    name: &'a str,
    arguments: &[Argument<'a>],
    words: &'a [&'a str],
) -> Result<Given<'a>, LineError>
    ensures { Reads name.entry.now (map argument_rule arguments.now)
        (map (λ w. w.now) words.entry.now) result }
{
    let mut command = command_of(alloc, name, arguments)?;
    read_by(&mut command, words)
}

impl<'a> Given<'a> {
    /// Whether an option is given.
    pub fn has(&self, id: &str) -> bool
        ensures { result ≡ is_used id.now self.now }
    {
        is_from_words(self.matches.value_source(id))
    }

    /// The value of an option, or a word.
    pub fn text(&self, id: &str) -> Option<&'a str>
        ensures { option_map (λ s. s.now) result ≡ first_of id.now self.now }
    {
        self.matches.get_str(id)
    }

    /// The words at the end.
    pub fn texts(&self, id: &str) -> Option<&[&'a str]>
        ensures { option_map (λ s. map (λ v. v.now) s.now) result ≡ all_of id.now self.now }
    {
        self.matches.get_strs(id)
    }
}
