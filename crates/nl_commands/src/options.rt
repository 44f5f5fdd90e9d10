//! The program's options. This module alone knows the library that reads them.
ghost use Rattle.std.specs.Prelude.{◌≡◌, IfOk, Some, false, map};
ghost use Rattle.clap.specs.Words.{FailsBy, app_of, fault_of, first_of, found_of, kind_of, matches_of, rows_of, rule_of};
ghost use Rattle.nl_commands.specs.SmallNumbers.{number_in};
ghost use Rattle.nl_commands.specs.Options.{arguments_given, bare, geometry_given, number_given, program, value_rule};
ghost use Rattle.nl_commands.specs.Meanings.{Asks, IsRead, MeansUnlessMemory, error_meaning, fault_meaning, given, help, misread, request_of};

use crate::arguments::Arguments;
use crate::asked::{ArgumentsFault, Asked};
use crate::script_help::script_help;
use crate::small_numbers::number;
use clap::error::ErrorKind;
use clap::{Arg, ArgAction, ArgMatches, Command};
use nl_types::Items;
use std::alloc::{AllocError, Global};

/// Stands in the help, and in the text on an argument that there is none of. So whoever names a
/// script there reads how to hand it over.
const USAGE: &str = "\
nlvol [OPTIONS] < SCRIPT
A script is read from standard input, a command a line.";

/// An option that takes a value.
#[derive(Clone, Copy)]
struct Valued<'a> {
    name: &'a str,
    /// What the help calls the value.
    value: &'a str,
    /// What the help says of the option.
    help: &'a str,
}

/// The program's options.
const OPTIONS: &[Valued<'static>] = &[
    Valued {
        name: "segments",
        value: "S",
        help: "Segments of the device [default: 64]",
    },
    Valued {
        name: "blocks",
        value: "B",
        help: "Blocks in each segment [default: 64]",
    },
    Valued {
        name: "conf",
        value: "FILE",
        help: "Cleaner's configuration, in a part of the language of nilfs_cleanerd.conf(5)",
    },
    Valued {
        name: "open",
        value: "FILE",
        help: "Image of the volume, in place of a new one",
    },
    Valued {
        name: "save",
        value: "FILE",
        help: "Where the image of the volume is saved in the end",
    },
];

/// An option, as one of the library's.
fn library_option(alloc: Global, option: Valued<'_>) -> Arg<'_>
    ensures local { result.global ≡ false }
    ensures rule { rule_of result ≡ value_rule option.entry.name.now }
{
    Arg::new(alloc, option.name)
        .long(option.name)
        .value_name(option.value)
        .help(option.help)
        .action(ArgAction::Set)
}

/// A command that is given nothing but a request for help or for the version: the library adds
/// `-h`, `--help`, `-V` and `--version`.
fn bare<'a>(alloc: Global) -> Command<'a>
    ensures { app_of result ≡ bare }
{
    Command::new(alloc, "nlvol")
        .about("Runs a script on a volume with continuous snapshots, kept in memory")
        .version("0.1.0")
        .override_usage(USAGE)
        .no_binary_name(true)
}

/// The program, with its options.
fn program<'a>(alloc: Global) -> Result<Command<'a>, AllocError>
    ensures { IfOk result (λ c. app_of c ≡ program) }
{
    // named for the loop's invariant
    let options = OPTIONS;
    let mut command = bare(alloc);
    for option in options {
        command = command.arg(library_option(alloc, *option))?;
    }
    Ok(command)
}

fn matches<'a>(alloc: Global, words: &'a [&'a str]) -> Result<ArgMatches<'a>, clap::Error>
    ensures rows { IfOk result
        (λ m. rows_of (found_of m) ≡ matches_of program (map (λ w. w.now) words.entry.now)) }
    ensures kinds { FailsBy (fault_of program (map (λ w. w.now) words.entry.now)) result }
{
    let program = program(alloc)?;
    program.try_get_matches_from(words)
}

/// The fault of a value that is no number, worded as the library words its own.
fn no_number(
    alloc: Global,
    option: &str,
    value: &str,
    word: &str,
) -> Result<ArgumentsFault, AllocError>
    ensures { IfOk result (λ fault. fault_meaning fault ≡ Some misread) }
{
    let text = format!(in alloc;
        "error: invalid value '{word}' for '--{option} <{value}>': no decimal number below \
         4294967296\n\nFor more information, try '--help'.\n"
    )?;
    Ok(ArgumentsFault::Misread(text))
}

/// The number that is the value of an option. `value` is what the help calls it.
///
/// # Errors
/// `Misread` where it is no decimal number below 2^32; `Memory`.
fn option_number(
    alloc: Global,
    option: &str,
    value: &str,
    word: &str,
) -> Result<u32, ArgumentsFault>
    ensures { IsRead result (number_in word.now) }
{
    match number(word) {
        Some(number) => Ok(number),
        None => Err(no_number(alloc, option, value, word)?),
    }
}

/// The number that an option gives, and 64 where it isn't there.
///
/// # Errors
/// As of `option_number`.
fn number_given(
    alloc: Global,
    matches: &ArgMatches<'_>,
    id: &str,
    value: &str,
) -> Result<u32, ArgumentsFault>
    ensures { IsRead result (number_given id.now (rows_of (found_of matches.now))) }
{
    match matches.get_str(id) {
        Some(word) => option_number(alloc, id, value, word),
        None => Ok(64),
    }
}

/// Segments, and blocks in each. The first of them that is no number is told.
///
/// # Errors
/// As of `option_number`.
fn geometry_given(alloc: Global, matches: &ArgMatches<'_>) -> Result<(u32, u32), ArgumentsFault>
    ensures { IsRead result (geometry_given (rows_of (found_of matches.now))) }
{
    let segments = number_given(alloc, matches, "segments", "S")?;
    let blocks = number_given(alloc, matches, "blocks", "B")?;
    Ok((segments, blocks))
}

/// The value of an option, where it is given.
fn word_given(
    alloc: Global,
    matches: &ArgMatches<'_>,
    id: &str,
) -> Result<Option<Items<u8>>, AllocError>
    ensures { IfOk result (λ word. word ≡ first_of id.now (rows_of (found_of matches.now))) }
{
    match matches.get_str(id) {
        Some(word) => Ok(Some(Items::from_slice(alloc, word.as_bytes())?)),
        None => Ok(None),
    }
}

fn arguments_given(alloc: Global, matches: &ArgMatches<'_>) -> Result<Arguments, ArgumentsFault>
    ensures { IsRead result (arguments_given (rows_of (found_of matches.now))) }
{
    let (segments, blocks) = geometry_given(alloc, matches)?;
    let configuration = word_given(alloc, matches, "conf")?;
    let open = word_given(alloc, matches, "open")?;
    let save = word_given(alloc, matches, "save")?;
    Ok(Arguments {
        segments,
        blocks,
        configuration,
        open,
        save,
    })
}

fn run(alloc: Global, matches: &ArgMatches<'_>) -> Result<Asked, ArgumentsFault>
    ensures { MeansUnlessMemory result (Some (given (rows_of (found_of matches.now)))) }
{
    Ok(Asked::Run(arguments_given(alloc, matches)?))
}

/// What is told of the program's options, and then of scripts.
fn help(alloc: Global, options: &str) -> Result<Asked, AllocError>
    ensures { IfOk result (λ asked. request_of asked ≡ help) }
{
    let script = script_help(alloc)?;
    Ok(Asked::Help(format!(in alloc; "{options}\n{script}")?))
}

/// What an error of the library means, with its text.
fn told(alloc: Global, error: &clap::Error) -> Result<Asked, ArgumentsFault>
    ensures { MeansUnlessMemory result (error_meaning (kind_of error.now)) }
{
    let text = format!(in alloc; "{error}")?;
    match error.kind() {
        ErrorKind::OutOfMemory => Err(ArgumentsFault::Memory),
        ErrorKind::DisplayHelp => Ok(help(alloc, text.as_str())?),
        ErrorKind::DisplayVersion => Ok(Asked::Version(text)),
        _ => Err(ArgumentsFault::Misread(text)),
    }
}

/// What the words behind the program's name ask for. A number that is not given is 64. A request
/// for help or the version is answered where no fault stands before it. The texts are not stated;
/// that of help ends with what it says of scripts.
///
/// # Errors
/// `Misread` where a word is no option of the program, an option comes twice or lacks its value, or
/// segments or blocks are no decimal number below 2^32; `Memory`.
pub fn read(alloc: Global, words: &[&str]) -> Result<Asked, ArgumentsFault>
    ensures { Asks (map (λ w. w.now) words.now) result }
{
    match matches(alloc, words) {
        Ok(matches) => run(alloc, &matches),
        Err(error) => told(alloc, &error),
    }
}
