//! The commands: the word that names each, and what it may be given.
ghost use Rattle.std.specs.Prelude.{◌≡◌, map, option_map, true};
ghost use Rattle.nl_types.specs.Plain.Calls.{IsUnless};
ghost use Rattle.nl_commands.specs.CommandNames.{command_given, commands, entry_in, entry_meant, entry_of, meant_if_named};
ghost use Rattle.nl_commands.specs.Grammars.{argument_rule, grammar, is_readable};

use crate::command::{Command, Shown};
use crate::error::LineError;
use crate::grammar::{Argument, Given, read};
use crate::{asking, checkpoints, files, mounts};
use std::alloc::Global;

/// A command, without what it is given.
#[derive(Clone, Copy)]
pub enum CommandName {
    At,
    Mkcp,
    Chcp,
    Lscp,
    Rmcp,
    Lssu,
    Clean,
    Mount,
    Umount,
    Resize,
    Create,
    Mkdir,
    Rm,
    Rmdir,
    Mv,
    Write,
    Fill,
    Truncate,
    Cat,
    Catm,
    Ls,
    Stat,
}

/// A command, as it is written and as help tells of it.
#[derive(Clone, Copy)]
pub struct CommandForm {
    pub name: CommandName,
    /// The word that names it.
    pub word: &'static str,
    /// The words behind that one, as help shows them.
    pub form: &'static str,
    /// What help says of it, in lines.
    pub help: &'static [&'static str],
    /// What it may be given.
    pub arguments: &'static [Argument<'static>],
}

/// All commands, in the order in which help tells of them.
pub const COMMANDS: &[CommandForm] = &[
    CommandForm {
        word: "at",
        form: "MOMENT",
        help: &["set the moment of later commands, in seconds"],
        arguments: checkpoints::AT_ARGUMENTS,
        name: CommandName::At,
    },
    CommandForm {
        word: "mkcp",
        form: "[-s]",
        help: &["make a checkpoint, or a snapshot with -s, and print its number"],
        arguments: checkpoints::MKCP_ARGUMENTS,
        name: CommandName::Mkcp,
    },
    CommandForm {
        word: "chcp",
        form: "cp|ss N..",
        help: &["make checkpoints plain, or snapshots"],
        arguments: checkpoints::CHCP_ARGUMENTS,
        name: CommandName::Chcp,
    },
    CommandForm {
        word: "lscp",
        form: "[-rsa] [-i N] [-n K]",
        help: &[
            "list checkpoints: -r descending, -s snapshots alone, -a those too",
            "that the volume made itself, -i N from N on, -n K the first K",
        ],
        arguments: checkpoints::LSCP_ARGUMENTS,
        name: CommandName::Lscp,
    },
    CommandForm {
        word: "rmcp",
        form: "[-f] R..",
        help: &[
            "remove checkpoints: N, A..B, A.. or ..B; with -f not a word of",
            "snapshots, or of numbers that aren't kept",
        ],
        arguments: checkpoints::RMCP_ARGUMENTS,
        name: CommandName::Rmcp,
    },
    CommandForm {
        word: "lssu",
        form: "[-a] [-l]",
        help: &["list segments: -a clean ones too, -l how many needed blocks each has"],
        arguments: mounts::LSSU_ARGUMENTS,
        name: CommandName::Lssu,
    },
    CommandForm {
        word: "clean",
        form: "",
        help: &["do one round of cleaning, by the configuration of --conf"],
        arguments: &[],
        name: CommandName::Clean,
    },
    CommandForm {
        word: "mount",
        form: "N",
        help: &["mount a snapshot, and print the mount"],
        arguments: mounts::MOUNT_ARGUMENTS,
        name: CommandName::Mount,
    },
    CommandForm {
        word: "umount",
        form: "M",
        help: &["give a mount back"],
        arguments: mounts::UMOUNT_ARGUMENTS,
        name: CommandName::Umount,
    },
    CommandForm {
        word: "resize",
        form: "S",
        help: &["make the volume one of S segments, no fewer than it has"],
        arguments: mounts::RESIZE_ARGUMENTS,
        name: CommandName::Resize,
    },
    CommandForm {
        word: "create",
        form: "PATH",
        help: &["make an empty file"],
        arguments: files::PATH_ARGUMENTS,
        name: CommandName::Create,
    },
    CommandForm {
        word: "mkdir",
        form: "PATH",
        help: &["make an empty directory"],
        arguments: files::PATH_ARGUMENTS,
        name: CommandName::Mkdir,
    },
    CommandForm {
        word: "rm",
        form: "PATH",
        help: &["remove a file"],
        arguments: files::PATH_ARGUMENTS,
        name: CommandName::Rm,
    },
    CommandForm {
        word: "rmdir",
        form: "PATH",
        help: &["remove an empty directory"],
        arguments: files::PATH_ARGUMENTS,
        name: CommandName::Rmdir,
    },
    CommandForm {
        word: "mv",
        form: "FROM TO",
        help: &["rename a file or a directory"],
        arguments: files::OPERANDS_ARGUMENTS,
        name: CommandName::Mv,
    },
    CommandForm {
        word: "write",
        form: "PATH OFFSET TEXT",
        help: &["write the bytes of a text"],
        arguments: files::OPERANDS_ARGUMENTS,
        name: CommandName::Write,
    },
    CommandForm {
        word: "fill",
        form: "PATH OFFSET BYTE COUNT",
        help: &["write COUNT bytes of one value, 0 to 255"],
        arguments: files::OPERANDS_ARGUMENTS,
        name: CommandName::Fill,
    },
    CommandForm {
        word: "truncate",
        form: "PATH SIZE",
        help: &["give a file another size"],
        arguments: files::OPERANDS_ARGUMENTS,
        name: CommandName::Truncate,
    },
    CommandForm {
        word: "cat",
        form: "[-m M] PATH",
        help: &["print a file"],
        arguments: asking::SHOW_ARGUMENTS,
        name: CommandName::Cat,
    },
    CommandForm {
        word: "catm",
        form: "M PATH..",
        help: &["print files of a mount's snapshot"],
        arguments: asking::CATM_ARGUMENTS,
        name: CommandName::Catm,
    },
    CommandForm {
        word: "ls",
        form: "[-m M] PATH",
        help: &["print the names in a directory"],
        arguments: asking::SHOW_ARGUMENTS,
        name: CommandName::Ls,
    },
    CommandForm {
        word: "stat",
        form: "[-m M] PATH",
        help: &["print \"file SIZE\" or \"dir COUNT\""],
        arguments: asking::SHOW_ARGUMENTS,
        name: CommandName::Stat,
    },
];

/// The first of the commands that a word names.
fn form_in<'a>(commands: &'a [CommandForm], word: &str) -> Option<&'a CommandForm>
    ensures { option_map (λ form. entry_of form.now) result ≡ entry_in word.now (map entry_of commands.now) }
{
    for command in commands {
        if command.word == word {
            return Some(command);
        }
    }
    None
}

/// The command that a word names.
#[tactic(auto, unfolding(crate::specs::CommandNames::commands))]
fn form_for(word: &str) -> Option<&'static CommandForm>
    ensures { option_map (λ form. entry_of form.now) result ≡ entry_in word.now commands }
{
    form_in(COMMANDS, word)
}

fn command_given(alloc: Global, name: CommandName, given: &Given<'_>) -> Result<Command, LineError>
    ensures { IsUnless LineError.Memory result (command_given name given.now) }
{
    match name {
        CommandName::At => checkpoints::at(given),
        CommandName::Mkcp => Ok(checkpoints::mkcp(given)),
        CommandName::Chcp => checkpoints::chcp(alloc, given),
        CommandName::Lscp => checkpoints::lscp(given),
        CommandName::Rmcp => checkpoints::rmcp(alloc, given),
        CommandName::Lssu => Ok(mounts::lssu(given)),
        CommandName::Clean => Ok(Command::Clean),
        CommandName::Mount => mounts::mount(given),
        CommandName::Umount => mounts::umount(given),
        CommandName::Resize => mounts::resize(given),
        CommandName::Create => files::create(alloc, given),
        CommandName::Mkdir => files::mkdir(alloc, given),
        CommandName::Rm => files::rm(alloc, given),
        CommandName::Rmdir => files::rmdir(alloc, given),
        CommandName::Mv => files::mv(alloc, given),
        CommandName::Write => files::write(alloc, given),
        CommandName::Fill => files::fill(alloc, given),
        CommandName::Truncate => files::truncate(alloc, given),
        CommandName::Cat => asking::show(alloc, Shown::Content, given),
        CommandName::Catm => asking::catm(alloc, given),
        CommandName::Ls => asking::show(alloc, Shown::Names, given),
        CommandName::Stat => asking::show(alloc, Shown::Kind, given),
    }
}

/// What a command asks for with the words behind its own.
///
/// # Errors
/// `Usage` where the words are not of the command's form; `Memory`.
fn read_by_form(alloc: Global, form: &CommandForm, words: &[&str]) -> Result<Command, LineError>
    requires { is_readable (grammar form.now.word.now (map argument_rule form.now.arguments.now)) ≡ true }
    ensures { IsUnless LineError.Memory result (entry_meant (entry_of form.now) (map (λ w. w.now) words.now)) }
{
    let given = read(alloc, form.word, form.arguments, words)?;
    command_given(alloc, form.name, &given)
}

/// What a command asks for, by the word that names it and the words behind that.
///
/// # Errors
/// `Usage` where the first word names no command, or the others are not of its form; `Memory`.
pub fn read_named(alloc: Global, word: &str, words: &[&str]) -> Result<Command, LineError>
    ensures { IsUnless LineError.Memory result
        (meant_if_named (entry_in word.now commands) (map (λ w. w.now) words.now)) }
{
    let form = form_for(word).ok_or(LineError::Usage)?;
    read_by_form(alloc, form, words)
}
