//! What the program is told.
use crate::commands::{Command, Look};
use clap::{Arg, ArgAction};
use std::alloc::{AllocError, Global};

/// What stands behind the commands in the help.
const MORE: &str = "\
CNO is a checkpoint: its number, `latest`, or a date, which means the latest one at or before it:
2026-11-26, 2026-11-26T18:00, the same with Z or an offset as +01:00, `yesterday`, `today`, `now`.
A SIZE is as 8M, 8192K or 8388608.
Status: 0 done, 1 `diff` or `check` found something, 2 refused, 3 done but something was left out.
Owners are set by `restore --owners` alone. Extended attributes and ACLs are not kept.";

/// How a command is given an argument.
#[derive(Clone, Copy)]
enum Kind<'a> {
    /// By a word, which is required.
    Word,
    /// By a word, which may be left out.
    OptionalWord,
    /// By words, one at least.
    Words,
    /// By an option with a value, which the help calls so.
    Valued(&'a str),
    /// By such options, any number of them.
    Repeated(&'a str),
    /// By a letter.
    Letter(char),
    /// By an option without a value.
    Flag,
}

/// An argument of a command.
#[derive(Clone, Copy)]
struct Argument<'a> {
    /// Its name, in the help too.
    name: &'a str,
    kind: Kind<'a>,
    /// What the help says of it.
    help: &'a str,
}

/// A command of the program.
#[derive(Clone, Copy)]
struct Form<'a> {
    command: Command,
    name: &'a str,
    /// What the help says of it.
    about: &'a str,
    arguments: &'a [Argument<'a>],
}

/// What is said of each argument that is a checkpoint.
const CHECKPOINT: &str = "Checkpoint: its number, latest, or a date";

const PART: &str = "What lies at and below this path alone";

const IMAGE: Argument<'static> = Argument {
    name: "IMAGE",
    kind: Kind::Word,
    help: "File that holds the volume",
};

const NUMBER: Argument<'static> = Argument {
    name: "CNO",
    kind: Kind::Word,
    help: CHECKPOINT,
};

const PATH: Argument<'static> = Argument {
    name: "PATH",
    kind: Kind::OptionalWord,
    help: PART,
};

const MOST: Argument<'static> = Argument {
    name: "max",
    kind: Kind::Valued("SIZE"),
    help: "How great the volume may become [default: 256M]",
};

const MOMENT: Argument<'static> = Argument {
    name: "at",
    kind: Kind::Valued("MOMENT"),
    help: "Seconds since 1970 [default: the clock's]",
};

const JSON: Argument<'static> = Argument {
    name: "json",
    kind: Kind::Flag,
    help: "As objects of JSON, one a line",
};

const QUIET: Argument<'static> = Argument {
    name: "quiet",
    kind: Kind::Letter('q'),
    help: "Tells the last line alone, and nothing of the work",
};

const DRY_RUN: Argument<'static> = Argument {
    name: "dry-run",
    kind: Kind::Letter('n'),
    help: "Tells what would change, and changes nothing",
};

/// The commands, in the order of the help.
const COMMANDS: &[Form<'static>] = &[
    Form {
        command: Command::Init,
        name: "init",
        about: "Makes a new volume in a new file",
        arguments: &[
            IMAGE,
            Argument {
                name: "size",
                kind: Kind::Valued("SIZE"),
                help: "Size of the volume [default: 8M]",
            },
            MOMENT,
        ],
    },
    Form {
        command: Command::Backup,
        name: "backup",
        about: "Keeps a folder as it is, as the next snapshot",
        arguments: &[
            IMAGE,
            Argument {
                name: "FOLDER",
                kind: Kind::Word,
                help: "Folder to keep",
            },
            DRY_RUN,
            QUIET,
            Argument {
                name: "exclude",
                kind: Kind::Repeated("PATTERN"),
                help: "Path below FOLDER, or name, to pass over; * and ? stand for all but /",
            },
            Argument {
                name: "plain",
                kind: Kind::Flag,
                help: "Keeps names and bytes alone: no modes, times, owners and links",
            },
            Argument {
                name: "one-file-system",
                kind: Kind::Flag,
                help: "Passes over folders on other file systems than FOLDER's",
            },
            MOST,
            MOMENT,
        ],
    },
    Form {
        command: Command::Restore,
        name: "restore",
        about: "Lays a checkpoint's tree out in a folder",
        arguments: &[
            IMAGE,
            NUMBER,
            Argument {
                name: "FOLDER",
                kind: Kind::Word,
                help: "Folder that isn't there yet, or is empty",
            },
            Argument {
                name: "path",
                kind: Kind::Valued("PATH"),
                help: PART,
            },
            Argument {
                name: "owners",
                kind: Kind::Flag,
                help: "Sets owners too, and the bits of modes by which others act as them",
            },
        ],
    },
    Form {
        command: Command::Looks(Look::List),
        name: "list",
        about: "Lists the checkpoints",
        arguments: &[
            IMAGE,
            Argument {
                name: "all",
                kind: Kind::Letter('a'),
                help: "Minor ones, which cleaning made, too",
            },
            Argument {
                name: "long",
                kind: Kind::Letter('l'),
                help: "With the paths and bytes of each",
            },
            JSON,
        ],
    },
    Form {
        command: Command::Looks(Look::Ls),
        name: "ls",
        about: "Lists the files and folders of a checkpoint with their sizes",
        arguments: &[IMAGE, NUMBER, PATH, JSON],
    },
    Form {
        command: Command::Looks(Look::Cat),
        name: "cat",
        about: "Writes a file of a checkpoint to standard output",
        arguments: &[
            IMAGE,
            NUMBER,
            Argument {
                name: "PATH",
                kind: Kind::Word,
                help: "Path of the file",
            },
        ],
    },
    Form {
        command: Command::Looks(Look::Diff),
        name: "diff",
        about: "Tells what differs from one checkpoint to another",
        arguments: &[
            IMAGE,
            Argument {
                name: "A",
                kind: Kind::Word,
                help: CHECKPOINT,
            },
            Argument {
                name: "B",
                kind: Kind::Word,
                help: CHECKPOINT,
            },
            PATH,
            JSON,
        ],
    },
    Form {
        command: Command::Looks(Look::History),
        name: "history",
        about: "Tells at which checkpoints what stands at a path changed",
        arguments: &[
            IMAGE,
            Argument {
                name: "PATH",
                kind: Kind::Word,
                help: "Path of a file, folder or link",
            },
            JSON,
        ],
    },
    Form {
        command: Command::Looks(Look::Find),
        name: "find",
        about: "Tells where in each checkpoint something has a name",
        arguments: &[
            IMAGE,
            Argument {
                name: "NAME",
                kind: Kind::Word,
                help: "Name of a file, folder or link, without a path",
            },
        ],
    },
    Form {
        command: Command::Looks(Look::Tree),
        name: "tree",
        about: "Draws the files and folders of a checkpoint",
        arguments: &[IMAGE, NUMBER, PATH],
    },
    Form {
        command: Command::Looks(Look::Du),
        name: "du",
        about: "Tells how many bytes the files of each folder of a checkpoint have",
        arguments: &[IMAGE, NUMBER, PATH],
    },
    Form {
        command: Command::Looks(Look::Df),
        name: "df",
        about: "Tells how many blocks are clean, needed and dead, and how many a backup can write",
        arguments: &[IMAGE, JSON],
    },
    Form {
        command: Command::Looks(Look::Show),
        name: "show",
        about: "Writes a page of HTML on the volume to standard output",
        arguments: &[IMAGE],
    },
    Form {
        command: Command::Revert,
        name: "revert",
        about: "Brings a file or a folder of a checkpoint back, as the next snapshot",
        arguments: &[
            IMAGE,
            NUMBER,
            Argument {
                name: "PATH",
                kind: Kind::Word,
                help: "Path of the file or folder",
            },
            QUIET,
            MOST,
            MOMENT,
        ],
    },
    Form {
        command: Command::Looks(Look::Tar),
        name: "tar",
        about: "Writes a checkpoint as an archive to standard output",
        arguments: &[IMAGE, NUMBER, PATH],
    },
    Form {
        command: Command::Untar,
        name: "untar",
        about: "Keeps an archive from standard input, as the next snapshot",
        arguments: &[IMAGE, QUIET, MOST, MOMENT],
    },
    Form {
        command: Command::Copy,
        name: "copy",
        about: "Brings later checkpoints of one image into another one",
        arguments: &[
            IMAGE,
            Argument {
                name: "IMAGE2",
                kind: Kind::Word,
                help: "File that holds the other volume; a new one is made where none is",
            },
            QUIET,
            MOST,
        ],
    },
    Form {
        command: Command::Forget,
        name: "forget",
        about: "Removes checkpoints",
        arguments: &[
            IMAGE,
            Argument {
                name: "R",
                kind: Kind::Words,
                help: "Number of a checkpoint, or two with .. between them",
            },
            MOST,
            MOMENT,
        ],
    },
    Form {
        command: Command::Pin,
        name: "pin",
        about: "Lets a checkpoint stay whatever prune is told, as the next snapshot",
        arguments: &[
            IMAGE,
            NUMBER,
            Argument {
                name: "TEXT",
                kind: Kind::OptionalWord,
                help: "What list tells of it",
            },
            Argument {
                name: "off",
                kind: Kind::Letter('d'),
                help: "Takes the pin off",
            },
            MOST,
            MOMENT,
        ],
    },
    Form {
        command: Command::Prune,
        name: "prune",
        about: "Removes the checkpoints that are not pinned, and that no rule keeps",
        arguments: &[
            IMAGE,
            Argument {
                name: "last",
                kind: Kind::Valued("N"),
                help: "The last N stay",
            },
            Argument {
                name: "hourly",
                kind: Kind::Valued("N"),
                help: "The newest of each of the last N hours that have one stays",
            },
            Argument {
                name: "daily",
                kind: Kind::Valued("N"),
                help: "The same of days",
            },
            Argument {
                name: "weekly",
                kind: Kind::Valued("N"),
                help: "The same of weeks, from Monday on",
            },
            Argument {
                name: "monthly",
                kind: Kind::Valued("N"),
                help: "The same of months",
            },
            Argument {
                name: "yearly",
                kind: Kind::Valued("N"),
                help: "The same of years",
            },
            DRY_RUN,
            Argument {
                name: "quiet",
                kind: Kind::Letter('q'),
                help: "Tells how many were removed, and nothing else",
            },
            MOMENT,
        ],
    },
    Form {
        command: Command::Check,
        name: "check",
        about: "Reads every byte of an image, and tells whether it is damaged",
        arguments: &[
            IMAGE,
            Argument {
                name: "all",
                kind: Kind::Letter('a'),
                help: "Tells the later conditions too, as far as they can be judged",
            },
            JSON,
        ],
    },
    Form {
        command: Command::Rescue,
        name: "rescue",
        about: "Lays out what can be read of each checkpoint of a damaged image",
        arguments: &[
            IMAGE,
            Argument {
                name: "FOLDER",
                kind: Kind::Word,
                help: "Folder that isn't there yet",
            },
        ],
    },
];

impl Kind<'_> {
    fn is_required(self) -> bool {
        matches!(self, Kind::Word | Kind::Words)
    }

    /// What the library does with a value.
    fn action(self) -> ArgAction {
        match self {
            Kind::Word | Kind::OptionalWord | Kind::Valued(_) => ArgAction::Set,
            Kind::Words | Kind::Repeated(_) => ArgAction::Append,
            Kind::Letter(_) | Kind::Flag => ArgAction::SetTrue,
        }
    }
}

/// What all arguments have.
fn plain_argument(alloc: Global, argument: Argument<'_>) -> Arg<'_> {
    Arg::new(alloc, argument.name)
        .help(argument.help)
        .required(argument.kind.is_required())
        .action(argument.kind.action())
}

/// An argument, as one of the library's.
fn library_argument(alloc: Global, argument: Argument<'_>) -> Arg<'_> {
    let plain = plain_argument(alloc, argument);
    match argument.kind {
        Kind::Word | Kind::OptionalWord => plain,
        Kind::Words => plain.num_args(1..),
        Kind::Valued(value) | Kind::Repeated(value) => plain.long(argument.name).value_name(value),
        Kind::Letter(letter) => plain.short(letter),
        Kind::Flag => plain.long(argument.name),
    }
}

fn with_arguments<'a>(
    alloc: Global,
    command: clap::Command<'a>,
    arguments: &[Argument<'a>],
) -> Result<clap::Command<'a>, AllocError> {
    let mut command = command;
    for argument in arguments {
        command = command.arg(library_argument(alloc, *argument))?;
    }
    Ok(command)
}

/// A command, as one of the library's.
fn library_command(alloc: Global, form: Form<'_>) -> Result<clap::Command<'_>, AllocError> {
    let bare = clap::Command::new(alloc, form.name).about(form.about);
    with_arguments(alloc, bare, form.arguments)
}

/// The program without its commands. Its name begins the usage of each.
fn bare<'a>(alloc: Global) -> Result<clap::Command<'a>, AllocError> {
    clap::Command::new(alloc, "nlkeep")
        .about("Keeps folders with their history, in a volume with continuous snapshots")
        .version("0.1.0")
        .after_help(MORE)
        .subcommand_required(true)
        .no_binary_name(true)
        .bin_name("nlkeep")
}

fn with_command<'a>(
    alloc: Global,
    program: clap::Command<'a>,
    form: Form<'a>,
) -> Result<clap::Command<'a>, AllocError> {
    match library_command(alloc, form) {
        Ok(command) => program.subcommand(command),
        Err(error) => Err(error),
    }
}

/// The program with its commands.
pub fn program<'a>(alloc: Global) -> Result<clap::Command<'a>, AllocError> {
    let commands = COMMANDS;
    let mut program = bare(alloc)?;
    for form in commands {
        program = with_command(alloc, program, *form)?;
    }
    Ok(program)
}

/// The command of a name. None has one that the program doesn't take.
pub fn command_of(name: &str) -> Option<Command> {
    let commands = COMMANDS;
    commands
        .iter()
        .find(|form| form.name == name)
        .map(|form| form.command)
}
