//! Lines of a script to commands: a line's bytes to its words, and these, by what the command that the
//! first one names may be given, to what it asks for. The arguments of the program are read here too.
//!
//! What no other crate calls is public too, where its contract is one that docs/PROOFS.md names: a promise is
//! kept by public contracts alone.
#![tactic(auto)]

mod arguments;
mod asked;
mod asking;
mod checkpoints;
mod command;
mod error;
mod files;
mod grammar;
mod help;
pub mod laws;
mod lines;
mod mounts;
mod names;
mod numbers;
mod operands;
mod options;
mod ranges;
mod script_help;
mod small_numbers;
mod words;
pub mod words_laws;

pub use arguments::Arguments;
pub use asked::{ArgumentsFault, Asked};
pub use command::{CheckpointRange, Command, Shown};
pub use error::LineError;
pub use help::help_of;
pub use lines::{read_line, read_words};
pub use names::{COMMANDS, CommandForm, CommandName};
pub use options::read;
