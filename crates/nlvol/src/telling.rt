//! What a session tells on the stream of errors. Where that stream fails, the status still says that
//! something was refused.
ghost use Rattle.std.specs.Prelude.{◌≡◌, None, option_map, true};
ghost use Rattle.nl_script.specs.RefusalTexts.{start_text};
ghost use Rattle.nl_script.specs.StreamTexts.{stream_text};
ghost use Rattle.nlvol.specs.Telling.{IsNoticed, Tells, configuration_step, configuration_text, errors_of, failure_text, fault_text, notice, path_given, words_text};

use crate::starting::StartFault;
use nl_commands::{Arguments, ArgumentsFault};
use nl_saving::FileFault;
use nl_script::texts::{
    StandardStream, StartStep, in_use_text, notice_text, start_text, stream_text, unread_text,
};
use nl_types::{Items, VolError};
use std::io::Write;

/// How a session ended.
#[derive(Clone, Copy)]
pub struct SessionEnd {
    /// The exit status.
    pub status: u8,
    /// Whether all that there was to tell stands on the stream of errors. If not, that stream failed.
    pub told: bool,
}

impl SessionEnd {
    /// The same end, behind something else that there was to tell.
    pub fn behind(self, told: bool) -> SessionEnd
        ensures status { result.status ≡ self.status }
        ensures told { result.told ≡ true → (told ≡ true) × (self.told ≡ true) }
    {
        SessionEnd {
            status: self.status,
            told: told && self.told,
        }
    }
}

/// Tells of a refusal before the first line.
pub fn tell_refusal<E: Write>(step: StartStep, error: VolError, errors: &mut E) -> bool
    ensures { Tells (start_text step error) (errors_of E.contents errors.old errors.new) result }
{
    start_text(step, error, errors).is_ok()
}

/// Tells what is wrong with the words.
pub fn tell_words<E: Write>(fault: &ArgumentsFault, errors: &mut E) -> bool
    ensures { Tells (words_text fault.now) (errors_of E.contents errors.old errors.new) result }
{
    match fault {
        ArgumentsFault::Misread(text) => errors.write_all(text.as_bytes()).is_ok(),
        ArgumentsFault::Memory => tell_refusal(StartStep::Start, VolError::Memory, errors),
    }
}

/// A path, which is empty where none was given.
fn path_given<'a>(path: Option<&'a [u8]>) -> &'a [u8]
    ensures { result.now ≡ path_given (option_map (λ p. p.now) path.entry) }
{
    match path {
        Some(path) => path,
        None => &[],
    }
}

/// The step that a configuration is refused by. Want of memory isn't its fault.
fn configuration_step(error: VolError) -> StartStep
    ensures { result ≡ configuration_step error }
{
    match error {
        VolError::Memory => StartStep::Start,
        _ => StartStep::Configuration,
    }
}

/// Tells why there is no configuration.
pub fn tell_configuration<E: Write>(path: Option<&[u8]>, fault: FileFault, errors: &mut E) -> bool
    ensures { Tells (configuration_text (option_map (λ p. p.now) path.entry) fault)
        (errors_of E.contents errors.old errors.new) result }
{
    match fault {
        FileFault::Unread => unread_text(path_given(path), errors).is_ok(),
        FileFault::Refused(error) => tell_refusal(configuration_step(error), error, errors),
    }
}

/// The file of the image that was asked for.
fn open_path(arguments: &Arguments) -> Option<&[u8]>
    ensures { option_map (λ p. p.now) result ≡ arguments.now.«open» }
{
    arguments.open.as_ref().map(Items::as_slice)
}

/// The file that was asked for to save the image.
pub fn save_path(arguments: &Arguments) -> Option<&[u8]>
    ensures { option_map (λ p. p.now) result ≡ arguments.now.save }
{
    arguments.save.as_ref().map(Items::as_slice)
}

/// Tells why there is no volume, or no place to save it.
pub fn tell_fault<E: Write>(arguments: &Arguments, fault: StartFault, errors: &mut E) -> bool
    ensures { Tells (fault_text arguments.now fault) (errors_of E.contents errors.old errors.new) result }
{
    match fault {
        StartFault::Unread => unread_text(path_given(open_path(arguments)), errors).is_ok(),
        StartFault::InUse => in_use_text(path_given(save_path(arguments)), errors).is_ok(),
        StartFault::Refused(step, error) => tell_refusal(step, error, errors),
    }
}

/// Tells a person who types the script when its file is saved, if one is.
pub fn tell_notice<E: Write>(path: Option<&[u8]>, is_typed: bool, errors: &mut E) -> bool
    ensures silent { IsNoticed is_typed (option_map (λ p. p.now) path.entry) errors.old errors.new }
    ensures told { Tells (notice is_typed (option_map (λ p. p.now) path.entry))
        (errors_of E.contents errors.old errors.new) result }
{
    match path {
        Some(path) if is_typed => notice_text(path, errors).is_ok(),
        _ => true,
    }
}

/// Tells that a standard stream failed.
pub fn tell_failure<E: Write>(stream: StandardStream, errors: &mut E) -> bool
    ensures { Tells (stream_text stream) (errors_of E.contents errors.old errors.new) result }
{
    stream_text(stream, errors).is_ok()
}

/// Tells which standard stream failed, if one did.
pub fn tell_stream<E: Write>(failed: Option<StandardStream>, errors: &mut E) -> bool
    ensures silent { failed ≡ None → errors.new ≡ errors.old }
    ensures told { Tells (failure_text failed) (errors_of E.contents errors.old errors.new) result }
{
    match failed {
        Some(stream) => tell_failure(stream, errors),
        None => true,
    }
}
