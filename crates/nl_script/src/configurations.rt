//! The configuration of a session: the standard one, or what a file holds.
ghost use Rattle.std.specs.Prelude.{◌≡◌, ◌≢◌, Err, None, option_map};
ghost use Rattle.nl_protect.specs.Configuration.{configuration_in};
ghost use Rattle.nl_script.specs.Configurations.{IsConfigured, IsReadFrom, configured};

use nl_protect::Config;
use nl_saving::{FileFault, open_file, read_all};
use nl_types::VolError;
use std::alloc::Global;
use std::io::Read;
use std::rt::Files;

fn configuration_in(alloc: Global, text: &[u8]) -> Result<Config, FileFault>
    ensures { (result ≢ Err (FileFault.Refused VolError.Memory))
        → result ≡ configured (configuration_in text.now) }
{
    match Config::parse(alloc, text) {
        Ok(config) => Ok(config),
        Err(refusal) => Err(FileFault::Refused(refusal)),
    }
}

/// The configuration that an input holds.
fn configuration_from<I: Read>(alloc: Global, input: &mut I) -> Result<Config, FileFault>
    ensures { IsReadFrom (I.remaining input.old) result }
{
    let text = read_all(alloc, input)?;
    configuration_in(alloc, text.as_slice())
}

/// The configuration that the file at a path holds.
fn configuration_at<R: AllocGlobal + Files>(rt: &R, path: &[u8]) -> Result<Config, FileFault>
    ensures { IsReadFrom None result }
{
    let mut file = open_file(rt, path)?;
    configuration_from(rt.alloc(), &mut file)
}

/// The configuration that the file at a path holds, or the standard one where there is no path.
///
/// # Errors
/// `Unread` where the file can't be read; `BadConfig` with the number of its first bad line; `Memory`.
pub fn configuration<R: AllocGlobal + Files>(
    rt: &R,
    path: Option<&[u8]>,
) -> Result<Config, FileFault>
    ensures { IsConfigured (option_map (λ p. p.now) path.entry) result }
{
    match path {
        None => Ok(Config::standard()),
        Some(path) => configuration_at(rt, path),
    }
}
