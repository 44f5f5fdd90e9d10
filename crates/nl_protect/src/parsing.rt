//! The reading of a configuration.
ghost use Rattle.std.specs.Prelude.{◌≡◌};
ghost use Rattle.std.specs.Option.{ok_or};
ghost use Rattle.nl_types.specs.Plain.Calls.{IsUnlessMemory};
ghost use Rattle.nl_protect.specs.Configuration.{configuration_in, line_setting};

use crate::config::Config;
use crate::setting::{Setting, setting_of};
use crate::words::{lines_of, words_of};
use nl_types::VolError;
use std::alloc::Global;

fn read_line(alloc: Global, line: &[u8], number: u64) -> Result<Setting, VolError>
    ensures { IsUnlessMemory result (ok_or (line_setting line.now) (VolError.BadConfig number)) }
{
    let words = words_of(alloc, line)?;
    setting_of(words.as_slice()).ok_or(VolError::BadConfig(number))
}

impl Config {
    /// The configuration that a text sets, in the language of nilfs_cleanerd.conf(5). Any bytes may stand in
    /// a comment.
    ///
    /// # Errors
    /// `BadConfig` with the number of the first line that is none of a configuration, from 1; `Memory`.
    pub fn parse(alloc: Global, text: &[u8]) -> Result<Config, VolError>
        ensures { IsUnlessMemory result (configuration_in text.now) }
    {
        let lines = lines_of(alloc, text)?;
        let mut config = Config::standard();
        let mut number = 1u64;
        for line in lines.as_slice() {
            config = config.with(read_line(alloc, line, number)?);
            number = number.saturating_add(1);
        }
        Ok(config)
    }
}
