//! A configuration of cleaning is read. No volume is asked.
ghost use Rattle.std.specs.Prelude.{◌≡◌};
ghost use Rattle.nl_c.specs.Configurations.{IsConfigTold, amount_told, config_told};

use crate::status::{DONE, error_number};
use nl_protect::{Amount, Config};
use nl_types::VolError;
use std::alloc::Global;

/// So many segments or blocks; or where `is_percent` is 1, so many hundredths of them.
#[repr(C)]
#[derive(Clone, Copy)]
pub struct AmountTold {
    pub number: u64,
    pub is_percent: u64,
}

/// What a configuration sets, under the names of nilfs_cleanerd.conf(5).
#[repr(C)]
#[derive(Clone, Copy)]
pub struct ConfigTold {
    /// In seconds.
    pub protection_period: u64,
    pub min_clean_segments: AmountTold,
    pub max_clean_segments: AmountTold,
    pub nsegments_per_clean: u64,
    pub mc_nsegments_per_clean: u64,
    pub min_reclaimable_blocks: AmountTold,
    pub mc_min_reclaimable_blocks: AmountTold,
}

fn amount_told(amount: Amount) -> AmountTold
    ensures { result ≡ amount_told amount }
{
    match amount {
        Amount::Count(number) => AmountTold {
            number,
            is_percent: 0,
        },
        Amount::Percent(number) => AmountTold {
            number: u64::from(number),
            is_percent: 1,
        },
    }
}

fn config_told(config: Config) -> ConfigTold
    ensures { result ≡ config_told config }
{
    ConfigTold {
        protection_period: config.protection_period,
        min_clean_segments: amount_told(config.min_clean_segments),
        max_clean_segments: amount_told(config.max_clean_segments),
        nsegments_per_clean: config.nsegments_per_clean,
        mc_nsegments_per_clean: config.mc_nsegments_per_clean,
        min_reclaimable_blocks: amount_told(config.min_reclaimable_blocks),
        mc_min_reclaimable_blocks: amount_told(config.mc_min_reclaimable_blocks),
    }
}

/// Reads a configuration, in the language of nilfs_cleanerd.conf(5). `line` gets 0, or the number of the
/// first line that can't be read, from 1.
///
/// Refused by 27 where there is such a line, and by 18, which leaves `line` as it was.
#[unsafe(no_mangle)]
pub extern "C" fn nlvol_config(
    alloc: Global,
    text: &[u8],
    config: &mut ConfigTold,
    line: &mut u64,
) -> u32
    ensures { IsConfigTold text.now config.old line.old result config.new line.new }
{
    match Config::parse(alloc, text) {
        Ok(found) => {
            *config = config_told(found);
            *line = 0;
            DONE
        }
        Err(error) => {
            if let VolError::BadConfig(number) = error {
                *line = number;
            }
            error_number(error)
        }
    }
}
