//! The configuration of the cleaner.
ghost use Rattle.std.specs.Prelude.{◌≡◌};
ghost use Rattle.nl_protect.specs.Configuration as configuration;

use crate::amount::Amount;
use crate::setting::Setting;

/// What a configuration sets that has an effect, under the names of nilfs_cleanerd.conf(5).
#[derive(Clone, Copy)]
pub struct Config {
    /// In seconds. A checkpoint that was made less than this ago is protected.
    pub protection_period: u64,
    /// Of the segments. Below so many clean ones the values that begin with `mc_` are used.
    pub min_clean_segments: Amount,
    /// Of the segments. From so many clean ones on, none is cleaned.
    pub max_clean_segments: Amount,
    /// The most segments that a round cleans.
    pub nsegments_per_clean: u64,
    pub mc_nsegments_per_clean: u64,
    /// Of a segment's blocks. The least that are not needed in a segment which is cleaned.
    pub min_reclaimable_blocks: Amount,
    pub mc_min_reclaimable_blocks: Amount,
}

impl Config {
    /// The values of an empty configuration.
    pub fn standard() -> Config
        ensures { result ≡ configuration.standard }
    {
        Config {
            protection_period: 3600,
            min_clean_segments: Amount::Percent(10),
            max_clean_segments: Amount::Percent(20),
            nsegments_per_clean: 2,
            mc_nsegments_per_clean: 4,
            min_reclaimable_blocks: Amount::Percent(10),
            mc_min_reclaimable_blocks: Amount::Percent(1),
        }
    }

    pub(crate) fn with(self, setting: Setting) -> Config
        ensures { result ≡ configuration.with_setting setting self }
    {
        match setting {
            Setting::ProtectionPeriod(protection_period) => Config {
                protection_period,
                ..self
            },
            Setting::MinCleanSegments(min_clean_segments) => Config {
                min_clean_segments,
                ..self
            },
            Setting::MaxCleanSegments(max_clean_segments) => Config {
                max_clean_segments,
                ..self
            },
            Setting::SegmentsPerClean(nsegments_per_clean) => Config {
                nsegments_per_clean,
                ..self
            },
            Setting::UrgentSegmentsPerClean(mc_nsegments_per_clean) => Config {
                mc_nsegments_per_clean,
                ..self
            },
            Setting::MinReclaimableBlocks(min_reclaimable_blocks) => Config {
                min_reclaimable_blocks,
                ..self
            },
            Setting::UrgentMinReclaimableBlocks(mc_min_reclaimable_blocks) => Config {
                mc_min_reclaimable_blocks,
                ..self
            },
            Setting::NoEffect => self,
        }
    }
}
