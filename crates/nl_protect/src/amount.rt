//! Amounts of segments or blocks.
ghost use Rattle.std.specs.Prelude.{◌≡◌};
ghost use Rattle.nl_protect.specs.Configuration.{amount_of};

/// A number of segments or of blocks, or a share of them.
#[derive(Clone, Copy)]
pub enum Amount {
    Count(u64),
    /// In hundredths, 0 to 100 where it is read from a configuration.
    Percent(u8),
}

impl Amount {
    /// How many that are of so many. A share is rounded down.
    pub fn of(self, whole: u32) -> u64
        ensures { result ≡ amount_of self whole }
    {
        match self {
            Amount::Count(count) => count,
            Amount::Percent(percent) => u64::from(percent) * u64::from(whole) / 100,
        }
    }
}
