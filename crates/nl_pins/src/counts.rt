//! How many more periods rules have.
ghost use Rattle.std.specs.Prelude.{◌≡◌, None};
ghost use Rattle.nl_pins.specs.Counts.{HasCounted, counted, counts_of, is_kept};

use crate::rules::{Dated, Rules};

/// A rule on periods, amid checkpoints that are looked at from the newest on.
#[derive(Clone, Copy)]
pub(crate) struct Count {
    /// How many more of them it has.
    pub(crate) left: u64,
    /// That of the last checkpoint which it kept.
    pub(crate) last: Option<u64>,
}

impl Count {
    fn new(left: u64) -> Self
        ensures { result ≡ record { left = left; last = None } }
    {
        Count { left, last: None }
    }

    /// Whether it keeps the next checkpoint, which was made in this period.
    fn keeps(&mut self, period: u64) -> bool
        ensures kept { result ≡ is_kept self.old period }
        ensures counted { self.new ≡ counted self.old period }
    {
        if self.left == 0 || self.last == Some(period) {
            return false;
        }
        self.left -= 1;
        self.last = Some(period);
        true
    }
}

/// All rules on periods.
#[derive(Clone, Copy)]
pub(crate) struct Counts {
    pub(crate) hourly: Count,
    pub(crate) daily: Count,
    pub(crate) weekly: Count,
    pub(crate) monthly: Count,
    pub(crate) yearly: Count,
}

impl Counts {
    pub(crate) fn new(rules: &Rules) -> Self
        ensures { result ≡ counts_of rules.now }
    {
        Counts {
            hourly: Count::new(rules.hourly),
            daily: Count::new(rules.daily),
            weekly: Count::new(rules.weekly),
            monthly: Count::new(rules.monthly),
            yearly: Count::new(rules.yearly),
        }
    }

    /// Whether one of them keeps the next checkpoint.
    pub(crate) fn keep(&mut self, dated: &Dated) -> bool
        ensures { HasCounted self.old dated.now result self.new }
    {
        let periods = &dated.periods;
        let hourly = self.hourly.keeps(periods.hour);
        let daily = self.daily.keeps(periods.day);
        let weekly = self.weekly.keeps(periods.week);
        let monthly = self.monthly.keeps(periods.month);
        let yearly = self.yearly.keeps(periods.year);
        hourly || daily || weekly || monthly || yearly
    }
}
