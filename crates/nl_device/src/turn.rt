//! When a call of one kind fails.
ghost use Rattle.std.specs.Prelude.{◌≡◌};
ghost use Rattle.nl_device.specs.Turns.{HasTurned, turn_of, turned};

/// When a call of one kind fails: never, after so many further ones of it, or no more, as it has failed.
#[derive(Clone, Copy)]
pub enum Turn {
    Never,
    After(u64),
    Failed,
}

impl Turn {
    /// The call of this number fails, counted from 1; none does for 0.
    pub fn of(number: u64) -> Turn
        ensures { result ≡ turn_of number }
    {
        if number == 0 {
            Turn::Never
        } else {
            Turn::After(number - 1)
        }
    }

    /// Counts a call, and tells whether it is the one that fails.
    pub fn comes(&mut self) -> bool
        ensures { HasTurned self.old result self.new }
    {
        match *self {
            Turn::After(0) => {
                *self = Turn::Failed;
                true
            }
            Turn::After(left) => {
                *self = Turn::After(left - 1);
                false
            }
            Turn::Never | Turn::Failed => false,
        }
    }

    /// How often it has failed: once or never.
    pub fn failures(self) -> u64
        ensures { result ≡ turned self }
    {
        match self {
            Turn::Failed => 1,
            Turn::Never | Turn::After(_) => 0,
        }
    }
}
