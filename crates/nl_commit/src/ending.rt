//! What ends a round of cleaning.
ghost use Rattle.std.specs.Prelude.{◌≡◌};
ghost use Rattle.nl_commit.specs.Rounds.{ends_round};

use nl_types::VolError;

/// Whether a round goes no further behind such a refusal of a move or a retirement: the next segment would
/// meet it too.
pub fn ends_round(refusal: VolError) -> bool
    ensures { result ≡ ends_round refusal }
{
    match refusal {
        VolError::NumbersSpent | VolError::NoSpace | VolError::Fault | VolError::Memory => true,
        _ => false,
    }
}
