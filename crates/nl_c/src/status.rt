//! The numbers by which calls tell what they came to.
ghost use Rattle.std.specs.Prelude.{◌≡◌};
ghost use Rattle.nl_c.specs.Statuses as status;

use nl_types::VolError;

/// The call did what it says.
pub(crate) const DONE: u32 = 0;

/// There is no memory.
pub(crate) const MEMORY: u32 = 18;

/// The handle is closed.
pub(crate) const CLOSED: u32 = 64;

/// A flag or an index is none.
pub(crate) const WRONG_ARGUMENT: u32 = 65;

/// The current tree may differ from the latest checkpoint.
pub(crate) const UNSETTLED: u32 = 66;

/// The number of a refusal, with the condition of an image 256 times above it.
pub(crate) fn error_number(error: VolError) -> u32
    ensures { result ≡ status.error_number error }
{
    match error {
        VolError::BadImage(condition) => 24 + 256 * u32::from(condition),
        other => u32::from(other.number()),
    }
}
