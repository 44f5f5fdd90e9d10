//! The input of a script.
ghost use Rattle.std.specs.Prelude.{◌≡◌, IfOk, IsOkUnless, [], Some};
ghost use Rattle.std.specs.Io.Buffered.{reader_remaining};
ghost use Rattle.std.specs.Io.Chain.{chain_remaining};

use nl_types::VolError;
use std::alloc::Global;
use std::io::{self, BufReader, Chain, Empty, Read};

/// An input, by a buffer. Behind its end nothing is asked of it again, since a terminal would go on.
///
/// # Errors
/// `Memory`
pub fn buffered<I: Read + Drop>(
    alloc: Global,
    input: I,
) -> Result<BufReader<Chain<I, Empty>>, VolError>
    ensures bytes { IfOk result (λ buffer.
        reader_remaining (chain_remaining I.remaining (λ _. Some [])) buffer ≡ I.remaining input) }
    ensures refused { IsOkUnless result VolError.Memory }
{
    BufReader::new(alloc, input.chain(io::empty())).map_err(|_| VolError::Memory)
}
