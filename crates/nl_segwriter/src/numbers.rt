//! The numbers of payload blocks.
ghost use Rattle.std.specs.Prelude.{◌≡◌, ◌+◌, ◌*◌, ◌<◌, ◌≤◌, ◌++◌, ◌^◌, IfOk, OnOk};
ghost use Rattle.std.specs.List.{AllByRecursion};
ghost use Rattle.nl_types.specs.Plain.Limits as limits;
ghost use Rattle.nl_types.specs.Blocks.Segments.{total_blocks};
ghost use Rattle.nl_types.specs.Blocks.Placing.{addresses, blocks_from, first_block};

use nl_types::{BlockNumber, Log};
use std::alloc::{AllocError, Global};

// The numbers of one log's payload.
fn push_row(numbers: &mut Vec<BlockNumber>, blocks: u32, log: Log) -> Result<(), AllocError>
    requires { first_block blocks log + 1 + log.count ≤ limits.volume_block_limit }
    ensures { OnOk result (numbers.new.items
        ≡ numbers.old.items ++ blocks_from (first_block blocks log + 1) log.count) }
{
    let first = log.segment.get() * blocks + log.first + 1;
    for k in 0..log.count {
        numbers.push(BlockNumber::new(first + k))?;
    }
    Ok(())
}

/// The numbers of the payload blocks of these logs, in order, in segments of so many blocks. Room is made for
/// as many as the caller knows of.
pub fn numbers_of(
    alloc: Global,
    blocks: u32,
    logs: &[Log],
    known: usize,
) -> Result<Vec<BlockNumber>, AllocError>
    requires { AllByRecursion
        (λ log. first_block blocks log + 1 + log.count ≤ limits.volume_block_limit) logs.now }
    ensures { IfOk result (λ numbers. numbers.items ≡ addresses blocks logs.now) }
{
    let mut numbers = Vec::with_capacity(alloc, known)?;
    for log in logs {
        push_row(&mut numbers, blocks, *log)?;
    }
    Ok(numbers)
}
