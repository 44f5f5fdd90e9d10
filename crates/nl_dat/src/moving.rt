//! Pages read from the device, to be written elsewhere.
ghost use Rattle.std.specs.Prelude.{◌≡◌, ◌+◌, ◌<◌, ◌^◌, [], length, All, IfOk, IfErr, IsErrOf, slice_index_or, None, Some};
ghost use Rattle.std.specs.Option.{option_map};
ghost use Rattle.nl_device.specs.Failures.{CountsReads, FailsToRead};
ghost use Rattle.nl_vstore.specs.Content.{payload_tag};
ghost use Rattle.nl_vstore.specs.Appended.{IsLoadError};
ghost use Rattle.nl_vstore.specs.Batches.{birth_of_item};
ghost use Rattle.nl_vstore.specs.Located.{block_if, in_row, onto, picked};
ghost use Rattle.nl_dat.specs.Inside.{AreRead, IsBacked, StandsIn, birth_under};

use crate::entries::{DatEntry, entry_at};
use nl_layout::Tag;
use nl_types::{Segment, VirtualNumber, VolError};
use nl_vstore::{Payload, Space};
use std::alloc::Global;

/// What the summary says of the payload at a position of a row, if there is payload.
pub(crate) fn row_tag(row: &[Option<Payload>], position: u32) -> Option<Tag>
    ensures { result ≡ option_map payload_tag (slice_index_or row.now position None) }
{
    match row.get(position as usize) {
        Some(Some(payload)) => Some(payload.0),
        _ => None,
    }
}

/// The count with one more, where there is payload at the position of a row.
fn counted(row: &[Option<Payload>], position: u32, count: u32) -> u32
    requires { count + 1 < 2 ^ 32 }
    ensures { result ≡ count + length (onto (block_if position (slice_index_or row.now position None)) []) }
{
    match row.get(position as usize) {
        Some(Some(_)) => count + 1,
        _ => count,
    }
}

/// How many places of a row have payload.
pub(crate) fn count_payload(row: &[Option<Payload>]) -> u32
    requires { length row.now < 2 ^ 32 }
    ensures { result ≡ length (picked (in_row row.now) 0 (length row.now)) }
{
    let mut count = 0;
    for position in 0..row.len() as u32 {
        count = counted(row, position, count);
    }
    count
}

/// The payload of a number that stands in a segment, with its page as the device has it.
fn load_one<S: Space>(
    space: &mut S,
    table: &[Option<DatEntry>],
    segment: Segment,
    number: VirtualNumber,
) -> Result<Payload, VolError>
    requires segment { segment < length (S.content space.old).segments.each }
    requires backed { IsBacked table.now (S.content space.old) }
    requires inside { StandsIn table.now (S.content space.old) segment number }
    ensures payload { IfOk result (λ payload.
        birth_under table.now (S.content space.old) number ≡ Some (birth_of_item payload)) }
    ensures same { S.content space.new ≡ S.content space.old }
    ensures counted { CountsReads (S.failed space.old) (S.failed space.new) }
    ensures fault { IsErrOf result VolError.Fault → FailsToRead (S.failed space.old) (S.failed space.new) }
    ensures errors { IfErr result IsLoadError }
{
    let segments = space.table();
    let first = segment.get() * segments.blocks();
    let entry = match entry_at(table, number) {
        Some(entry) => entry,
        None => unreachable!(),
    };
    let position = entry.block.get() - first;
    let tag = match row_tag(space.summary(segment), position) {
        Some(tag) => tag,
        None => unreachable!(),
    };
    let page = space.load(entry.block)?;
    Ok((tag, page))
}

/// The payload of numbers that stand in a segment, in their order, with the pages as the device has them.
pub(crate) fn load_all<S: Space>(
    alloc: Global,
    space: &mut S,
    table: &[Option<DatEntry>],
    segment: Segment,
    numbers: &[VirtualNumber],
) -> Result<Vec<Payload>, VolError>
    requires segment { segment < length (S.content space.old).segments.each }
    requires backed { IsBacked table.now (S.content space.old) }
    requires inside { All (StandsIn table.now (S.content space.old) segment) numbers.now }
    ensures payload { IfOk result
        (λ payload. AreRead table.now (S.content space.old) numbers.now payload.items) }
    ensures same { S.content space.new ≡ S.content space.old }
    ensures counted { CountsReads (S.failed space.old) (S.failed space.new) }
    ensures fault { IsErrOf result VolError.Fault → FailsToRead (S.failed space.old) (S.failed space.new) }
    ensures errors { IfErr result IsLoadError }
{
    let mut payload = Vec::with_capacity(alloc, numbers.len())?;
    for number in numbers {
        payload.push(load_one(space, table, segment, *number)?)?;
    }
    Ok(payload)
}
