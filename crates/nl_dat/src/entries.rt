//! The table of virtual block numbers, as a slice.
ghost use Rattle.std.specs.Prelude.{◌≡◌, ◌/◌, ◌<◌, ◌≤◌, ◌-◌, ◌++◌, OnErr, OnOk, length, replicate, slice_index_or, MatchOption, IfOk, None};
ghost use Rattle.std.specs.List.{All};
ghost use Rattle.nl_types.specs.Blocks.PartialMaps.{put, put_each, adjust, adjust_all, adjust_each};
ghost use Rattle.nl_types.specs.Blocks.Entries.{number_of};
ghost use Rattle.nl_vstore.specs.Batches.{births_of, number_of_payload};
ghost use Rattle.std.specs.Option.{option_map};
ghost use Rattle.nl_dat.specs.Table.{AreInUse, IsNumberWith, addresses_of, IsFirstFree, entry_in, new_entry, ended_entry, moved_entry};

use nl_types::{BlockNumber, CheckpointNumber, Items, Period, Segment, VirtualNumber};
use nl_vstore::Payload;
use std::alloc::{AllocError, Global};

/// What the table has for a number in use: where its page stands, and its period. As in the DAT of
/// nilfs2.rst.
#[derive(Clone, Copy)]
pub struct DatEntry {
    /// Where the page stands now.
    pub block: BlockNumber,
    /// The first checkpoint that has the page.
    pub start: CheckpointNumber,
    /// The first checkpoint that no longer has it, where there is one.
    pub end: Option<CheckpointNumber>,
}

impl DatEntry {
    ghost use Rattle.nl_dat.specs.Table.{period_of_entry};

    pub fn period(self) -> Period
        ensures { result ≡ period_of_entry self }
    {
        Period {
            start: self.start,
            end: self.end,
        }
    }
}

/// What the table has for a number, where it is in use.
pub(crate) fn entry_at(table: &[Option<DatEntry>], number: VirtualNumber) -> Option<DatEntry>
    ensures { result ≡ entry_in table.now number }
{
    match table.get(number.get() as usize) {
        Some(entry) => *entry,
        None => None,
    }
}

/// Where the page of a number stands, where the number is in use.
pub(crate) fn block_at(table: &[Option<DatEntry>], number: VirtualNumber) -> Option<BlockNumber>
    ensures { result ≡ addresses_of (entry_in table.now) number }
{
    let entry = entry_at(table, number)?;
    Some(entry.block)
}

/// The segment where the page of a number stands, of segments of so many blocks, where the number is in use.
pub(crate) fn segment_at(
    table: &[Option<DatEntry>],
    number: VirtualNumber,
    blocks: u32,
) -> Option<Segment>
    requires { 0 < blocks }
    ensures { result ≡ option_map (λ b. b / blocks) (addresses_of (entry_in table.now) number) }
{
    let block = block_at(table, number)?;
    Some(Segment::new(block.get() / blocks))
}

/// The number of the payload at a position of a row, if there is payload.
pub(crate) fn number_in(row: &[Option<Payload>], position: u32) -> Option<VirtualNumber>
    ensures { result ≡ option_map number_of_payload (slice_index_or row.now position None) }
{
    match row.get(position as usize) {
        Some(Some(payload)) => Some(payload.0.number),
        _ => None,
    }
}

/// The number, where the table has its page at a block.
pub(crate) fn number_with(
    table: &[Option<DatEntry>],
    number: Option<VirtualNumber>,
    block: u32,
) -> Option<VirtualNumber>
    ensures { IsNumberWith (addresses_of (entry_in table.now)) block number result }
{
    let number = number?;
    let entry = entry_at(table, number)?;
    if entry.block.get() == block {
        Some(number)
    } else {
        None
    }
}

/// The first number from one on that is not in use.
pub(crate) fn first_free(table: &[Option<DatEntry>], from: u64) -> Option<VirtualNumber>
    ensures { MatchOption result (AreInUse table.now from (length table.now)) (IsFirstFree table.now from) }
{
    for index in from..table.len() as u64 {
        let number = VirtualNumber::new(index);
        if entry_at(table, number).is_none() {
            return Some(number);
        }
    }
    None
}

fn set_entry(table: &mut Items<Option<DatEntry>>, number: VirtualNumber, entry: DatEntry)
    requires { number < length table.old }
    ensures entries { entry_in table.new ≡ put (entry_in table.old) number entry }
    ensures length { length table.new ≡ length table.old }
{
    table.set(number.get() as usize, Some(entry));
}

fn end_entry(
    table: &mut Items<Option<DatEntry>>,
    number: VirtualNumber,
    checkpoint: CheckpointNumber,
)
    requires { number < length table.old }
    ensures entries { entry_in table.new ≡ adjust (ended_entry checkpoint) (entry_in table.old) number }
    ensures length { length table.new ≡ length table.old }
{
    if let Some(entry) = entry_at(table.as_slice(), number) {
        let end = Some(checkpoint);
        set_entry(table, number, DatEntry { end, ..entry });
    }
}

fn move_entry(table: &mut Items<Option<DatEntry>>, number: VirtualNumber, block: BlockNumber)
    requires { number < length table.old }
    ensures entries { entry_in table.new ≡ adjust (moved_entry block) (entry_in table.old) number }
    ensures length { length table.new ≡ length table.old }
{
    if let Some(entry) = entry_at(table.as_slice(), number) {
        set_entry(table, number, DatEntry { block, ..entry });
    }
}

/// Births have their blocks, and begin at the checkpoint.
pub(crate) fn enter_births(
    table: &mut Items<Option<DatEntry>>,
    births: &[Payload],
    blocks: &[BlockNumber],
    checkpoint: CheckpointNumber,
)
    requires inside { All (λ b. number_of b < length table.old) (births_of births.now) }
    requires each { length births.now ≡ length blocks.now }
    ensures entries { entry_in table.new
        ≡ put_each number_of (new_entry checkpoint) (births_of births.now) blocks.now (entry_in table.old) }
    ensures length { length table.new ≡ length table.old }
{
    for (i, (tag, _)) in births.iter().enumerate() {
        let entry = DatEntry {
            block: blocks[i],
            start: checkpoint,
            end: None,
        };
        set_entry(table, tag.number, entry);
    }
}

/// Numbers end at the checkpoint.
pub(crate) fn end_entries(
    table: &mut Items<Option<DatEntry>>,
    ends: &[VirtualNumber],
    checkpoint: CheckpointNumber,
)
    requires { All (λ v. v < length table.old) ends.now }
    ensures entries { entry_in table.new ≡ adjust_all (ended_entry checkpoint) ends.now (entry_in table.old) }
    ensures length { length table.new ≡ length table.old }
{
    for number in ends {
        end_entry(table, *number, checkpoint);
    }
}

/// Numbers have new blocks.
pub(crate) fn move_entries(
    table: &mut Items<Option<DatEntry>>,
    numbers: &[VirtualNumber],
    blocks: &[BlockNumber],
)
    requires inside { All (λ v. v < length table.old) numbers.now }
    requires each { length numbers.now ≡ length blocks.now }
    ensures entries { entry_in table.new
        ≡ adjust_each moved_entry numbers.now blocks.now (entry_in table.old) }
    ensures length { length table.new ≡ length table.old }
{
    for (i, number) in numbers.iter().enumerate() {
        move_entry(table, *number, blocks[i]);
    }
}
