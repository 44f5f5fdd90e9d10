//! Numbers that are taken out of use, with the segment that their pages stand in.
ghost use Rattle.std.specs.Prelude.{◌≡◌, ℕ, ◌+◌, ◌-◌, ◌<◌, ◌≤◌, ◌^◌, length, slice_set, if◌then◌else◌, MatchOption, IfSome, None};
ghost use Rattle.nl_dat.specs.Table.{entry_in, addresses_of, has_block};
ghost use Rattle.nl_dat.specs.TakenOut.{HaveOwnBlocks, TellsNumber, TellsNumbers, HasNone, HasTakenOne, HasTakenOut, one_more};

use crate::entries::{DatEntry, entry_at, number_in};
use nl_types::{Items, VirtualNumber};
use nl_vstore::Payload;

/// How many numbers were taken out of use, and the least of them.
#[derive(Clone, Copy)]
pub(crate) struct TakenOut {
    pub count: u32,
    pub least: Option<VirtualNumber>,
}

/// Takes a number out of use where its page stands at a block, and tells whether it does.
fn take_out_with(table: &mut Items<Option<DatEntry>>, number: VirtualNumber, block: u32) -> bool
    ensures taken { result ≡ has_block block (entry_in table.old number) }
    ensures table { table.new ≡ if result then slice_set table.old number None else table.old }
{
    match entry_at(table.as_slice(), number) {
        Some(entry) if entry.block.get() == block => {
            table.set(number.get() as usize, None);
            true
        }
        _ => false,
    }
}

/// Takes the number out of use whose page stands at a block, if there is one. The row has the payload of that
/// block at a position, and the payload tells which number may.
fn take_out_at(
    table: &mut Items<Option<DatEntry>>,
    row: &[Option<Payload>],
    position: u32,
    block: u32,
) -> Option<VirtualNumber>
    requires { TellsNumber row.now position (addresses_of (entry_in table.old)) block }
    ensures { MatchOption result (HasNone block table.old table.new) (HasTakenOne block table.old table.new) }
{
    let number = number_in(row, position)?;
    if take_out_with(table, number, block) {
        Some(number)
    } else {
        None
    }
}

impl TakenOut {
    /// One number more.
    fn add(self, number: VirtualNumber) -> TakenOut
        requires { self.count + 1 < 2 ^ 32 }
        ensures { result ≡ one_more self number }
    {
        TakenOut {
            count: self.count + 1,
            least: match self.least {
                Some(least) if least <= number => Some(least),
                _ => Some(number),
            },
        }
    }

    /// Up to which number all are still in use, where all were up to `filled`: the highest that can be told.
    pub fn filled_after(self, filled: u64) -> u64
        ensures most { result ≤ filled }
        ensures below { IfSome self.least (λ least. result ≤ least - 1) }
        ensures no_less { (n : ℕ) → n ≤ filled → IfSome self.least (λ least. n ≤ least - 1) → n ≤ result }
    {
        match self.least {
            Some(least) => filled.min(least.get().saturating_sub(1)),
            None => filled,
        }
    }
}

/// Takes the numbers out of use whose pages stand in a row of blocks, the first of which is given.
pub(crate) fn take_out(
    table: &mut Items<Option<DatEntry>>,
    row: &[Option<Payload>],
    first: u32,
) -> TakenOut
    requires fits { first + length row.now < 2 ^ 32 }
    requires apart { HaveOwnBlocks (addresses_of (entry_in table.old)) }
    requires tagged { TellsNumbers row.now (addresses_of (entry_in table.old)) first }
    ensures { HasTakenOut first (length row.now) table.old table.new result }
{
    let mut taken = TakenOut {
        count: 0,
        least: None,
    };
    for position in 0..row.len() as u32 {
        if let Some(number) = take_out_at(table, row, position, first + position) {
            taken = taken.add(number);
        }
    }
    taken
}
