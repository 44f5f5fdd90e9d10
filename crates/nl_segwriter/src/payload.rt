//! Payload in memory, by block number.
ghost use Rattle.std.specs.Prelude.{◌≡◌, ◌+◌, ◌-◌, ◌++◌, ◌≤◌, length, vec_len, replicate, IfOk, None, OnErr, OnOk};
ghost use Rattle.nl_vstore.specs.Content.{StandInRow, SameOutside, IsEmptied};
ghost use Rattle.nl_segwriter.specs.Writing.{held_in};

use nl_types::{Items, add_places, empty_places};
use nl_vstore::Payload;
use std::alloc::{AllocError, Global};

/// A table of so many blocks without payload.
pub fn no_payload(alloc: Global, total: u32) -> Result<Items<Option<Payload>>, AllocError>
    ensures { IfOk result (λ table. table ≡ replicate total None) }
{
    empty_places(alloc, total as usize)
}

/// Adds blocks without payload, up to so many. Refused, the table stays as it is.
pub fn add_blocks(
    table: &mut Items<Option<Payload>>,
    alloc: Global,
    total: u32,
) -> Result<(), AllocError>
    requires { length table.old ≤ total }
    ensures added { OnOk result (table.new ≡ table.old ++ replicate (total - length table.old) None) }
    ensures refused { OnErr result (table.new ≡ table.old) }
{
    add_places(table, alloc, total as usize)
}

/// Keeps payload in a row, the first at a number.
pub fn hold_row(table: &mut Items<Option<Payload>>, first: usize, payload: Items<Payload>)
    requires { first + length payload ≤ length table.old }
    ensures there { StandInRow first payload (held_in table.new) }
    ensures others { SameOutside first (length payload) (held_in table.old) (held_in table.new) }
    ensures size { length table.new ≡ length table.old }
{
    let mut number = first;
    for item in payload.into_vec() {
        table.set(number, Some(item));
        number += 1;
    }
}

/// Gives the payload in a row up.
pub fn drop_row(table: &mut Items<Option<Payload>>, first: usize, count: usize)
    requires { first + count ≤ length table.old }
    ensures emptied { IsEmptied first count (held_in table.old) (held_in table.new) }
    ensures size { length table.new ≡ length table.old }
{
    let mut number = first;
    for _ in 0..count {
        table.set(number, None);
        number += 1;
    }
}
