//! The needed numbers of a segment, block by block.
ghost use Rattle.std.specs.Prelude.{◌≡◌, ◌+◌, ◌<◌, ◌≤◌, ◌^◌, ◌++◌, if◌then◌else◌, nat_lt, length, take, [], IfOk};
ghost use Rattle.nl_types.specs.Blocks.Entries.{is_needed};
ghost use Rattle.nl_vstore.specs.Located.{needed_at, needed_in, needed_count, onto};
ghost use Rattle.nl_vstore.specs.Stores.{block_in};

use crate::keeping::{Keeping, is_number_needed};
use nl_types::{Segment, VirtualNumber};
use nl_vstore::Vstore;
use std::alloc::{AllocError, Global};

/// The needed number whose page stands at a position of a segment.
fn needed_number<V: Vstore, K: Keeping>(
    store: &V,
    keeping: &K,
    segment: Segment,
    position: u32,
) -> Option<VirtualNumber>
    requires segment { segment < length (V.store store.now).segments.each }
    requires position { position < (V.store store.now).segments.blocks }
    ensures { result ≡ needed_at (V.store store.now) (is_needed (K.kept keeping.now))
        (block_in (V.store store.now) segment position) }
{
    let number = store.at(segment, position)?;
    if is_number_needed(store, keeping, number) {
        Some(number)
    } else {
        None
    }
}

/// The count with one more where there is a number.
fn counted(found: Option<VirtualNumber>, count: u32) -> u32
    requires { count + 1 < 2 ^ 32 }
    ensures { result ≡ count + length (onto found []) }
{
    match found {
        Some(_) => count + 1,
        None => count,
    }
}

/// How many needed numbers have their pages in a segment. It looks at each block of the segment, and takes no
/// memory.
pub fn count_needed<V: Vstore, K: Keeping>(store: &V, keeping: &K, segment: Segment) -> u32
    requires { segment < length (V.store store.now).segments.each }
    ensures { result ≡ needed_count (V.store store.now) (is_needed (K.kept keeping.now)) segment }
{
    let mut count = 0;
    for position in 0..store.table().blocks() {
        count = counted(needed_number(store, keeping, segment, position), count);
    }
    count
}

/// The first needed numbers of a segment by block, up to a limit, and how many there are without it.
#[derive(Drop)]
pub struct Needed {
    pub first: Vec<VirtualNumber>,
    pub count: u32,
    ghost few: { length first.items ≤ count },
}

/// Puts a number behind the first ones, where there are fewer than the limit, and counts it.
fn noted(
    first: &mut Vec<VirtualNumber>,
    found: Option<VirtualNumber>,
    count: u32,
    limit: u32,
) -> Result<u32, AllocError>
    requires { count + 1 < 2 ^ 32 }
    ensures first { IfOk result (λ _. first.new.items
        ≡ if nat_lt count limit then first.old.items ++ onto found [] else first.old.items) }
    ensures count { IfOk result (λ c. c ≡ count + length (onto found [])) }
{
    let Some(number) = found else {
        return Ok(count);
    };
    if count < limit {
        first.push(number)?;
    }
    Ok(count + 1)
}

/// The first needed numbers of a segment, up to a limit, and how many there are. It looks at each block of
/// the segment.
pub fn first_needed<V: Vstore, K: Keeping>(
    alloc: Global,
    store: &V,
    keeping: &K,
    segment: Segment,
    limit: u32,
) -> Result<Needed, AllocError>
    requires { segment < length (V.store store.now).segments.each }
    ensures first { IfOk result (λ n. n.first.items
        ≡ take limit (needed_in (V.store store.now) (is_needed (K.kept keeping.now)) segment)) }
    ensures count { IfOk result (λ n. n.count
        ≡ needed_count (V.store store.now) (is_needed (K.kept keeping.now)) segment) }
{
    let mut first = Vec::new(alloc);
    let mut count = 0;
    for position in 0..store.table().blocks() {
        let found = needed_number(store, keeping, segment, position);
        count = noted(&mut first, found, count, limit)?;
    }
    Ok(Needed { first, count })
}
