//! Tables that have a place for each number, where a value may stand.
ghost use Rattle.std.specs.Prelude.{◌≡◌, ◌-◌, ◌++◌, ◌≤◌, length, replicate, IfOk, None, OnErr, OnOk};

use crate::Items;
use std::alloc::{AllocError, Global};

/// So many places, none of which has a value.
pub fn empty_places<T: Drop>(alloc: Global, count: usize) -> Result<Items<Option<T>>, AllocError>
    ensures { IfOk result (λ places. places ≡ replicate count None) }
{
    let mut places = Vec::with_capacity(alloc, count)?;
    for _ in 0..count {
        places.push(None)?;
    }
    Ok(Items::from_vec(places))
}

/// Adds places without a value, up to so many. Refused, those there are stay as they are.
pub fn add_places<T: Drop>(
    places: &mut Items<Option<T>>,
    alloc: Global,
    count: usize,
) -> Result<(), AllocError>
    requires { length places.old ≤ count }
    ensures added { OnOk result
        (places.new ≡ places.old ++ replicate (count - length places.old) None) }
    ensures refused { OnErr result (places.new ≡ places.old) }
{
    let more = empty_places(alloc, count - places.len())?;
    places.append(more.into_vec())
}
