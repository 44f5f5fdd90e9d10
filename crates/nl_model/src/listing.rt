//! Listings of kept checkpoints.
ghost use Rattle.std.specs.Prelude.{◌≡◌, IfOk};
ghost use Rattle.std.specs.List.{filter};
ghost use Rattle.nl_types.specs.Plain.Rows.{is_shown, in_direction, listing};

use nl_types::{Items, ListOptions, Row};
use std::alloc::{AllocError, Global};

/// The rows in the order of a listing.
fn in_direction(reversed: bool, rows: Items<Row>) -> Vec<Row>
    ensures { result.items ≡ in_direction reversed rows }
{
    let mut ordered = rows.into_vec();
    if reversed {
        ordered.reverse();
    }
    ordered
}

/// The rows that a listing shows, if it comes so far.
fn shown(alloc: Global, rows: &[Row], options: &ListOptions) -> Result<Vec<Row>, AllocError>
    ensures { IfOk result (λ shown. shown.items ≡ filter (is_shown options.now) rows.now) }
{
    rows.iter()
        .copied()
        .filter(|row| options.shows(row))
        .collect(alloc)
}

/// What a listing shows, in its order.
pub fn listing(
    alloc: Global,
    rows: Items<Row>,
    options: &ListOptions,
) -> Result<Items<Row>, AllocError>
    ensures { IfOk result (λ listed. listed ≡ listing options.now rows) }
{
    let ordered = in_direction(options.reverse, rows);
    let mut listed = shown(alloc, ordered.as_slice(), options)?;
    if let Some(count) = options.count {
        if count < listed.len() as u64 {
            listed.truncate(count as usize);
        }
    }
    Ok(Items::from_vec(listed))
}
