//! Which checkpoints of a volume come over into another one.
ghost use Rattle.std.specs.Prelude.{◌≡◌, ◌≤◌, [], IfOk, length};
ghost use Rattle.nl_words.specs.Coming.{are_alike, begin_alike, behind_first, chosen, comes, coming, count_like, is_empty, is_lacking, is_missing, latest_stamp, missing};

use crate::own::is_plain_minor;
use nl_types::Row;
use std::alloc::{AllocError, Global};

/// A kept checkpoint, of which it is known which tree it has.
#[derive(Clone, Copy)]
pub struct Kept {
    pub row: Row,
    /// A number for its tree: of checkpoints of one date those count as alike that have one number here.
    pub tree: u64,
}

// ---- counts

/// Whether neither checkpoint is plain and minor, and both are of one date and tree.
fn are_alike(one: &Kept, other: &Kept) -> bool
    ensures { result ≡ are_alike one.now other.now }
{
    let is_own = !is_plain_minor(&one.row) && !is_plain_minor(&other.row);
    is_own && one.row.stamp == other.row.stamp && one.tree == other.tree
}

/// How many of these are like a checkpoint.
fn count_like(one: &Kept, all: &[Kept]) -> usize
    ensures count { result ≡ count_like one.now all.now }
    ensures most { result ≤ length all.now }
{
    let mut count = 0;
    for other in all {
        if are_alike(one, other) {
            count += 1;
        }
    }
    count
}

/// Whether there are fewer like it among others than among those so far.
fn is_lacking(others: &[Kept], so_far: &[Kept], one: &Kept) -> bool
    ensures { result ≡ is_lacking others.now so_far.now one.now }
{
    count_like(one, others) < count_like(one, so_far)
}

// ---- the first ones

/// Whether a checkpoint has the tree with which a volume begins, the root alone.
fn is_empty(kept: &Kept) -> bool
    ensures { result ≡ is_empty kept.now }
{
    kept.row.inodes <= 1
}

/// Whether both begin with such a tree.
fn begin_alike(rows: &[Kept], others: &[Kept]) -> bool
    ensures { result ≡ begin_alike rows.now others.now }
{
    match (rows, others) {
        ([first, ..], [other, ..]) => is_empty(first) && is_empty(other),
        _ => false,
    }
}

/// Those behind the first one, if that is passed over, else all.
fn behind_first(is_passed: bool, rows: &[Kept]) -> &[Kept]
    ensures { result.now ≡ behind_first is_passed rows.now }
{
    match rows {
        [_, rest @ ..] if is_passed => rest,
        _ => rows,
    }
}

/// The date of the latest checkpoint. 0 where there is none.
pub fn latest_stamp(rows: &[Kept]) -> u64
    ensures { result ≡ latest_stamp 0 rows.now }
{
    let mut latest = 0;
    for kept in rows {
        latest = kept.row.stamp;
    }
    latest
}

// ---- which come over

/// Whether a checkpoint comes over. Those so far have it as their last one.
fn comes(latest: u64, others: &[Kept], so_far: &[Kept], one: &Kept) -> bool
    ensures { result ≡ comes latest others.now so_far.now one.now }
{
    if is_plain_minor(&one.row) || one.row.stamp < latest {
        return false;
    }
    latest < one.row.stamp || is_lacking(others, so_far, one)
}

fn coming_of(
    alloc: Global,
    latest: u64,
    rows: &[Kept],
    others: &[Kept],
) -> Result<Vec<Kept>, AllocError>
    ensures { IfOk result (λ all. all.items
        ≡ chosen (comes latest others.now) [] rows.now) }
{
    let mut all = Vec::new(alloc);
    for place in 0..rows.len() {
        if comes(latest, others, &rows[..place + 1], &rows[place]) {
            all.push(rows[place])?;
        }
    }
    Ok(all)
}

/// The checkpoints that come over into the volume that has the others, the oldest first: each that isn't plain and
/// minor and is later than the latest of the others; and of those of its date as many of each tree as the others
/// lack. Where both volumes begin with the empty tree, the first one of the others stands for the first one,
/// whatever its date.
///
/// # Errors
/// Memory.
pub fn coming(alloc: Global, rows: &[Kept], others: &[Kept]) -> Result<Vec<Kept>, AllocError>
    ensures { IfOk result (λ all. all.items ≡ coming rows.now others.now) }
{
    let is_passed = begin_alike(rows, others);
    let (rest, other_rest) = (
        behind_first(is_passed, rows),
        behind_first(is_passed, others),
    );
    coming_of(alloc, latest_stamp(others), rest, other_rest)
}

// ---- which can't

/// Whether a checkpoint is earlier than the latest of the others, which lack it. Those so far have it as their last
/// one.
fn is_missing(latest: u64, others: &[Kept], so_far: &[Kept], one: &Kept) -> bool
    ensures { result ≡ is_missing latest others.now so_far.now one.now }
{
    if is_plain_minor(&one.row) || latest <= one.row.stamp {
        return false;
    }
    is_lacking(others, so_far, one)
}

fn missing_of(
    alloc: Global,
    latest: u64,
    rows: &[Kept],
    others: &[Kept],
) -> Result<Vec<Kept>, AllocError>
    ensures { IfOk result (λ all. all.items
        ≡ chosen (is_missing latest others.now) [] rows.now) }
{
    let mut all = Vec::new(alloc);
    for place in 0..rows.len() {
        if is_missing(latest, others, &rows[..place + 1], &rows[place]) {
            all.push(rows[place])?;
        }
    }
    Ok(all)
}

/// The checkpoints that neither come over nor are among the others: they are earlier than the latest of these, and
/// dates of a volume never fall.
///
/// # Errors
/// Memory.
pub fn missing(alloc: Global, rows: &[Kept], others: &[Kept]) -> Result<Vec<Kept>, AllocError>
    ensures { IfOk result (λ all. all.items ≡ missing rows.now others.now) }
{
    let is_passed = begin_alike(rows, others);
    let (rest, other_rest) = (
        behind_first(is_passed, rows),
        behind_first(is_passed, others),
    );
    missing_of(alloc, latest_stamp(others), rest, other_rest)
}
