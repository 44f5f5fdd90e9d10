//! What differs between an image and its sum.
ghost use Rattle.std.specs.Prelude.{◌≡◌, ◌↔◌, [], ◌∷◌, ◌++◌, if◌then◌else◌, IfOk, OnOk};
ghost use Rattle.nl_damage.specs.SumComparing.{IsBeside, IsBesideText, NoneDiffer, NoneDifferFrom, comparison_of, differing, differing_in, differing_told, differs_at, digits_at, is_one_save, is_same_digest};

use crate::sums::digests::Digest;
use crate::sums::reading::read_sum;
use crate::sums::sum::{Save, Sum};
use nl_types::Items;
use std::alloc::{AllocError, Global};

/// What an image is beside a sum that was saved with one.
#[derive(Drop)]
pub enum Comparison {
    /// It is the image that was saved.
    Same,
    /// The sum is of another save: its tables differ.
    OtherSave,
    /// It is of this save, and these segments have other bytes, ascending. Where none has, the sum itself is
    /// damaged.
    Differs(Items<u64>),
}

impl Comparison {
    /// The segments that have other bytes, ascending.
    pub fn differing(&self) -> &[u64]
        ensures { result.now ≡ differing_in self.now }
    {
        match self {
            Comparison::Differs(segments) => segments.as_slice(),
            Comparison::Same | Comparison::OtherSave => &[],
        }
    }
}

fn is_same_digest(one: &Digest, other: &Digest) -> bool
    ensures { result ≡ is_same_digest one.now other.now }
{
    one.digits.as_slice() == other.digits.as_slice()
}

/// Whether both are of one save.
#[tactic(auto, unfolding(crate::specs::SumComparing::is_one_save))]
fn is_one_save(one: &Save, other: &Save) -> bool
    ensures { result ≡ is_one_save one.now other.now }
{
    let is_divided_alike = one.bytes == other.bytes
        && one.segments == other.segments
        && one.blocks == other.blocks;
    let has_same_numbers = one.checkpoints == other.checkpoints && one.latest == other.latest;
    is_divided_alike && has_same_numbers && is_same_digest(&one.tables, &other.tables)
}

fn digits_at(digests: &[Digest], place: usize) -> &[u8]
    ensures { result.now ≡ digits_at digests.now place }
{
    match digests.get(place) {
        Some(digest) => digest.digits.as_slice(),
        None => &[],
    }
}

fn differs_at(one: &[Digest], other: &[Digest], place: usize) -> bool
    ensures { result ≡ differs_at one.now other.now place }
{
    digits_at(one, place) != digits_at(other, place)
}

/// Puts a place at the end, where digests differ there.
fn push_if_differs(
    one: &[Digest],
    other: &[Digest],
    place: usize,
    places: &mut Items<u64>,
) -> Result<(), AllocError>
    ensures { OnOk result (places.new
        ≡ places.old ++ (if differs_at one.now other.now place then place ∷ [] else [])) }
{
    if differs_at(one, other, place) {
        places.push(place as u64)?;
    }
    Ok(())
}

/// The places at which digests differ, ascending.
#[tactic(auto, using(crate::proofs::SumLoops::differing_more))]
fn differing(alloc: Global, one: &[Digest], other: &[Digest]) -> Result<Items<u64>, AllocError>
    ensures { IfOk result (λ places. places ≡ differing one.now other.now) }
{
    let mut places = Items::new(alloc);
    for place in 0..one.len() {
        push_if_differs(one, other, place, &mut places)?;
    }
    Ok(places)
}

/// What an image whose sum is `present` is beside a sum that was saved.
fn compare(alloc: Global, saved: &Sum, present: &Sum) -> Result<Comparison, AllocError>
    ensures { IfOk result (λ comparison. comparison ≡ comparison_of saved.now present.now) }
{
    if !is_one_save(&saved.save, &present.save) {
        return Ok(Comparison::OtherSave);
    }
    if is_same_digest(&saved.whole, &present.whole) {
        return Ok(Comparison::Same);
    }
    let places = differing(
        alloc,
        saved.segments.as_slice(),
        present.segments.as_slice(),
    )?;
    Ok(Comparison::Differs(places))
}

/// What an image is beside a saved sum. Bytes that have no sum are of another save.
fn compare_image(alloc: Global, saved: &Sum, image: &[u8]) -> Result<Comparison, AllocError>
    ensures beside { IfOk result (IsBeside image.now saved.now) }
    ensures exact { IfOk result (λ comparison.
        (differing_in comparison ≡ []) ↔ NoneDiffer image.now saved.now) }
{
    match Sum::of_image(alloc, image)? {
        Some(present) => compare(alloc, saved, &present),
        None => Ok(Comparison::OtherSave),
    }
}

/// What an image is beside the sum that is printed as this text. None where no sum is.
///
/// # Errors
/// Memory.
pub fn compare_text(
    alloc: Global,
    image: &[u8],
    text: &[u8],
) -> Result<Option<Comparison>, AllocError>
    ensures beside { IfOk result (IsBesideText image.now text.now) }
    ensures exact { IfOk result (λ told.
        (differing_told told ≡ []) ↔ NoneDifferFrom image.now text.now) }
{
    match read_sum(alloc, text)? {
        Some(saved) => {
            let comparison = compare_image(alloc, &saved, image)?;
            Ok(Some(comparison))
        }
        None => Ok(None),
    }
}
