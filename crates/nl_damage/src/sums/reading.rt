//! Sums, read from the texts that they are printed as.
ghost use Rattle.std.specs.Prelude.{◌≡◌, All, IfOk, IfSome, Some, length};
ghost use Rattle.std.specs.Option.{option_map};
ghost use Rattle.nl_damage.specs.Private.SumReading.{divided_at, front_at, kept_at, save_at, is_spelled, segments_at, sum_at, sum_in};
ghost use Rattle.nl_damage.specs.SumTexts.{IsDigest, IsPrinted, IsSum};
ghost use Rattle.nl_damage.specs.declared.sums.sum.Sum.{Sum};

use crate::sums::digests::Digest;
use crate::sums::fields::{behind, digest_of, number_of};
use crate::sums::printing::printed;
use crate::sums::sum::{Kept, Save, Sum};
use nl_types::Items;
use std::alloc::{AllocError, Global};

/// How many bytes, segments and blocks in each there are, and the rest.
type Divided<'a> = (u64, u64, u64, &'a [u8]);

#[tactic(auto, unfolding(crate::specs::Private::SumReading::divided_at))]
fn divided_of(bytes: &[u8]) -> Option<Divided<'_>>
    ensures { option_map (λ x. (x.0, (x.1, (x.2, x.3.now)))) result ≡ divided_at bytes.now }
{
    let (count, rest) = number_of(b"bytes ", bytes)?;
    let (segments, rest) = number_of(b"segments ", rest)?;
    let (blocks, rest) = number_of(b"blocks ", rest)?;
    Some((count, segments, blocks, rest))
}

#[tactic(auto, unfolding(crate::specs::Private::SumReading::kept_at))]
fn kept_of(bytes: &[u8]) -> Option<(Kept, &[u8])>
    ensures { option_map (λ x. (x.0, x.1.now)) result ≡ kept_at bytes.now }
{
    let (count, rest) = number_of(b"checkpoints ", bytes)?;
    let (latest, rest) = number_of(b"latest ", rest)?;
    Some((Kept { count, latest }, rest))
}

#[tactic(auto, unfolding(crate::specs::Private::SumReading::save_at))]
fn save_of(bytes: &[u8]) -> Option<(Save, &[u8])>
    ensures { option_map (λ x. (x.0, x.1.now)) result ≡ save_at bytes.now }
{
    let (count, segments, blocks, rest) = divided_of(bytes)?;
    let (kept, rest) = kept_of(rest)?;
    let (tables, rest) = digest_of(b"tables ", rest)?;
    let save = Save {
        bytes: count,
        segments,
        blocks,
        checkpoints: kept.count,
        latest: kept.latest,
        tables,
    };
    Some((save, rest))
}

/// The digests of so many lines. None where one of them isn't there.
fn segments_of(alloc: Global, count: u64, bytes: &[u8]) -> Result<Option<Items<Digest>>, AllocError>
    ensures read { IfOk result (λ read. read ≡ segments_at count bytes.now) }
    ensures each { IfOk result (λ read. IfSome read (All IsDigest)) }
    ensures count { IfOk result (λ read. IfSome read (λ all. length all ≡ count)) }
{
    let mut digests = Items::new(alloc);
    let mut left = bytes;
    for _ in 0..count {
        let Some((digest, rest)) = digest_of(b"segment ", left) else {
            return Ok(None);
        };
        digests.push(digest)?;
        left = rest;
    }
    Ok(Some(digests))
}

/// What stands in front of the segments' lines, and the rest.
type Front<'a> = (Save, Digest, &'a [u8]);

#[tactic(auto, unfolding(crate::specs::Private::SumReading::front_at))]
fn front_of(bytes: &[u8]) -> Option<Front<'_>>
    ensures { option_map (λ x. (x.0, (x.1, x.2.now))) result ≡ front_at bytes.now }
{
    let rest = behind(b"nlkeep sum 1\n", bytes)?;
    let (save, rest) = save_of(rest)?;
    let (whole, rest) = digest_of(b"image ", rest)?;
    Some((save, whole, rest))
}

/// A sum by the fields that stand in the bytes. Others may have the same fields.
#[tactic(auto, unfolding(crate::specs::Private::SumReading::sum_at))]
fn fields_of(alloc: Global, bytes: &[u8]) -> Result<Option<Sum>, AllocError>
    ensures read { IfOk result (λ read. read ≡ sum_at bytes.now) }
    ensures sums { IfOk result (λ read. IfSome read IsSum) }
{
    let Some((save, whole, rest)) = front_of(bytes) else {
        return Ok(None);
    };
    let Some(segments) = segments_of(alloc, save.segments, rest)? else {
        return Ok(None);
    };
    Ok(Some(Sum {
        save,
        whole,
        segments,
    }))
}

fn is_spelled(alloc: Global, sum: &Sum, bytes: &[u8]) -> Result<bool, AllocError>
    ensures { IfOk result (λ is. is ≡ is_spelled sum.now bytes.now) }
{
    let text = printed(alloc, sum)?;
    Ok(text.as_slice() == bytes)
}

#[tactic(auto, unfolding(crate::specs::Private::SumReading::sum_in))]
fn sum_in(alloc: Global, bytes: &[u8]) -> Result<Option<Sum>, AllocError>
    ensures read { IfOk result (λ read. read ≡ sum_in bytes.now) }
    ensures sums { IfOk result (λ read. IfSome read IsSum) }
{
    let Some(sum) = fields_of(alloc, bytes)? else {
        return Ok(None);
    };
    if is_spelled(alloc, &sum, bytes)? {
        Ok(Some(sum))
    } else {
        Ok(None)
    }
}

/// The sum that is printed as these bytes. None where there is none.
///
/// # Errors
/// Memory.
pub fn read_sum(alloc: Global, bytes: &[u8]) -> Result<Option<Sum>, AllocError>
    ensures found { IfOk result (λ read. IfSome read (λ sum. IsPrinted sum bytes.now)) }
    ensures only { IfOk result (λ read. (sum : Sum) → IsPrinted sum bytes.now → read ≡ Some sum) }
{
    sum_in(alloc, bytes)
}
