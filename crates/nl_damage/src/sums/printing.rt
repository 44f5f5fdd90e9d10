//! The text of a sum.
ghost use Rattle.std.specs.Prelude.{◌≡◌, ◌++◌, OnOk, IfOk};
ghost use Rattle.std.specs.List.{flat_map};
ghost use Rattle.nl_damage.specs.SumTexts.{digest_text, number_text, save_text, segment_text, sum_text};

use crate::sums::digests::Digest;
use crate::sums::sum::{Save, Sum};
use nl_types::{Items, put_decimal};
use std::alloc::{AllocError, Global};

/// Puts a line of a number at the end.
#[tactic(auto, unfolding(crate::specs::SumTexts::number_text))]
fn put_number(alloc: Global, out: &mut Vec<u8>, label: &[u8], number: u64) -> Result<(), AllocError>
    ensures { OnOk result (out.new.items ≡ out.old.items ++ number_text label.now number) }
{
    out.extend_from_slice(label)?;
    put_decimal(alloc, out, number)?;
    out.push(b'\n')?;
    Ok(())
}

/// Puts a line of a digest at the end.
#[tactic(auto, unfolding(crate::specs::SumTexts::digest_text))]
fn put_digest(out: &mut Vec<u8>, label: &[u8], digest: &Digest) -> Result<(), AllocError>
    ensures { OnOk result (out.new.items ≡ out.old.items ++ digest_text label.now digest.now) }
{
    out.extend_from_slice(label)?;
    out.extend_from_slice(digest.digits.as_slice())?;
    out.push(b'\n')?;
    Ok(())
}

#[tactic(auto, unfolding(crate::specs::SumTexts::save_text))]
fn put_save(alloc: Global, out: &mut Vec<u8>, save: &Save) -> Result<(), AllocError>
    ensures { OnOk result (out.new.items ≡ out.old.items ++ save_text save.now) }
{
    put_number(alloc, out, b"bytes ", save.bytes)?;
    put_number(alloc, out, b"segments ", save.segments)?;
    put_number(alloc, out, b"blocks ", save.blocks)?;
    put_number(alloc, out, b"checkpoints ", save.checkpoints)?;
    put_number(alloc, out, b"latest ", save.latest)?;
    put_digest(out, b"tables ", &save.tables)
}

fn put_segments(out: &mut Vec<u8>, digests: &[Digest]) -> Result<(), AllocError>
    ensures { OnOk result (out.new.items ≡ out.old.items ++ flat_map segment_text digests.now) }
{
    for digest in digests {
        put_digest(out, b"segment ", digest)?;
    }
    Ok(())
}

/// The text of a sum: a line that says what it is, a line of each number and digest, and one of each segment.
#[tactic(auto, unfolding(crate::specs::SumTexts::sum_text))]
pub fn printed(alloc: Global, sum: &Sum) -> Result<Items<u8>, AllocError>
    ensures { IfOk result (λ text. text ≡ sum_text sum.now) }
{
    let mut out = Vec::new(alloc);
    out.extend_from_slice(b"nlkeep sum 1\n")?;
    put_save(alloc, &mut out, &sum.save)?;
    put_digest(&mut out, b"image ", &sum.whole)?;
    put_segments(&mut out, sum.segments.as_slice())?;
    Ok(Items::from_vec(out))
}
