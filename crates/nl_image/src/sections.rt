//! The parts of an image, one behind the other.
ghost use Rattle.std.specs.Prelude.{◌≡◌, ℕ, IfErr, IfNone, IfOk, IfSome, length};
ghost use Rattle.nl_types.specs.declared.error.VolError;
ghost use Rattle.nl_image.specs.Conditions.{FirstFails, IsShapeOf};
ghost use Rattle.nl_image.specs.Parts.{image_length};
ghost use Rattle.nl_image.specs.Reading.{BeginsWith, IsSectioned};

use crate::geometry::{Division, division_of};
use nl_check::ImageCondition;
use nl_layout::Superblock;
use nl_types::{BLOCK_SIZE, Geometry, VolError};

/// The bytes of a segment's entry, of a number's, and of a checkpoint's.
const SEGMENT_SIZE: usize = 16;

const NUMBER_SIZE: usize = 24;

const CHECKPOINT_SIZE: usize = 160;

/// The parts of an image behind its superblock.
#[derive(Clone, Copy, Drop)]
pub(crate) struct Sections<'a> {
    pub(crate) image: &'a [u8],
    pub(crate) superblock: Superblock,
    pub(crate) geometry: Geometry,
    pub(crate) segments: &'a [u8],
    pub(crate) numbers: &'a [u8],
    pub(crate) checkpoints: &'a [u8],
    pub(crate) padding: &'a [u8],
    pub(crate) blocks: &'a [u8],
}

/// The parts of an image. Refused by `BadImage` 1 to 3, where the bytes aren't divided as an image, or have
/// another length.
pub(crate) fn sections_of<'a>(image: &'a [u8]) -> Result<Sections<'a>, VolError>
    ensures found { IfOk result IsSectioned }
    ensures image { IfOk result (λ x. x.image.now ≡ image.now) }
    ensures refused { IfErr result (λ e.
        (n : ℕ) × (e ≡ VolError.BadImage n) × FirstFails n image.now) }
{
    let division = division_of(image)?;
    match split(image, division) {
        Some(sections) => Ok(sections),
        None => Err(VolError::BadImage(ImageCondition::Length.number())),
    }
}

/// The parts as the superblock tells them. None where the image has not its length.
fn split<'a>(image: &'a [u8], division: Division) -> Option<Sections<'a>>
    requires begins { BeginsWith image.now division.superblock }
    requires shape { IsShapeOf division.geometry division.superblock }
    ensures found { IfSome result IsSectioned }
    ensures image { IfSome result (λ x. x.image.now ≡ image.now) }
    ensures none { IfNone result (length image.now ≡ image_length division.superblock → ⊥) }
{
    let Division {
        superblock,
        geometry,
    } = division;
    // So the sums below have room.
    if superblock.checkpoints > (image.len() / CHECKPOINT_SIZE) as u64 {
        return None;
    }
    let total = geometry.total() as usize;
    let numbers = BLOCK_SIZE + SEGMENT_SIZE * geometry.segments as usize;
    let checkpoints = numbers + NUMBER_SIZE * total;
    let padding = checkpoints + CHECKPOINT_SIZE * superblock.checkpoints as usize;
    let blocks = padding + (BLOCK_SIZE - padding % BLOCK_SIZE) % BLOCK_SIZE;
    if image.len() != blocks + BLOCK_SIZE * total {
        return None;
    }
    Some(Sections {
        image,
        superblock,
        geometry,
        segments: &image[BLOCK_SIZE..numbers],
        numbers: &image[numbers..checkpoints],
        checkpoints: &image[checkpoints..padding],
        padding: &image[padding..blocks],
        blocks: &image[blocks..],
    })
}
