//! How the volume of an image is divided.
ghost use Rattle.std.specs.Prelude.{◌≡◌, IfErr, IfOk, IfSome, IsSome};
ghost use Rattle.nl_image.specs.Conditions.{IsDividedBy, IsShapeOf, MeetsFirst};
ghost use Rattle.nl_image.specs.Parts.{Parts};
ghost use Rattle.nl_image.specs.Reading.{BeginsWith, FailsWithin};

use nl_check::ImageCondition;
use nl_layout::Superblock;
use nl_types::{BLOCK_SIZE, Geometry, VolError};

/// A superblock, and how it divides the volume.
#[derive(Clone, Copy)]
pub(crate) struct Division {
    pub(crate) superblock: Superblock,
    pub(crate) geometry: Geometry,
}

/// How the volume of an image is divided, whatever stands behind its superblock. Refused by `BadImage(1)`
/// where the bytes don't begin as an image does, and by `BadImage(2)` where no volume is divided so, no
/// checkpoint is kept, or a byte outside the fields of the superblock isn't zero.
pub fn geometry_of(bytes: &[u8]) -> Result<Geometry, VolError>
    ensures found { IfOk result (λ g.
        (p : Parts) × MeetsFirst 2 bytes.now p × IsShapeOf g p.shape) }
    ensures refused { IfErr result (FailsWithin 2 bytes.now) }
{
    let division = division_of(bytes)?;
    Ok(division.geometry)
}

/// The superblock that bytes begin with. Refused as `geometry_of` is.
pub(crate) fn division_of(bytes: &[u8]) -> Result<Division, VolError>
    ensures begins { IfOk result (λ d. BeginsWith bytes.now d.superblock) }
    ensures shape { IfOk result (λ d. IsShapeOf d.geometry d.superblock) }
    ensures refused { IfErr result (FailsWithin 2 bytes.now) }
{
    if !Superblock::has_mark(bytes) {
        return Err(VolError::BadImage(ImageCondition::Mark.number()));
    }
    match divided(&bytes[..BLOCK_SIZE]) {
        Some(division) => Ok(division),
        None => Err(VolError::BadImage(ImageCondition::Division.number())),
    }
}

/// The superblock that the bytes spell, where they spell one, a volume may be divided so, and a checkpoint is
/// kept.
fn divided(bytes: &[u8]) -> Option<Division>
    ensures found { IfSome result (λ d.
        IsDividedBy bytes.now d.superblock × IsShapeOf d.geometry d.superblock) }
    ensures only { (s : Superblock) → IsDividedBy bytes.now s → IfSome result (λ d. d.superblock ≡ s) }
    ensures some { (s : Superblock) → IsDividedBy bytes.now s → IsSome result }
{
    let superblock = Superblock::read(bytes)?;
    if superblock.checkpoints == 0 {
        return None;
    }
    match Geometry::new(superblock.segments, superblock.blocks) {
        Ok(geometry) => Some(Division {
            superblock,
            geometry,
        }),
        Err(_) => None,
    }
}
