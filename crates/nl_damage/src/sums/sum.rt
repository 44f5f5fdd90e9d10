//! What the sum of an image has.
ghost use Rattle.std.specs.Prelude.{◌≡◌, ◌≤◌, ◌*◌, ◌+◌, IfOk, IfSome, Some, length, map};
ghost use Rattle.std.specs.List.{range_with_len};
ghost use Rattle.nl_damage.specs.ImageSums.{IsImageSum, IsKeptIn, IsSumOf, digest_of, digest_of_segment, tables_of};
ghost use Rattle.nl_damage.specs.declared.sums.sum.Kept as kept;
ghost use Rattle.nl_damage.specs.declared.sums.sum.Sum as sum;

use crate::sections::Sections;
use crate::sums::digests::Digest;
use nl_types::{BLOCK_SIZE, Geometry, Items};
use std::alloc::{AllocError, Global};

/// How many checkpoints an image keeps, and the number of the latest.
#[derive(Clone, Copy)]
pub struct Kept {
    pub count: u64,
    pub latest: u64,
}

impl Kept {
    /// Those that the table of an image tells. The latest one's number is 0 where its entry can't be read.
    pub fn of(sections: &Sections<'_>) -> Kept
        ensures kept { IsKeptIn sections.now result }
        ensures only { (told : kept.Kept) → IsKeptIn sections.now told → told ≡ result }
    {
        Kept {
            count: sections.superblock.checkpoints,
            latest: sections.latest().get(),
        }
    }
}

/// What tells the save of an image from all others. No two have the same tables, as each change of a volume
/// changes these.
#[derive(Clone, Copy)]
pub struct Save {
    /// How many bytes the image has.
    pub bytes: u64,
    /// How many segments.
    pub segments: u64,
    /// How many blocks in each.
    pub blocks: u64,
    /// How many checkpoints it keeps.
    pub checkpoints: u64,
    /// The number of the latest.
    pub latest: u64,
    /// The digest of all that stands in front of the blocks: the superblock and the tables.
    pub tables: Digest,
}

/// The digests of an image.
#[derive(Drop)]
pub struct Sum {
    pub save: Save,
    /// Of all bytes.
    pub whole: Digest,
    /// Of each segment's blocks, used or not.
    pub segments: Items<Digest>,
}

fn digest_of_segment(image: &[u8], front: usize, size: usize, segment: usize) -> Digest
    requires { front + size * (segment + 1) ≤ length image.now }
    ensures { result ≡ digest_of_segment image.now front size segment }
{
    let from = front + size * segment;
    Digest::of(&image[from..from + size])
}

#[tactic(auto, using(crate::proofs::SumLoops::segments_more))]
fn digests_of_segments(
    alloc: Global,
    image: &[u8],
    front: usize,
    size: usize,
    count: usize,
) -> Result<Items<Digest>, AllocError>
    requires { front + size * count ≤ length image.now }
    ensures { IfOk result (λ all. all
        ≡ map (digest_of_segment image.now front size) (range_with_len 0 count)) }
{
    let mut digests = Vec::with_capacity(alloc, count)?;
    for segment in 0..count {
        digests.push(digest_of_segment(image, front, size, segment))?;
    }
    Ok(Items::from_vec(digests))
}

impl Sum {
    /// The sum of an image whose volume is divided so, and which keeps these checkpoints. The blocks are its
    /// last bytes.
    pub fn of(
        alloc: Global,
        image: &[u8],
        geometry: Geometry,
        kept: Kept,
    ) -> Result<Sum, AllocError>
        requires { 1024 * (geometry.segments * geometry.blocks) ≤ length image.now }
        ensures { IfOk result (IsSumOf image.now geometry kept) }
    {
        let size = BLOCK_SIZE * geometry.blocks as usize;
        let count = geometry.segments as usize;
        let front = image.len() - BLOCK_SIZE * geometry.total() as usize;
        let segments = digests_of_segments(alloc, image, front, size, count)?;
        let save = Save {
            bytes: image.len() as u64,
            segments: u64::from(geometry.segments),
            blocks: u64::from(geometry.blocks),
            checkpoints: kept.count,
            latest: kept.latest,
            tables: Digest::of(&image[..front]),
        };
        Ok(Sum {
            save,
            whole: Digest::of(image),
            segments,
        })
    }

    /// The sum of bytes that meet the first three conditions of an image, by what their own tables tell. None of
    /// other bytes.
    ///
    /// # Errors
    /// Memory.
    pub fn of_image(alloc: Global, image: &[u8]) -> Result<Option<Sum>, AllocError>
        ensures found { IfOk result (λ made. IfSome made (IsImageSum image.now)) }
        ensures only { IfOk result (λ made. (it : sum.Sum) → IsImageSum image.now it → made ≡ Some it) }
    {
        match Sections::of_whole(image) {
            Some(sections) => {
                let sum = Sum::of(alloc, image, sections.geometry, Kept::of(&sections))?;
                Ok(Some(sum))
            }
            None => Ok(None),
        }
    }
}
