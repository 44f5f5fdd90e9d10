//! The sections of an image, whether they can be read or not.
ghost use Rattle.std.specs.Prelude.{◌≡◌, ◌*◌, ◌+◌, ◌-◌, ◌/◌, ◌<◌, ◌≤◌, ℕ, IfNone, IfSome, List, Some, drop, length, take};
ghost use Rattle.std.specs.Option.{option_map};
ghost use Rattle.nl_types.specs.Plain.Limits.{IsGeometry};
ghost use Rattle.nl_layout.specs.declared.checkpoint_entry.CheckpointEntry as entry;
ghost use Rattle.nl_image.specs.Conditions.{IsShapeOf, MeetsFirst};
ghost use Rattle.nl_image.specs.Parts.{Parts};
ghost use Rattle.nl_damage.specs.Pages.{entry_in};
ghost use Rattle.nl_damage.specs.Sections.{AreImageSections, ArePlaces, AreSections, AreWhole, CountsDivide, HasTooMany, IsEntryAt, IsLatest, item_in, mended_superblock};

use byteorder::{ByteOrder, LittleEndian};
use nl_image::geometry_of;
use nl_layout::{CHECKPOINT_SIZE, CheckpointEntry, Mark, SEGMENT_SIZE, Superblock};
use nl_types::{BLOCK_SIZE, CheckpointNumber, Geometry};

/// How many bytes an image has for each virtual block number.
pub(crate) const NUMBER_SIZE: usize = 24;

/// Where the counts of a superblock end.
const COUNTS_END: usize = 24;

/// More checkpoints have no entries in any list of bytes.
const MOST_CHECKPOINTS: u64 = u64::MAX / 256;

/// The sections of an image behind its superblock. Where the image is cut, those that are missing are empty.
#[derive(Clone, Copy)]
pub struct Sections<'a> {
    pub geometry: Geometry,
    pub superblock: Superblock,
    pub segments: &'a [u8],
    pub numbers: &'a [u8],
    pub checkpoints: &'a [u8],
    pub padding: &'a [u8],
    pub blocks: &'a [u8],
    pub places: Places,
}

/// The first byte of each section, and the one behind the last of all.
#[derive(Clone, Copy)]
pub struct Places {
    pub numbers: usize,
    pub checkpoints: usize,
    pub padding: usize,
    pub blocks: usize,
    pub end: usize,
}

impl Places {
    /// None where no list of bytes is so long.
    fn of(geometry: Geometry, superblock: Superblock) -> Option<Places>
        requires { IsShapeOf geometry superblock }
        ensures found { IfSome result (ArePlaces superblock) }
        ensures few { IfSome result (λ _. HasTooMany superblock → ⊥) }
        ensures none { IfNone result (HasTooMany superblock) }
    {
        // So the sums below have room.
        if superblock.checkpoints > MOST_CHECKPOINTS {
            return None;
        }
        let total = geometry.total() as usize;
        let numbers = BLOCK_SIZE + SEGMENT_SIZE * geometry.segments as usize;
        let checkpoints = numbers + NUMBER_SIZE * total;
        let padding = checkpoints + CHECKPOINT_SIZE * superblock.checkpoints as usize;
        let blocks = padding + (BLOCK_SIZE - padding % BLOCK_SIZE) % BLOCK_SIZE;
        Some(Places {
            numbers,
            checkpoints,
            padding,
            blocks,
            end: blocks + BLOCK_SIZE * total,
        })
    }
}

/// The bytes from one on, where there are any.
fn rest_from(bytes: &[u8], from: usize) -> &[u8]
    ensures { result.now ≡ drop from bytes.now }
{
    match bytes.get(from..) {
        Some(rest) => rest,
        None => &[],
    }
}

/// So many bytes, as far as there are any.
fn first_of(bytes: &[u8], count: usize) -> &[u8]
    ensures { result.now ≡ take count bytes.now }
{
    match bytes.get(..count) {
        Some(first) => first,
        None => bytes,
    }
}

/// The bytes from one place up to another, as far as there are any.
fn between(image: &[u8], from: usize, to: usize) -> &[u8]
    requires { from ≤ to }
    ensures { result.now ≡ take (to - from) (drop from image.now) }
{
    first_of(rest_from(image, from), to - from)
}

/// An item of a list of items of so many bytes each. None where some of its bytes are missing.
fn item_at(items: &[u8], size: usize, place: usize) -> Option<&[u8]>
    requires { 0 < size }
    ensures item { option_map (λ i. i.now) result ≡ item_in items.now size place }
    ensures whole { IfSome result (λ i. length i.now ≡ size) }
{
    if place >= items.len() / size {
        return None;
    }
    let from = size * place;
    Some(&items[from..from + size])
}

/// A superblock by the counts of a damaged one, whatever mark it has and whatever stands behind them.
fn mended(image: &[u8]) -> Option<Superblock>
    ensures found { IfSome result (λ s. s ≡ mended_superblock image.now) }
    ensures none { IfNone result (length image.now < 24) }
{
    if image.len() < COUNTS_END {
        return None;
    }
    Some(Superblock {
        mark: Mark::Second,
        segments: LittleEndian::read_u32(&image[8..]),
        blocks: LittleEndian::read_u32(&image[12..]),
        checkpoints: LittleEndian::read_u64(&image[16..]),
    })
}

/// The superblock of bytes that meet the first two conditions.
fn superblock_of(image: &[u8]) -> Option<Superblock>
    ensures found { IfSome result (λ s.
        (p : Parts) × MeetsFirst 2 image.now p × (p.shape ≡ s)) }
    ensures only { (p : Parts) → MeetsFirst 2 image.now p → result ≡ Some p.shape }
{
    match geometry_of(image) {
        Ok(_) => Superblock::read(first_of(image, BLOCK_SIZE)),
        Err(_) => None,
    }
}

impl<'a> Sections<'a> {
    /// The sections of bytes that meet the first two conditions. None of others.
    pub fn of(image: &'a [u8]) -> Option<Sections<'a>>
        ensures sections { IfSome result (AreSections image.now) }
        ensures meets { IfSome result (λ x.
            (p : Parts) × MeetsFirst 2 image.now p × (p.shape ≡ x.superblock)) }
        ensures only { IfSome result (λ x.
            (p : Parts) → MeetsFirst 2 image.now p → p.shape ≡ x.superblock) }
        ensures few { IfSome result (λ x. HasTooMany x.superblock → ⊥) }
        ensures none { IfNone result ((p : Parts) → MeetsFirst 2 image.now p → HasTooMany p.shape) }
    {
        Sections::divided(image, superblock_of(image)?)
    }

    /// The same of bytes that meet the third one too: an image is as long as its superblock tells.
    pub(crate) fn of_whole(image: &'a [u8]) -> Option<Sections<'a>>
        ensures sections { IfSome result (AreSections image.now) }
        ensures image { IfSome result (AreImageSections image.now) }
        ensures whole { IfSome result AreWhole }
        ensures none { IfNone result ((p : Parts) → MeetsFirst 3 image.now p → HasTooMany p.shape) }
        ensures only { IfSome result (λ x.
            (p : Parts) → MeetsFirst 2 image.now p → p.shape ≡ x.superblock) }
    {
        let sections = Sections::of(image)?;
        if image.len() == sections.places.end {
            Some(sections)
        } else {
            None
        }
    }

    /// The sections by the counts of a superblock that may be damaged elsewhere. None where these divide no
    /// volume, or some of their bytes are missing.
    pub fn mended(image: &'a [u8]) -> Option<Sections<'a>>
        ensures sections { IfSome result (AreSections image.now) }
        ensures counts { IfSome result (λ x. x.superblock ≡ mended_superblock image.now) }
        ensures none { IfNone result (CountsDivide image.now → HasTooMany (mended_superblock image.now)) }
    {
        Sections::divided(image, mended(image)?)
    }

    fn divided(image: &'a [u8], superblock: Superblock) -> Option<Sections<'a>>
        ensures sections { IfSome result (AreSections image.now) }
        ensures superblock { IfSome result (λ x. x.superblock ≡ superblock) }
        ensures few { IfSome result (λ _. HasTooMany superblock → ⊥) }
        ensures none { IfNone result
            (IsGeometry superblock.segments superblock.blocks → HasTooMany superblock) }
    {
        match Geometry::new(superblock.segments, superblock.blocks) {
            Ok(geometry) => Sections::placed(image, geometry, superblock),
            Err(_) => None,
        }
    }

    fn placed(image: &'a [u8], geometry: Geometry, superblock: Superblock) -> Option<Sections<'a>>
        requires { IsShapeOf geometry superblock }
        ensures sections { IfSome result (AreSections image.now) }
        ensures superblock { IfSome result (λ x. x.superblock ≡ superblock) }
        ensures few { IfSome result (λ _. HasTooMany superblock → ⊥) }
        ensures none { IfNone result (HasTooMany superblock) }
    {
        let places = Places::of(geometry, superblock)?;
        Some(Sections {
            geometry,
            superblock,
            segments: between(image, BLOCK_SIZE, places.numbers),
            numbers: between(image, places.numbers, places.checkpoints),
            checkpoints: between(image, places.checkpoints, places.padding),
            padding: between(image, places.padding, places.blocks),
            blocks: between(image, places.blocks, places.end),
            places,
        })
    }

    /// The entry of a checkpoint, by its place in the table. None where it can't be read.
    pub fn checkpoint(self, place: usize) -> Option<CheckpointEntry>
        ensures found { IfSome result (IsEntryAt self.entry place) }
        ensures only { (e : entry.CheckpointEntry) → IsEntryAt self.entry place e → result ≡ Some e }
    {
        CheckpointEntry::read(item_at(self.checkpoints, CHECKPOINT_SIZE, place)?)
    }

    /// The entry of a virtual block number. None where the image has none.
    pub(crate) fn number(self, number: usize) -> Option<&'a [u8]>
        ensures entry { option_map (λ e. e.now) result ≡ entry_in self.entry number }
        ensures whole { IfSome result (λ e. length e.now ≡ 24) }
    {
        if number == 0 {
            return None;
        }
        item_at(self.numbers, NUMBER_SIZE, number - 1)
    }

    /// How many entries of checkpoints there are.
    pub fn entries(self) -> usize
        ensures { result ≡ length self.entry.checkpoints.now / 160 }
    {
        self.checkpoints.len() / CHECKPOINT_SIZE
    }

    /// The number of the latest checkpoint, 0 where its entry can't be read.
    pub fn latest(self) -> CheckpointNumber
        ensures latest { IsLatest self.entry result }
        ensures only { (n : ℕ) → IsLatest self.entry n → n ≡ result }
    {
        match self.checkpoint(self.entries().saturating_sub(1)) {
            Some(entry) => entry.number,
            None => CheckpointNumber::new(0),
        }
    }

    /// The bytes of a block. None where the image lacks some of them.
    pub(crate) fn block(self, number: usize) -> Option<&'a [u8]>
        ensures block { option_map (λ b. b.now) result ≡ item_in self.entry.blocks.now 1024 number }
        ensures whole { IfSome result (λ b. length b.now ≡ 1024) }
    {
        item_at(self.blocks, BLOCK_SIZE, number)
    }
}
