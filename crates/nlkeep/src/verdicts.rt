//! What `check` tells, by objects of JSON.
use crate::checking::{Judgement, Told, condition};
use crate::faults::Fault;
use crate::json::{object, path_text};
use crate::printing::Printer;
use crate::sums::kept_in;
use nl_backups::Beside;
use nl_damage::sums::Comparison;
use nl_damage::{Culprit, Finding, Place, path_of};
use serde::Serialize;
use std::alloc::{AllocError, Global};
use std::io::Write;

/// An image.
#[derive(Drop, Serialize)]
struct ImageObject {
    /// Whether all conditions hold, and no segment differs.
    sound: bool,
    checkpoints: u64,
    /// The number of the latest one.
    latest: u64,
    sum: &'static str,
}

/// Where a condition fails, by what is known.
#[derive(Clone, Copy, Drop, Serialize)]
struct PlaceObject {
    #[serde(skip_serializing_if = "Option::is_none")]
    byte: Option<u64>,
    #[serde(skip_serializing_if = "Option::is_none")]
    segment: Option<u64>,
    #[serde(skip_serializing_if = "Option::is_none")]
    block: Option<u64>,
    /// A virtual block number.
    #[serde(skip_serializing_if = "Option::is_none")]
    number: Option<u64>,
    /// The place of an entry in the table of checkpoints.
    #[serde(skip_serializing_if = "Option::is_none")]
    entry: Option<u64>,
    #[serde(skip_serializing_if = "Option::is_none")]
    checkpoint: Option<u64>,
    #[serde(skip_serializing_if = "Option::is_none")]
    inode: Option<u64>,
    /// How many bytes the image has, and how many its parts have.
    #[serde(skip_serializing_if = "Option::is_none")]
    bytes: Option<u64>,
    #[serde(skip_serializing_if = "Option::is_none")]
    due: Option<u64>,
}

const NOWHERE: PlaceObject = PlaceObject {
    byte: None,
    segment: None,
    block: None,
    number: None,
    entry: None,
    checkpoint: None,
    inode: None,
    bytes: None,
    due: None,
};

/// A condition, and what is found of it.
#[derive(Drop, Serialize)]
struct ConditionObject {
    condition: u8,
    finding: &'static str,
    text: &'static str,
    #[serde(flatten)]
    place: PlaceObject,
    /// A path of the inode.
    #[serde(skip_serializing_if = "Option::is_none")]
    path: Option<String>,
}

/// A segment that differs from the sum.
#[derive(Drop, Serialize)]
struct SegmentObject {
    segment: u64,
    /// The first byte, and how many there are.
    #[serde(skip_serializing_if = "Option::is_none")]
    byte: Option<u64>,
    #[serde(skip_serializing_if = "Option::is_none")]
    bytes: Option<u64>,
}

/// What an image is beside its sum, in a word.
fn sum_word(beside: &Beside) -> &'static str {
    match beside {
        Beside::Missing => "missing",
        Beside::Unread => "unread",
        Beside::NoSum => "no sum",
        Beside::Compared(Comparison::Same) => "same",
        Beside::Compared(Comparison::OtherSave) => "another save",
        Beside::Compared(Comparison::Differs(segments)) => {
            if segments.is_empty() {
                "damaged"
            } else {
                "differs"
            }
        }
    }
}

fn inode_in(culprit: &Culprit) -> Option<u64> {
    match culprit {
        Culprit::Inode(number) => Some(number.get()),
        Culprit::Number(_) => None,
    }
}

fn number_in(culprit: &Culprit) -> Option<u64> {
    match culprit {
        Culprit::Inode(_) => None,
        Culprit::Number(number) => Some(number.get()),
    }
}

fn tree_object(checkpoint: u64, culprit: &Option<Culprit>) -> PlaceObject {
    let mut object = NOWHERE;
    object.checkpoint = Some(checkpoint);
    if let Some(culprit) = culprit {
        object.inode = inode_in(culprit);
        object.number = number_in(culprit);
    }
    object
}

fn place_object(place: &Place) -> PlaceObject {
    let mut object = NOWHERE;
    match place {
        Place::Length { bytes, parts } => {
            object.bytes = Some(*bytes);
            object.due = Some(*parts);
        }
        Place::Superblock(byte) | Place::Padding(byte) => object.byte = Some(*byte),
        Place::Segment { byte, segment } => {
            object.byte = Some(*byte);
            object.segment = Some(*segment);
        }
        Place::Number { byte, number } => {
            object.byte = Some(*byte);
            object.number = Some(*number);
        }
        Place::Entry { byte, place } => {
            object.byte = Some(*byte);
            object.entry = Some(*place);
        }
        Place::Block {
            byte,
            segment,
            block,
        } => {
            object.byte = Some(*byte);
            object.segment = Some(*segment);
            object.block = Some(*block);
        }
        Place::Tree {
            checkpoint,
            culprit,
        } => object = tree_object(checkpoint.get(), culprit),
    }
    object
}

fn finding_word(finding: &Finding) -> &'static str {
    match finding {
        Finding::Holds => "holds",
        Finding::NotJudged => "not judged",
        Finding::Fails(_) => "fails",
    }
}

fn finding_place(finding: &Finding) -> PlaceObject {
    match finding {
        Finding::Fails(Some(place)) => place_object(place),
        _ => NOWHERE,
    }
}

/// A path of the inode at which a condition fails.
fn finding_path(
    alloc: Global,
    image: &[u8],
    finding: &Finding,
) -> Result<Option<String>, AllocError> {
    let Finding::Fails(Some(place)) = finding else {
        return Ok(None);
    };
    match path_of(alloc, image, place)? {
        Some(path) => Ok(Some(path_text(alloc, path.as_slice())?)),
        None => Ok(None),
    }
}

fn condition_object(
    alloc: Global,
    image: &[u8],
    judgement: &Judgement,
) -> Result<ConditionObject, AllocError> {
    Ok(ConditionObject {
        condition: judgement.number,
        finding: finding_word(&judgement.finding),
        text: condition(judgement.number),
        place: finding_place(&judgement.finding),
        path: finding_path(alloc, image, &judgement.finding)?,
    })
}

fn segment_object(told: &Told<'_>, segment: u64) -> SegmentObject {
    let place = told.place(segment);
    SegmentObject {
        segment,
        byte: place.map(|(begin, _)| begin),
        bytes: place.map(|(begin, end)| end.saturating_sub(begin)),
    }
}

/// Tells a condition, and what is found of it.
fn tell_condition<W: Write>(
    alloc: Global,
    told: &Told<'_>,
    judgement: &Judgement,
    printer: &mut Printer<W>,
) -> Result<(), Fault> {
    let told = condition_object(alloc, told.image, judgement)?;
    object(alloc, &told, printer)
}

/// Tells the first condition that fails, and the later ones that are told.
fn tell_conditions<W: Write>(
    alloc: Global,
    told: &Told<'_>,
    first: u8,
    printer: &mut Printer<W>,
) -> Result<(), Fault> {
    tell_condition(alloc, told, &told.first(alloc, first)?, printer)?;
    for place in 0..told.later(first) {
        tell_condition(alloc, told, &told.judgement(alloc, first, place)?, printer)?;
    }
    Ok(())
}

/// Tells what is found of an image: an object of all of it, one of each condition that is told, and one of
/// each segment that differs from the sum.
pub fn tell_objects<W: Write>(
    alloc: Global,
    told: &Told<'_>,
    printer: &mut Printer<W>,
) -> Result<(), Fault> {
    let kept = kept_in(told.image);
    let whole = ImageObject {
        sound: told.verdict.is_sound(),
        checkpoints: kept.count,
        latest: kept.latest,
        sum: sum_word(&told.verdict.beside),
    };
    object(alloc, &whole, printer)?;
    if let Some(first) = told.verdict.failing {
        tell_conditions(alloc, told, first, printer)?;
    }
    for segment in told.verdict.beside.differing() {
        object(alloc, &segment_object(told, *segment), printer)?;
    }
    Ok(())
}
