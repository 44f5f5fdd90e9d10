//! `pin`: the next snapshot of an image has the current tree, with the pin of a checkpoint put on or taken off.
ghost use Rattle.std.specs.Prelude.{◌≡◌, IfErr, IfOk, OnErr, option_map, unwrap_or};
ghost use Rattle.nl_keep_pen.specs.Opened.{IsOpenedOf};
ghost use Rattle.nl_backups.specs.Hosts.{Becomes, Holds, Image};
ghost use Rattle.nl_backups.specs.Pinning.{ChangesPin, IsRepinned, IsWanted, changed, is_noted, is_pinned_so};
ghost use Rattle.nl_backups.specs.Readings.{HasRows};
ghost use Rattle.nl_backups.specs.Refusals.{RefusesAt, RefusesChange, RefusesLook, RefusesPinning, RefusesToChange};

use crate::asking::opened_with_rows;
use crate::hosts::{Asker, Listener, Place, save_any};
use crate::reading::{current_tree, pins_in};
use crate::refusals::Refusal;
use crate::storing::{BackedUp, Terms, store_tree};
use nl_folders::Tree;
use nl_keep_pen::OpenedVolume;
use nl_pins::{Pins, with_pins, without_pins};
use nl_types::{CheckpointNumber, Items, Row};
use std::alloc::Global;

/// How a pin is to be changed.
#[derive(Drop)]
pub enum PinChange {
    /// It is put on, with this noted of it, which may be nothing.
    On(Items<u8>),
    /// It is taken off.
    Off,
}

/// The pin of which checkpoint is to be changed, and how.
#[derive(Drop)]
pub struct PinWish {
    pub number: CheckpointNumber,
    pub change: PinChange,
}

/// What the change of a pin came to.
#[derive(Drop)]
pub struct Pinned {
    pub wish: PinWish,
    /// The snapshot that has it, none where the checkpoint was pinned so already.
    pub backed: Option<BackedUp>,
}

// ---- the pins

/// Whether just this text is noted already.
fn is_noted(change: &PinChange, noted: Option<&[u8]>) -> bool
    ensures { result ≡ is_noted change.now (option_map (λ t. t.now) noted.entry) }
{
    match (change, noted) {
        (PinChange::On(text), Some(noted)) => noted.cmp(&text.as_slice()).is_eq(),
        _ => false,
    }
}

fn is_pinned_so(wish: &PinWish, pins: &Pins) -> bool
    ensures { result ≡ is_pinned_so wish.now pins.now.lines }
{
    is_noted(&wish.change, pins.text(wish.number))
}

/// The pins with one of them changed.
fn changed(
    alloc: Global,
    pins: Pins,
    rows: &[Row],
    wish: &PinWish,
    moment: u64,
) -> Result<Pins, Refusal>
    ensures lines { IfOk result (λ changed_pins. changed_pins.lines
        ≡ changed moment wish.now.number wish.now.change rows.now pins.lines) }
    ensures refused { IfErr result (RefusesToChange wish.now pins.lines) }
{
    let number = wish.number;
    match &wish.change {
        PinChange::On(text) => Ok(pins.with(alloc, rows, number, text.as_slice(), moment)?),
        PinChange::Off if pins.text(number).is_some() => Ok(pins.without(alloc, rows, number)?),
        PinChange::Off => Err(Refusal::NotPinned),
    }
}

// ---- the tree

/// The current tree with other pins.
fn repinned(alloc: Global, volume: &OpenedVolume, pins: Pins) -> Result<Tree, Refusal>
    ensures tree { IfOk result (λ tree. (image : Image) → IsOpenedOf image volume.now.volume.pen
        → IsRepinned pins.lines tree image) }
    ensures refused { IfErr result (λ e. (image : Image) → IsOpenedOf image volume.now.volume.pen
        → RefusesLook image e) }
{
    let earlier = current_tree(alloc, volume)?;
    let rest = without_pins(alloc, earlier)?;
    let file = pins.printed(alloc)?;
    Ok(with_pins(alloc, file, rest)?)
}

/// The current tree with the pin changed as is wished, none where it is so already.
fn wanted(
    alloc: Global,
    volume: &OpenedVolume,
    rows: &[Row],
    wish: &PinWish,
    moment: u64,
) -> Result<Option<Tree>, Refusal>
    ensures wanted { IfOk result (λ tree. (image : Image) → IsOpenedOf image volume.now.volume.pen
        → HasRows rows.now image → IsWanted moment wish.now tree image) }
    ensures refused { IfErr result (λ e. (image : Image) → IsOpenedOf image volume.now.volume.pen
        → RefusesChange image e) }
{
    let pins = pins_in(alloc, volume)?;
    if is_pinned_so(wish, &pins) {
        return Ok(None);
    }
    let pins = changed(alloc, pins, rows, wish, moment)?;
    let tree = repinned(alloc, volume, pins)?;
    Ok(Some(tree))
}

// ---- the image

/// Changes a pin in the volume of an image, where it isn't so already. Answers what that came to, and the image
/// that is to stand in the place of this one.
fn repin<L: Asker<PinWish> + Listener<Pinned>>(
    alloc: Global,
    image: &[u8],
    listener: &mut L,
    terms: Terms,
) -> Result<(Pinned, Option<Items<u8>>), Refusal>
    ensures changes { IfOk result (λ done.
        ChangesPin terms.moment done.0 image.now (unwrap_or done.1 image.now)) }
    ensures wished { IfOk result (λ done. Holds (L.wish listener.old) done.0.wish) }
    ensures refused { IfErr result (RefusesPinning terms.moment image.now) }
{
    let (volume, rows, wish) = opened_with_rows(alloc, image, listener)?;
    match wanted(alloc, &volume, rows.as_slice(), &wish, terms.moment)? {
        None => Ok((Pinned { wish, backed: None }, None)),
        Some(tree) => {
            let (backed, next) = store_tree::<Pinned, L>(
                alloc, image, volume, tree, listener, terms,
            )?;
            let backed = Some(backed);
            Ok((Pinned { wish, backed }, Some(Items::from_vec(next))))
        }
    }
}

/// Changes the pin of a checkpoint of an image, as the next snapshot, which has all else as it was. The listener
/// is asked which pin, and how. Where it is so already, nothing is saved. Refused, the image is as it was.
///
/// # Errors
/// `Host` where the host doesn't give the image or take the new one, and where the listener doesn't go on;
/// `BadPins` where the file of pins is none; `NotPinned` where a pin is to be taken off of a checkpoint that has
/// none; `Volume` where the bytes are no image, or the volume refuses the tree: by `NoSpace`, where no effort
/// made room for it.
pub fn pin<P: Place, L: Asker<PinWish> + Listener<Pinned>>(
    alloc: Global,
    place: &mut P,
    listener: &mut L,
    terms: Terms,
) -> Result<Pinned, Refusal>
    ensures done { IfOk result (λ done.
        Becomes (ChangesPin terms.moment done) (P.image place.old) (P.image place.new)) }
    ensures wished { IfOk result (λ done. Holds (L.wish listener.old) done.wish) }
    ensures stays { OnErr result (P.image place.new ≡ P.image place.old) }
    ensures refused { IfErr result (RefusesAt (RefusesPinning terms.moment) (P.image place.old)) }
{
    let image = place.read(alloc)?;
    let (done, next) = repin(alloc, image.as_slice(), listener, terms)?;
    listener.done(&done)?;
    save_any(place, &next)?;
    Ok(done)
}
