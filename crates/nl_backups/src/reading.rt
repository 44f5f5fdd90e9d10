//! What is read of a volume that was opened of an image: what its checkpoints show, its current tree, and what is
//! pinned.
ghost use Rattle.std.specs.Prelude.{◌≡◌, IfErr, IfOk, option_map};
ghost use Rattle.nl_keep_pen.specs.Images.{HasCurrent};
ghost use Rattle.nl_keep_pen.specs.Opened.{IsOpenedOf};
ghost use Rattle.nl_shown.specs.Reverted.{IsInOrder};
ghost use Rattle.nl_backups.specs.Commands.{ShowsFromImage};
ghost use Rattle.nl_backups.specs.Hosts.{Image};
ghost use Rattle.nl_backups.specs.Readings.{HasLines, lines_in};
ghost use Rattle.nl_backups.specs.Refusals.{RefusesLook, RefusesPins};
ghost use Rattle.nl_backups.specs.Reverting.{ShowsNow};

use crate::refusals::Refusal;
use nl_folders::Tree;
use nl_keep_pen::OpenedVolume;
use nl_manifests::Opened;
use nl_pins::Pins;
use nl_shown::shown_tree;
use nl_types::{CheckpointNumber, Items};
use std::alloc::{AllocError, Global};

/// The current tree.
pub(crate) fn current_tree(alloc: Global, volume: &OpenedVolume) -> Result<Tree, Refusal>
    ensures tree { IfOk result (λ tree. (image : Image) → IsOpenedOf image volume.now.volume.pen
        → HasCurrent tree image) }
    ensures refused { IfErr result (λ e. (image : Image) → IsOpenedOf image volume.now.volume.pen
        → RefusesLook image e) }
{
    nl_core::laws::pens_of_one_image_mean_one_world();
    let latest = volume.volume().pen.latest();
    let tree = volume.tree(alloc, latest)?;
    Ok(tree)
}

/// What a checkpoint shows.
pub(crate) fn shown_by(
    alloc: Global,
    volume: &OpenedVolume,
    number: CheckpointNumber,
) -> Result<Opened, Refusal>
    ensures shows { IfOk result (λ opened. (image : Image) → IsOpenedOf image volume.now.volume.pen
        → ShowsFromImage number opened.tree image) }
    ensures ordered { IfOk result (λ opened. (image : Image) → IsOpenedOf image volume.now.volume.pen
        → IsInOrder opened.tree) }
    ensures refused { IfErr result (λ e. (image : Image) → IsOpenedOf image volume.now.volume.pen
        → RefusesLook image e) }
{
    let tree = volume.tree(alloc, number)?;
    let opened = shown_tree(alloc, tree)?;
    Ok(opened)
}

/// What the current tree shows.
pub(crate) fn shown_now(alloc: Global, volume: &OpenedVolume) -> Result<Opened, Refusal>
    ensures shows { IfOk result (λ opened. (image : Image) → IsOpenedOf image volume.now.volume.pen
        → ShowsNow opened.tree image) }
    ensures ordered { IfOk result (λ opened. (image : Image) → IsOpenedOf image volume.now.volume.pen
        → IsInOrder opened.tree) }
    ensures refused { IfErr result (λ e. (image : Image) → IsOpenedOf image volume.now.volume.pen
        → RefusesLook image e) }
{
    let tree = current_tree(alloc, volume)?;
    let shown = shown_tree(alloc, tree)?;
    Ok(shown)
}

/// The pins that stand in a file. None where it is no file of pins; nothing is pinned where there is no file.
fn pins_of(alloc: Global, bytes: Option<Items<u8>>) -> Result<Option<Pins>, AllocError>
    ensures { IfOk result (λ pins. option_map (λ p. p.lines) pins ≡ lines_in bytes) }
{
    match bytes {
        Some(bytes) => Pins::read(alloc, bytes.as_slice()),
        None => Ok(Some(Pins::none(alloc))),
    }
}

/// What is pinned.
pub(crate) fn pins_in(alloc: Global, volume: &OpenedVolume) -> Result<Pins, Refusal>
    ensures lines { IfOk result (λ pins. (image : Image) → IsOpenedOf image volume.now.volume.pen
        → HasLines pins.lines image) }
    ensures refused { IfErr result (λ e. (image : Image) → IsOpenedOf image volume.now.volume.pen
        → RefusesPins image e) }
{
    let bytes = volume.pins(alloc)?;
    match pins_of(alloc, bytes)? {
        Some(pins) => Ok(pins),
        None => Err(Refusal::BadPins),
    }
}
