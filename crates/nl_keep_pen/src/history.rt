//! Where in the history of a volume something changed at or below a path.
ghost use Rattle.std.specs.Prelude.{◌≡◌, ◌⊎◌, ◌++◌, ◌∷◌, [], if◌then◌else◌, Err, IfErr, IfOk, IsTrue, None, OnOk, Some};
ghost use Rattle.std.specs.FinMap.{find};
ghost use Rattle.std.specs.List.{cons_option};
ghost use Rattle.nl_types.specs.Plain.NumberLists.{is_one_of};
ghost use Rattle.nl_types.specs.Plain.Paths.{Path, path_cmp};
ghost use Rattle.nl_types.specs.Plain.Worlds.{World, Copy, copy_at};
ghost use Rattle.nl_commit.specs.Layout.{MeansWorld};
ghost use Rattle.nl_folders.specs.Refusals.{RefusesTree};
ghost use Rattle.nl_keep.specs.Stored.{IsKept};
ghost use Rattle.nl_keep_pen.specs.History.{AreChanges, AreKept, IsChange, LacksOne, RefusesOne, any_within, difference_in};
ghost use Rattle.nl_keep_pen.specs.Looking.{ShowsBare, TellDifferences};

use crate::PenVolume;
use crate::comparing::{checkpoint_differences, judge_kept};
use crate::unread::unread_tree;
use nl_device::Device;
use nl_folders::{FolderError, Path, begins_with, find_in};
use nl_manifests::{HostDifference, Opened, host_differences, open};
use nl_names::Name;
use nl_pins::without_pins;
use nl_types::{CheckpointNumber, Items, VolError};
use std::alloc::{AllocError, Global};

// ---- what checkpoints show

/// What a kept checkpoint shows, but for the bytes of files: of these, manifests alone are read. Pins are no part
/// of it.
pub(crate) fn unread_shown<D: Device>(
    alloc: Global,
    volume: &PenVolume<D>,
    number: CheckpointNumber,
) -> Result<Opened, FolderError>
    ensures kept { OnOk result ((w : World) → MeansWorld volume.now.pen w → IsKept number w) }
    ensures shows { IfOk result (λ opened. (w : World) (copy : Copy) → MeansWorld volume.now.pen w
        → copy_at w number ≡ Some copy → ShowsBare copy.tree opened) }
    ensures missing { (w : World) → MeansWorld volume.now.pen w → copy_at w number ≡ None
        → IfErr result (λ e. (e ≡ FolderError.Refused VolError.Memory)
        ⊎ (e ≡ FolderError.Refused VolError.NoCheckpoint)) }
    ensures refused { IfErr result (λ e. (w : World) (copy : Copy) → MeansWorld volume.now.pen w
        → copy_at w number ≡ Some copy → RefusesTree copy.tree e) }
{
    let tree = unread_tree(alloc, volume, number)?;
    let tree = without_pins(alloc, tree)?;
    let opened = open(alloc, tree.as_slice())?;
    Ok(opened)
}

/// What two kept checkpoints show, but for the bytes of files, and all that differs between what they show.
#[derive(Drop)]
pub struct ShownDifferences {
    pub before: Opened,
    pub after: Opened,
    /// In the order of the paths.
    pub all: Items<(Path, HostDifference)>,
}

/// All that differs between what two kept checkpoints show.
pub(crate) fn shown_differences<D: Device>(
    alloc: Global,
    volume: &PenVolume<D>,
    old: CheckpointNumber,
    new: CheckpointNumber,
) -> Result<ShownDifferences, FolderError>
    ensures kept_old { OnOk result ((w : World) → MeansWorld volume.now.pen w → IsKept old w) }
    ensures kept_new { OnOk result ((w : World) → MeansWorld volume.now.pen w → IsKept new w) }
    ensures tells { IfOk result (λ told. (w : World) (one other : Copy) → MeansWorld volume.now.pen w
        → copy_at w old ≡ Some one → copy_at w new ≡ Some other
        → TellDifferences one.tree other.tree told) }
    ensures differ { IfOk result (λ told. (w : World) (path : Path) → MeansWorld volume.now.pen w
        → find path_cmp path told.all ≡ difference_in w old new path) }
    ensures missing { (w : World) → MeansWorld volume.now.pen w
        → (copy_at w old ≡ None) ⊎ (copy_at w new ≡ None)
        → result ≡ Err (FolderError.Refused VolError.NoCheckpoint) }
    ensures refused { IfErr result (λ e. (w : World) → MeansWorld volume.now.pen w
        → AreKept (old ∷ new ∷ []) w → RefusesOne (old ∷ new ∷ []) e w) }
{
    nl_folders::laws::differences_are_exact();
    nl_manifests::laws::differences_need_no_bytes();
    nl_manifests::laws::host_differences_are_exact();
    let of_objects = checkpoint_differences(alloc, volume, old, new)?;
    let of_objects = without_pins(alloc, of_objects)?;
    let before = unread_shown(alloc, volume, old)?;
    let after = unread_shown(alloc, volume, new)?;
    let all = host_differences(
        alloc,
        before.tree.as_slice(),
        after.tree.as_slice(),
        of_objects.as_slice(),
    )?;
    Ok(ShownDifferences { before, after, all })
}

// ---- at and below a path

/// Whether one of the differences is at or below a path.
fn is_any_within(all: &[(Path, HostDifference)], top: &[Name]) -> bool
    ensures { result ≡ any_within top.now all.now }
{
    for difference in all {
        if begins_with(difference.0.as_slice(), top) {
            return true;
        }
    }
    false
}

/// Whether what two kept checkpoints show differs at or below a path. Where they have one root nothing is read.
fn differ_below<D: Device>(
    alloc: Global,
    volume: &PenVolume<D>,
    old: CheckpointNumber,
    new: CheckpointNumber,
    top: &[Name],
) -> Result<bool, FolderError>
    ensures differ { IfOk result (λ differ. (w : World) → MeansWorld volume.now.pen w
        → AreKept (old ∷ new ∷ []) w → IsChange w top.now (Some old) new differ) }
    ensures refused { IfErr result (λ e. (w : World) → MeansWorld volume.now.pen w
        → AreKept (old ∷ new ∷ []) w → RefusesOne (old ∷ new ∷ []) e w) }
{
    if volume.pen.is_same_tree(old, new) {
        return Ok(false);
    }
    let told = shown_differences(alloc, volume, old, new)?;
    Ok(is_any_within(told.all.as_slice(), top))
}

/// Whether a kept checkpoint shows anything at a path.
fn shows_anything<D: Device>(
    alloc: Global,
    volume: &PenVolume<D>,
    number: CheckpointNumber,
    path: &[Name],
) -> Result<bool, FolderError>
    ensures shows { IfOk result (λ shows. (w : World) → MeansWorld volume.now.pen w
        → AreKept (number ∷ []) w → IsChange w path.now None number shows) }
    ensures refused { IfErr result (λ e. (w : World) → MeansWorld volume.now.pen w
        → AreKept (number ∷ []) w → RefusesOne (number ∷ []) e w) }
{
    let shown = unread_shown(alloc, volume, number)?;
    Ok(find_in(shown.tree.as_slice(), path).is_some())
}

// ---- lists of checkpoints

/// Whether a kept checkpoint shows a change at or below a path: since the one before it, or as the first one.
fn is_change<D: Device>(
    alloc: Global,
    volume: &PenVolume<D>,
    before: Option<CheckpointNumber>,
    number: CheckpointNumber,
    path: &[Name],
) -> Result<bool, FolderError>
    ensures change { IfOk result (λ is. (w : World) → MeansWorld volume.now.pen w
        → AreKept (cons_option before (number ∷ [])) w → IsChange w path.now before number is) }
    ensures refused { IfErr result (λ e. (w : World) → MeansWorld volume.now.pen w
        → AreKept (cons_option before (number ∷ [])) w
        → RefusesOne (cons_option before (number ∷ [])) e w) }
{
    match before {
        Some(old) => differ_below(alloc, volume, old, number, path),
        None => shows_anything(alloc, volume, number, path),
    }
}

/// Judges whether all of these checkpoints are kept, without memory. Refused by `NoCheckpoint` alone.
fn judge_all<D: Device>(
    volume: &PenVolume<D>,
    numbers: &[CheckpointNumber],
) -> Result<(), FolderError>
    ensures kept { OnOk result ((w : World) → MeansWorld volume.now.pen w → AreKept numbers.now w) }
    ensures refused { IfErr result (λ e. e ≡ FolderError.Refused VolError.NoCheckpoint) }
    ensures missing { IfErr result (λ e. (w : World) → MeansWorld volume.now.pen w
        → LacksOne numbers.now w) }
{
    for number in numbers {
        judge_kept(volume, *number)?;
    }
    Ok(())
}

fn add_if(
    is_change: bool,
    number: CheckpointNumber,
    changes: &mut Items<CheckpointNumber>,
) -> Result<(), AllocError>
    ensures { OnOk result (changes.new
        ≡ changes.old ++ (if is_change then number ∷ [] else [])) }
{
    if !is_change {
        return Ok(());
    }
    changes.push(number)
}

/// The checkpoints of a list, in order, of which something shown at a path or below it is other than at the one
/// before in the list: which directories, files and links there are, the bytes of files, modes and owners as far
/// as both are known, and where links lead. Times and pins don't count. The first one is told where it shows
/// anything at the path itself. Of two with one root nothing is read, and else no file that both have by one inode.
///
/// # Errors
/// `Refused` by `NoCheckpoint` where one of the list isn't kept; else as `folder_differences` of `nl_folders`,
/// for one of its trees.
pub(crate) fn changed_at<D: Device>(
    alloc: Global,
    volume: &PenVolume<D>,
    numbers: &[CheckpointNumber],
    path: &[Name],
) -> Result<Items<CheckpointNumber>, FolderError>
    ensures changes { IfOk result (λ changes. (w : World) → MeansWorld volume.now.pen w
        → AreChanges w path.now None numbers.now changes) }
    ensures missing { (w : World) → MeansWorld volume.now.pen w → LacksOne numbers.now w
        → result ≡ Err (FolderError.Refused VolError.NoCheckpoint) }
    ensures refused { IfErr result (λ e. (w : World) → MeansWorld volume.now.pen w
        → AreKept numbers.now w → RefusesOne numbers.now e w) }
{
    judge_all(volume, numbers)?;
    let mut changes = Items::new(alloc);
    let mut before = None;
    for number in numbers {
        let is_change = is_change(alloc, volume, before, *number, path)?;
        add_if(is_change, *number, &mut changes)?;
        before = Some(*number);
    }
    Ok(changes)
}
