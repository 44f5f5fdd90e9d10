//! `revert`: what a checkpoint of an image shows at and below a path comes back into its current tree.
ghost use Rattle.std.specs.Prelude.{◌≡◌, IfErr, IfOk, OnErr};
ghost use Rattle.nl_keep_pen.specs.Opened.{IsOpenedOf};
ghost use Rattle.nl_shown.specs.Lost.{coming_back};
ghost use Rattle.nl_shown.specs.Reverted.{IsInOrder, IsReverted, RefusesRevert};
ghost use Rattle.nl_backups.specs.Commands.{StoresFolder};
ghost use Rattle.nl_backups.specs.Hosts.{Becomes, Holds, Image};
ghost use Rattle.nl_backups.specs.Refusals.{RefusesAt, RefusesComingBack, RefusesFolder, RefusesReverting};
ghost use Rattle.nl_backups.specs.Reverting.{ComesBack, Reverts};

use crate::asking::opened_for;
use crate::hosts::{Asker, Listener, Place, Reviewer};
use crate::reading::{shown_by, shown_now};
use crate::refusals::Refusal;
use crate::storing::{BackedUp, Terms, store_tree};
use nl_folders::Path;
use nl_keep_pen::OpenedVolume;
use nl_manifests::{HostTree, LineFault};
use nl_names::Name;
use nl_shown::{RevertError, coming_back, kept_tree, reverted};
use nl_types::{CheckpointNumber, Items};
use std::alloc::Global;

/// What a revert came to.
#[derive(Drop)]
pub struct Reverted {
    /// The checkpoint of which something came back.
    pub number: CheckpointNumber,
    pub backed: BackedUp,
}

/// The tree that is wanted, and the lines of manifests that show nothing of the two that it is made of.
#[derive(Drop)]
struct Brought {
    tree: HostTree,
    earlier: Items<(Path, LineFault)>,
    later: Items<(Path, LineFault)>,
}

// ---- the tree

/// The later tree, in which at and below a path all stands as it comes back from the earlier one.
fn tree_with(
    alloc: Global,
    earlier: HostTree,
    later: HostTree,
    path: &[Name],
) -> Result<HostTree, RevertError>
    ensures reverted { IfOk result (λ tree. IsInOrder later → IsInOrder earlier
        → IsReverted later (coming_back later path.now earlier) path.now tree) }
    ensures refused { IfErr result (λ e. IsInOrder later → IsInOrder earlier
        → RefusesRevert later (coming_back later path.now earlier) path.now e) }
{
    let earlier = coming_back(alloc, earlier, later.as_slice(), path)?;
    reverted(alloc, later, earlier, path)
}

/// The current tree, in which at and below a path all stands as a checkpoint shows it.
fn brought_back<R: Reviewer>(
    alloc: Global,
    volume: &OpenedVolume,
    number: CheckpointNumber,
    path: &[Name],
    reviewer: &mut R,
) -> Result<Brought, Refusal>
    ensures comes { IfOk result (λ brought. (image : Image) → IsOpenedOf image volume.now.volume.pen
        → ComesBack number path.now brought.tree image) }
    ensures refused { IfErr result (λ e. (image : Image) → IsOpenedOf image volume.now.volume.pen
        → RefusesComingBack path.now image e) }
{
    let earlier = shown_by(alloc, volume, number)?;
    let later = shown_now(alloc, volume)?;
    reviewer.look(&earlier, &later);
    let tree = tree_with(alloc, earlier.tree, later.tree, path)?;
    Ok(Brought {
        tree,
        earlier: earlier.refused,
        later: later.refused,
    })
}

// ---- the image

/// Stores it in the volume that was opened of the image, beside the pins that are there.
fn store_brought<L: Listener<BackedUp> + Reviewer>(
    alloc: Global,
    image: &[u8],
    volume: OpenedVolume,
    brought: Brought,
    listener: &mut L,
    terms: Terms,
) -> Result<(BackedUp, Vec<u8>), Refusal>
    ensures stored { IfOk result (λ done. IsOpenedOf image.now volume.volume.pen
        → StoresFolder terms.moment brought.tree done.0 image.now done.1.items) }
    ensures refused { IfErr result (λ e. IsOpenedOf image.now volume.volume.pen
        → RefusesFolder terms.moment brought.tree image.now e) }
{
    let Brought {
        tree,
        earlier,
        later,
    } = brought;
    let pins = volume.pins(alloc)?;
    let tree = kept_tree(alloc, pins, tree)?;
    listener.drop_lines(earlier.as_slice(), later.as_slice());
    let done = store_tree::<BackedUp, L>(alloc, image, volume, tree, listener, terms)?;
    Ok(done)
}

/// Brings back what the checkpoint that is wished for shows at and below a path. Answers what that came to, and
/// the image that is to stand in the place of this one.
fn bring_back<L: Asker<CheckpointNumber> + Listener<BackedUp> + Reviewer>(
    alloc: Global,
    image: &[u8],
    listener: &mut L,
    path: &[Name],
    terms: Terms,
) -> Result<(Reverted, Vec<u8>), Refusal>
    ensures reverts { IfOk result (λ done.
        Reverts terms.moment path.now done.0 image.now done.1.items) }
    ensures wished { IfOk result (λ done. Holds (L.wish listener.old) done.0.number) }
    ensures refused { IfErr result (RefusesReverting terms.moment path.now image.now) }
{
    let (volume, number) = opened_for(alloc, image, listener)?;
    let brought = brought_back(alloc, &volume, number, path, listener)?;
    let (backed, next) = store_brought(alloc, image, volume, brought, listener, terms)?;
    Ok((Reverted { number, backed }, next))
}

/// Brings back what a checkpoint of an image shows at and below a path, as the next snapshot, which has all else
/// as it was. The listener is asked of which checkpoint. Where a manifest is none that told of what comes back,
/// what has no known attributes is no more open than what stands there now, or is its owner's alone. Refused, the
/// image is as it was.
///
/// # Errors
/// `Host` where the host doesn't give the image or take the new one, and where the listener doesn't go on;
/// `NothingThere` where the checkpoint shows nothing at the path; `NoFolder` where a file or a link stands above
/// it now; `Folder` where no tree of a volume keeps what comes of it; `Volume` where the bytes are no image, the
/// checkpoint isn't kept, or the volume refuses the tree: by `NoSpace`, where no effort made room for it.
pub fn revert<P: Place, L: Asker<CheckpointNumber> + Listener<BackedUp> + Reviewer>(
    alloc: Global,
    place: &mut P,
    listener: &mut L,
    path: &[Name],
    terms: Terms,
) -> Result<Reverted, Refusal>
    ensures done { IfOk result (λ done.
        Becomes (Reverts terms.moment path.now done) (P.image place.old) (P.image place.new)) }
    ensures wished { IfOk result (λ done. Holds (L.wish listener.old) done.number) }
    ensures stays { OnErr result (P.image place.new ≡ P.image place.old) }
    ensures refused { IfErr result (RefusesAt (RefusesReverting terms.moment path.now) (P.image place.old)) }
{
    let image = place.read(alloc)?;
    let (done, next) = bring_back(alloc, image.as_slice(), listener, path, terms)?;
    listener.done(&done.backed)?;
    place.save(next.as_slice())?;
    Ok(done)
}
