//! `backup`: a folder of the host becomes the next snapshot of an image.
ghost use Rattle.std.specs.Prelude.{◌≡◌, IfErr, IfOk, OnErr};
ghost use Rattle.nl_backups.specs.Commands.{BacksUp, StoresFolder};
ghost use Rattle.nl_backups.specs.Refusals.{RefusesBackup, RefusesFolder};

use crate::asking::opened_for;
use crate::hosts::{Asker, Listener, Place, Source};
use crate::refusals::Refusal;
use crate::storing::{BackedUp, Terms, store_tree};
use nl_manifests::HostTree;
use nl_shown::kept_tree;
use std::alloc::Global;

/// Stores a folder in the volume of an image, beside the pins that are there.
fn store_folder<L: Asker<()> + Listener<BackedUp>>(
    alloc: Global,
    image: &[u8],
    folder: HostTree,
    listener: &mut L,
    terms: Terms,
) -> Result<(BackedUp, Vec<u8>), Refusal>
    ensures stored { IfOk result (λ done.
        StoresFolder terms.moment folder done.0 image.now done.1.items) }
    ensures refused { IfErr result (RefusesFolder terms.moment folder image.now) }
{
    let (volume, ()) = opened_for(alloc, image, listener)?;
    let pins = volume.pins(alloc)?;
    let tree = kept_tree(alloc, pins, folder)?;
    let done = store_tree::<BackedUp, L>(alloc, image, volume, tree, listener, terms)?;
    Ok(done)
}

/// Keeps a folder as the next snapshot of an image. Refused, the image is as it was.
///
/// # Errors
/// `Host` where the host doesn't give the folder or the image, or doesn't take the new one, and where the
/// listener doesn't go on; `Folder` where no tree of a volume keeps the folder; `Volume` where the bytes are
/// no image, or the volume refuses the tree: by `NoSpace`, where no effort made room for it.
pub fn backup<P: Place, S: Source, L: Asker<()> + Listener<BackedUp>>(
    alloc: Global,
    place: &mut P,
    source: &mut S,
    listener: &mut L,
    terms: Terms,
) -> Result<BackedUp, Refusal>
    ensures done { IfOk result (λ done. BacksUp terms.moment (S.folder source.old) done
        (P.image place.old) (P.image place.new)) }
    ensures stays { OnErr result (P.image place.new ≡ P.image place.old) }
    ensures refused { IfErr result (RefusesBackup terms.moment (S.folder source.old) (P.image place.old)) }
{
    let folder = source.read(alloc)?;
    let image = place.read(alloc)?;
    let (done, next) = store_folder(alloc, image.as_slice(), folder, listener, terms)?;
    listener.done(&done)?;
    place.save(next.as_slice())?;
    Ok(done)
}
