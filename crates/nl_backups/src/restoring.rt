//! `restore`: what a checkpoint of an image shows is laid out in a folder of the host.
ghost use Rattle.std.specs.Prelude.{◌≡◌, ◌<◌, [], length, IfErr, IfOk};
ghost use Rattle.nl_shown.specs.Parts.{part_of};
ghost use Rattle.nl_backups.specs.Commands.{Restores, ShowsFromImage};
ghost use Rattle.nl_backups.specs.Hosts.{Holds};
ghost use Rattle.nl_backups.specs.Refusals.{LacksPart, RefusesAt, RefusesLook, RefusesPart};

use crate::asking::opened_for;
use crate::hosts::{Asker, Place, Target};
use crate::reading::shown_by;
use crate::refusals::Refusal;
use nl_manifests::{HostTree, Opened};
use nl_names::Name;
use nl_shown::part_at;
use nl_types::CheckpointNumber;
use std::alloc::Global;

/// The checkpoint that is wished for, and what it shows.
fn shown_of<A: Asker<CheckpointNumber>>(
    alloc: Global,
    image: &[u8],
    asker: &mut A,
) -> Result<(CheckpointNumber, Opened), Refusal>
    ensures shows { IfOk result (λ done. ShowsFromImage done.0 done.1.tree image.now) }
    ensures wished { IfOk result (λ done. Holds (A.wish asker.old) done.0) }
    ensures refused { IfErr result (RefusesLook image.now) }
{
    let (volume, number) = opened_for(alloc, image, asker)?;
    let opened = shown_by(alloc, &volume, number)?;
    Ok((number, opened))
}

/// What lies at and below a path of a tree, which is something.
fn some_part(alloc: Global, tree: HostTree, path: &[Name]) -> Result<HostTree, Refusal>
    ensures part { IfOk result (λ part. part ≡ part_of path.now tree) }
    ensures some { IfOk result (λ part. 0 < length part) }
    ensures refused { IfErr result (LacksPart path.now tree) }
{
    let part = part_at(alloc, tree, path)?;
    if part.is_empty() {
        return Err(Refusal::NothingThere);
    }
    Ok(part)
}

/// Lays out what a checkpoint of an image shows at and below a path, all of it where that is the root.
/// Answers which checkpoint that is. The image stays.
///
/// # Errors
/// `Host` where the host doesn't give the image or take the tree, and where the asker doesn't go on;
/// `NothingThere` where the checkpoint shows nothing at the path; `Volume` where the bytes are no image, or
/// the checkpoint isn't kept.
pub fn restore<P: Place, A: Asker<CheckpointNumber>, T: Target>(
    alloc: Global,
    place: &mut P,
    asker: &mut A,
    path: &[Name],
    target: &mut T,
) -> Result<CheckpointNumber, Refusal>
    ensures done { IfOk result (λ number.
        Restores number path.now (P.image place.old) (T.laid target.new)) }
    ensures wished { IfOk result (λ number. Holds (A.wish asker.old) number) }
    ensures stays { P.image place.new ≡ P.image place.old }
    ensures refused { IfErr result (RefusesAt (RefusesPart path.now) (P.image place.old)) }
{
    let image = place.read(alloc)?;
    let (number, opened) = shown_of(alloc, image.as_slice(), asker)?;
    target.look(&opened)?;
    let part = some_part(alloc, opened.tree, path)?;
    target.lay_out(part)?;
    Ok(number)
}
