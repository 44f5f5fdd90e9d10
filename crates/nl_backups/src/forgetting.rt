//! `forget`: checkpoints of an image are removed.
ghost use Rattle.std.specs.Prelude.{◌≡◌, IfErr, IfOk, OnErr};
ghost use Rattle.nl_keep_pen.specs.Images.{ForgetsInImage};
ghost use Rattle.nl_backups.specs.Hosts.{Becomes, Holds};
ghost use Rattle.nl_backups.specs.Refusals.{RefusesAt, RefusesRemoval};

use crate::asking::opened_for;
use crate::hosts::{Asker, Listener, Place};
use crate::refusals::Refusal;
use nl_keep_pen::Cleaning;
use nl_types::CheckpointNumber;
use std::alloc::Global;

/// Which checkpoints were removed, in the order in which they were: these, and the minor ones right behind
/// them.
#[derive(Drop)]
pub struct Forgotten {
    pub numbers: Vec<CheckpointNumber>,
}

/// The checkpoints that are wished away, and the image without them.
fn without<A: Asker<Vec<CheckpointNumber>>>(
    alloc: Global,
    image: &[u8],
    asker: &mut A,
    moment: u64,
    cleaning: Cleaning,
) -> Result<(Forgotten, Vec<u8>), Refusal>
    ensures forgets { IfOk result (λ done.
        ForgetsInImage moment done.0.numbers.items image.now done.1.items) }
    ensures wished { IfOk result (λ done. Holds (A.wish asker.old) done.0.numbers) }
    ensures refused { IfErr result (RefusesRemoval image.now) }
{
    let (volume, numbers) = opened_for(alloc, image, asker)?;
    let next = volume.forget(alloc, numbers.as_slice(), moment, cleaning)?;
    Ok((Forgotten { numbers }, next))
}

/// Removes checkpoints of an image, those that the asker wishes away. Refused, the image is as it was. The
/// moment is in whole seconds.
///
/// # Errors
/// `Host` where the host doesn't give the image or take the new one, and where the listener doesn't go on;
/// `Volume` where the bytes are no image, or one of the checkpoints stays.
pub fn forget<P: Place, L: Asker<Vec<CheckpointNumber>> + Listener<Forgotten>>(
    alloc: Global,
    place: &mut P,
    listener: &mut L,
    moment: u64,
    cleaning: Cleaning,
) -> Result<Forgotten, Refusal>
    ensures done { IfOk result (λ done. Becomes (ForgetsInImage moment done.numbers.items)
        (P.image place.old) (P.image place.new)) }
    ensures wished { IfOk result (λ done. Holds (L.wish listener.old) done.numbers) }
    ensures stays { OnErr result (P.image place.new ≡ P.image place.old) }
    ensures refused { IfErr result (RefusesAt RefusesRemoval (P.image place.old)) }
{
    let image = place.read(alloc)?;
    let (done, next) = without(alloc, image.as_slice(), listener, moment, cleaning)?;
    listener.done(&done)?;
    place.save(next.as_slice())?;
    Ok(done)
}
