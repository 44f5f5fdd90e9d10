//! A tree that becomes the current one of an image, and is kept as the next snapshot.
ghost use Rattle.std.specs.Prelude.{◌≡◌, ℕ, List, IfErr, IfOk};
ghost use Rattle.nl_keep_pen.specs.Opened.{IsOpenedOf};
ghost use Rattle.nl_backups.specs.Refusals.{RefusesImage};
ghost use Rattle.nl_backups.specs.Storing.{IsStored};

use crate::hosts::Listener;
use nl_folders::{Path, Tree};
use nl_keep::{KeepError, Stored};
use nl_keep_pen::{Effort, OpenedVolume, Room};
use nl_types::{Object, VolError};
use std::alloc::Global;

/// When a tree is stored, and in how great a volume.
#[derive(Clone, Copy)]
pub struct Terms {
    /// In whole seconds.
    pub moment: u64,
    /// The most bytes.
    pub most: u64,
}

/// What a backup came to.
#[derive(Drop)]
pub struct BackedUp {
    pub stored: Stored,
    /// The tree that was stored, with the pins of the volume.
    pub tree: Tree,
    /// How many bytes the volume had, and what it has where it was grown.
    pub grown: Option<(u64, u64)>,
}

/// Stores a tree in a volume that was opened of an image, with room made for it by some effort.
fn store_once(
    alloc: Global,
    volume: OpenedVolume,
    tree: &[(Path, Object)],
    moment: u64,
    room: &mut Room<'_>,
) -> Result<(Stored, Vec<u8>), KeepError>
    ensures stored { IfOk result (λ done. (image : List ℕ) → IsOpenedOf image volume.volume.pen
        → IsStored moment tree.now done.0 image done.1.items) }
    ensures refused { IfErr result (λ e. (image : List ℕ) → IsOpenedOf image volume.volume.pen
        → RefusesImage moment tree.now image e) }
{
    volume.store(alloc, tree, moment, room)
}

/// The same in a volume that is opened for it.
fn attempt(
    alloc: Global,
    image: &[u8],
    tree: &[(Path, Object)],
    moment: u64,
    room: &mut Room<'_>,
) -> Result<(Stored, Vec<u8>), KeepError>
    ensures stored { IfOk result (λ done. IsStored moment tree.now done.0 image.now done.1.items) }
    ensures refused { IfErr result (RefusesImage moment tree.now image.now) }
{
    let volume = OpenedVolume::open(alloc, image)?;
    store_once(alloc, volume, tree, moment, room)
}

/// The same, with more effort where there was no room.
fn attempt_again(
    alloc: Global,
    image: &[u8],
    tree: &[(Path, Object)],
    moment: u64,
    room: &mut Room<'_>,
) -> Result<(Stored, Vec<u8>), KeepError>
    ensures stored { IfOk result (λ done. IsStored moment tree.now done.0 image.now done.1.items) }
    ensures refused { IfErr result (RefusesImage moment tree.now image.now) }
{
    room.effort = Effort::Greater;
    match attempt(alloc, image, tree, moment, room) {
        Err(KeepError::Refused(VolError::NoSpace)) => {
            room.effort = Effort::Greatest;
            attempt(alloc, image, tree, moment, room)
        }
        done => done,
    }
}

/// Stores a tree in a volume that was opened of the image, and in one that is opened again where there was no
/// room.
fn with_efforts(
    alloc: Global,
    image: &[u8],
    volume: OpenedVolume,
    tree: &[(Path, Object)],
    moment: u64,
    room: &mut Room<'_>,
) -> Result<(Stored, Vec<u8>), KeepError>
    ensures stored { IfOk result (λ done. IsOpenedOf image.now volume.volume.pen
        → IsStored moment tree.now done.0 image.now done.1.items) }
    ensures refused { IfErr result (λ e. IsOpenedOf image.now volume.volume.pen
        → RefusesImage moment tree.now image.now e) }
{
    match store_once(alloc, volume, tree, moment, room) {
        Err(KeepError::Refused(VolError::NoSpace)) => {
            attempt_again(alloc, image, tree, moment, room)
        }
        done => done,
    }
}

/// Stores a tree in a volume that was opened of the image. Answers what that came to, the image that is to
/// stand in the place of this one, and how the volume has grown. Where there is no room, the image is opened
/// again: it is tried behind a round of cleaning in a greater volume, and then in the greatest.
///
/// # Errors
/// As `OpenedVolume::store` and `OpenedVolume::open` of `nl_keep_pen`.
pub fn store_in(
    alloc: Global,
    image: &[u8],
    volume: OpenedVolume,
    tree: &[(Path, Object)],
    terms: Terms,
) -> Result<(Stored, Vec<u8>, Option<(u64, u64)>), KeepError>
    ensures stored { IfOk result (λ done. IsOpenedOf image.now volume.volume.pen
        → IsStored terms.moment tree.now done.0 image.now done.1.items) }
    ensures refused { IfErr result (λ e. IsOpenedOf image.now volume.volume.pen
        → RefusesImage terms.moment tree.now image.now e) }
{
    let mut room = Room::new(alloc, tree, terms.moment, terms.most);
    let (stored, next) = with_efforts(alloc, image, volume, tree, terms.moment, &mut room)?;
    Ok((stored, next, room.grown))
}

/// Who listens is told where there is no room for a tree.
fn tell_full<N, L: Listener<N>>(
    image: &[u8],
    tree: &[(Path, Object)],
    stored: &Result<(Stored, Vec<u8>, Option<(u64, u64)>), KeepError>,
    listener: &mut L,
) {
    if let Err(KeepError::Refused(VolError::NoSpace)) = stored {
        listener.full(image, tree);
    }
}

/// Stores a tree in the volume that was opened of the image.
pub(crate) fn store_tree<N, L: Listener<N>>(
    alloc: Global,
    image: &[u8],
    volume: OpenedVolume,
    tree: Tree,
    listener: &mut L,
    terms: Terms,
) -> Result<(BackedUp, Vec<u8>), KeepError>
    ensures stored { IfOk result (λ done. IsOpenedOf image.now volume.volume.pen
        → IsStored terms.moment tree done.0.stored image.now done.1.items) }
    ensures tree { IfOk result (λ done. done.0.tree ≡ tree) }
    ensures refused { IfErr result (λ e. IsOpenedOf image.now volume.volume.pen
        → RefusesImage terms.moment tree image.now e) }
{
    let stored = store_in(alloc, image, volume, tree.as_slice(), terms);
    tell_full::<N, L>(image, tree.as_slice(), &stored, listener);
    let (stored, next, grown) = stored?;
    Ok((
        BackedUp {
            stored,
            tree,
            grown,
        },
        next,
    ))
}
