//! A host in memory, of which all is known.
ghost use Rattle.std.specs.Prelude.{◌≡◌, [], IfOk, IfSome, Some};
ghost use Rattle.nl_pins.specs.Trees.{without_pins};
ghost use Rattle.nl_backups.specs.Commands.{BacksUpAs, Makes, Restores};

use crate::backing_up::backup;
use crate::hosts::{Asker, HostFault, Listener, Place, Source, Target};
use crate::laws::{effects_keep_checkpoints, folders_come_back};
use crate::making::init;
use crate::refusals::Refusal;
use crate::restoring::restore;
use crate::storing::{BackedUp, Terms};
use nl_folders::Path;
use nl_keep_pen::OpenedVolume;
use nl_keep_pen::laws::images_have_the_present_mark;
use nl_manifests::{HostTree, Opened};
use nl_types::{CheckpointNumber, Geometry, Items, Object, Row};
use std::alloc::Global;

/// An image in memory.
#[derive(Drop)]
pub struct MemoryPlace {
    pub alloc: Global,
    pub image: Items<u8>,
}

impl Place for MemoryPlace {
    ghost use Rattle.std.specs.Prelude.{Some};

    ghost image = { λ p. Some p.image };

    fn read(&mut self, alloc: Global) -> Result<Vec<u8>, HostFault> {
        match Items::from_slice(alloc, self.image.as_slice()) {
            Ok(bytes) => Ok(bytes.into_vec()),
            Err(_) => Err(HostFault),
        }
    }

    fn save(&mut self, bytes: &[u8]) -> Result<(), HostFault> {
        match Items::from_slice(self.alloc, bytes) {
            Ok(image) => {
                self.image = image;
                Ok(())
            }
            Err(_) => Err(HostFault),
        }
    }
}

/// A folder that is given once.
#[derive(Drop)]
pub struct GivenFolder {
    pub tree: Option<HostTree>,
}

impl GivenFolder {
    pub fn new(tree: HostTree) -> GivenFolder
        ensures { result.tree ≡ Some tree }
    {
        GivenFolder { tree: Some(tree) }
    }
}

impl Source for GivenFolder {
    ghost folder = { λ s. s.tree };

    fn read(&mut self, _: Global) -> Result<HostTree, HostFault> {
        match self.tree.take() {
            Some(tree) => Ok(tree),
            None => Err(HostFault),
        }
    }
}

/// What was laid out last.
#[derive(Drop)]
pub struct LaidOut {
    pub tree: Option<HostTree>,
}

impl Target for LaidOut {
    ghost laid = { λ t. t.tree };

    fn look(&mut self, _: &Opened) -> Result<(), HostFault> {
        Ok(())
    }

    fn lay_out(&mut self, tree: HostTree) -> Result<(), HostFault> {
        self.tree = Some(tree);
        Ok(())
    }
}

/// Nobody listens to a backup.
#[derive(Clone, Copy)]
pub struct Nobody;

impl Asker<()> for Nobody {
    fn asked(&mut self, _: &OpenedVolume, _: &[Row]) -> Result<(), HostFault> {
        Ok(())
    }
}

impl Listener<BackedUp> for Nobody {
    fn done(&mut self, _: &BackedUp) -> Result<(), HostFault> {
        Ok(())
    }

    fn full(&mut self, _: &[u8], _: &[(Path, Object)]) {}
}

/// A checkpoint that is wished for by its number.
#[derive(Clone, Copy)]
struct OfNumber {
    number: CheckpointNumber,
}

impl Asker<CheckpointNumber> for OfNumber {
    ghost use Rattle.std.specs.Prelude.{Some};

    ghost wish = { λ a. Some a.number };

    fn asked(&mut self, _: &OpenedVolume, _: &[Row]) -> Result<CheckpointNumber, HostFault> {
        Ok(self.number)
    }
}

/// The image of a new volume in memory.
fn new_place(alloc: Global, geometry: Geometry, moment: u64) -> Result<MemoryPlace, Refusal>
    ensures { IfOk result (λ place. Makes moment (Some place.image)) }
{
    let mut place = MemoryPlace {
        alloc,
        image: Items::new(alloc),
    };
    init(alloc, &mut place, geometry, moment)?;
    Ok(place)
}

/// Which snapshot a backup made.
fn number_of(done: &BackedUp) -> CheckpointNumber
    ensures { result ≡ done.now.stored.number }
{
    done.stored.number
}

/// Keeps a folder, and answers as which snapshot.
fn keep(
    alloc: Global,
    place: &mut MemoryPlace,
    source: &mut GivenFolder,
    terms: Terms,
) -> Result<CheckpointNumber, Refusal>
    ensures { IfOk result (λ number. BacksUpAs terms.moment number source.old.tree
        (Some place.old.image) (Some place.new.image)) }
{
    let done = backup(alloc, place, source, &mut Nobody, terms)?;
    let number = number_of(&done);
    drop(done);
    Ok(number)
}

/// What is laid out of a checkpoint.
fn laid_of(
    alloc: Global,
    place: &mut MemoryPlace,
    number: CheckpointNumber,
) -> Result<Option<HostTree>, Refusal>
    ensures { IfOk result (λ laid. Restores number [] (Some place.old.image) laid) }
{
    let mut target = LaidOut { tree: None };
    restore(alloc, place, &mut OfNumber { number }, &[], &mut target)?;
    Ok(target.tree)
}

/// Keeps a folder in a new image, keeps another one behind it, and lays out the first. By the contracts of
/// these commands alone, that is the folder that was kept.
pub fn there_and_back(
    alloc: Global,
    geometry: Geometry,
    terms: Terms,
    folder: HostTree,
    other: HostTree,
) -> Result<Option<HostTree>, Refusal>
    ensures { IfOk result (λ laid. IfSome laid (λ tree. tree ≡ without_pins folder)) }
{
    effects_keep_checkpoints();
    folders_come_back();
    images_have_the_present_mark();
    nl_shown::laws::roots_have_all();
    let mut place = new_place(alloc, geometry, terms.moment)?;
    let number = keep(alloc, &mut place, &mut GivenFolder::new(folder), terms)?;
    keep(alloc, &mut place, &mut GivenFolder::new(other), terms)?;
    laid_of(alloc, &mut place, number)
}
