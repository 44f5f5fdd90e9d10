//! A volume that is opened of an image once: read, judged, changed and closed again.
ghost use Rattle.std.specs.Prelude.{◌≡◌, ◌⊎◌, ℕ, List, IfErr, IfOk, IsOk, Some};
ghost use Rattle.nl_types.specs.declared.error.VolError;
ghost use Rattle.nl_types.specs.Plain.Worlds as worlds;
ghost use Rattle.nl_types.specs.Plain.Worlds.{World, formatted};
ghost use Rattle.nl_image.specs.Conditions.{AreImage, IsShapeOf, MeetsFirst};
ghost use Rattle.nl_image.specs.Parts.{Parts, with_present_mark};
ghost use Rattle.nl_image.specs.Reading.{IsRefusal};
ghost use Rattle.nl_commit.specs.Layout.{IsPen, MeansWorld};
ghost use Rattle.nl_core.specs.Opened.{IsOpenRefusal};
ghost use Rattle.nl_core.specs.PenImages.{CanBeClosed, IsPenImage};
ghost use Rattle.nl_keep.specs.declared.storing.KeepError;
ghost use Rattle.nl_keep.specs.Forgotten.{MakesAllPlain};
ghost use Rattle.nl_keep.specs.Made.{AreMadeBy};
ghost use Rattle.nl_keep.specs.Refusals.{RefusesPlain};
ghost use Rattle.nl_keep.specs.Volumes.{LeadsTo};
ghost use Rattle.nl_keep_pen.specs.Images.{ForgetsAndTidies, ForgetsInImage, HasCurrent, ImageMeans, ReadsFromImage, StoresInImage, StoresPrepared};
ghost use Rattle.nl_keep_pen.specs.Opened.{IsClosedTo, IsOpenedOf, RefusesForgetting, RefusesPrepared, RefusesToRead};
ghost use Rattle.nl_keep_pen.specs.Pins.{HasPins};

use crate::PenVolume;
use crate::pins::pins_at;
use crate::room::Room;
use crate::rounds::{Cleaning, Round};
use nl_core::{Pen, geometry_of, open};
use nl_device::{Device, MemDevice};
use nl_folders::{Path, Tree};
use nl_keep::{
    KeepError, Stored, checkpoint_tree, current_tree, forget, make_all_plain, store_over,
};
use nl_types::{
    Answer, CheckpointNumber, Event, Geometry, Items, ListOptions, Object, Row, VolError,
};
use std::alloc::Global;

// ---- closing

/// The image of a pen of which nothing is dirty and nothing mounted. Refused by `Memory`, and by `Fault`
/// where the device failed.
fn closed<D: Device>(mut pen: Pen<D>) -> Result<Vec<u8>, VolError>
    requires { CanBeClosed pen.lists }
    ensures sound { IsPen pen }
    ensures image { IfOk result (λ image. IsPenImage pen image.items) }
    ensures refused { IfErr result (λ e. (e ≡ VolError.Fault) ⊎ (e ≡ VolError.Memory)) }
{
    pen.means_a_world();
    pen.close()
}

/// The image of a new volume, with checkpoint 1 of the root alone. The moment is in whole seconds.
///
/// # Errors
/// `Memory`. No caller sees `Fault`, as a device in memory doesn't fail.
pub fn format_image(alloc: Global, geometry: Geometry, moment: u64) -> Result<Vec<u8>, VolError>
    ensures image { IfOk result (λ image. ImageMeans image.items (formatted moment)) }
    ensures refused { IfErr result (λ e. (e ≡ VolError.Fault) ⊎ (e ≡ VolError.Memory)) }
{
    let device = MemDevice::new(alloc, geometry)?;
    let pen = Pen::format(alloc, device, geometry, moment)?;
    closed(pen)
}

// ---- looking

/// A device in memory for the volume of an image.
fn device_for(alloc: Global, image: &[u8]) -> Result<MemDevice, VolError>
    ensures shape { IfOk result (λ device. (p : Parts) → MeetsFirst 2 image.now p
        → IsShapeOf device.geometry p.shape) }
    ensures refused { IfErr result (IsRefusal image.now) }
{
    let geometry = geometry_of(image)?;
    let device = MemDevice::new(alloc, geometry)?;
    Ok(device)
}

/// What is told of all checkpoints, the minor ones too, the oldest first. The pen stays. Refused by `Memory`
/// alone.
fn rows_of<D: Device>(pen: &mut Pen<D>) -> Result<Items<Row>, VolError>
    ensures rows { IfOk result (λ told. (w : World) → MeansWorld pen.old w → told ≡ worlds.rows w) }
    ensures stays { pen.new ≡ pen.old }
    ensures refused { IfErr result (λ e. e ≡ VolError.Memory) }
{
    let options = ListOptions {
        reverse: false,
        snapshots_only: false,
        with_minor: true,
        from: None,
        count: None,
    };
    pen.means_a_world();
    match pen.apply(&Event::Listing(options))? {
        Answer::Rows(rows) => Ok(rows),
        // No pen answers a listing by anything else.
        other => {
            drop(other);
            Err(VolError::Memory)
        }
    }
}

// ---- changes

/// Stores a tree as the next snapshot of a volume, where room is made for it first.
///
/// # Errors
/// As `current_tree` and `store_over` of `nl_keep`; `Memory`, and `Fault` where the device fails.
fn store_prepared<D: Device>(
    alloc: Global,
    volume: PenVolume<D>,
    wanted: &[(Path, Object)],
    moment: u64,
    room: &mut Room<'_>,
) -> Result<(Stored, PenVolume<D>), KeepError>
    ensures earlier { IfOk result (λ stored. (w : World) → MeansWorld volume.pen w
        → stored.0.earlier ≡ w.tree) }
    ensures made { IfOk result (λ stored.
        AreMadeBy stored.0.earlier wanted.now stored.0.calls stored.0.bytes) }
    ensures stored { IfOk result (λ stored.
        LeadsTo (StoresPrepared moment stored.0.number wanted.now)
        (MeansWorld volume.pen) (MeansWorld stored.1.pen)) }
    ensures refused { IfErr result (λ e. (w : World) → MeansWorld volume.pen w
        → RefusesPrepared moment wanted.now w e) }
{
    let (earlier, mut volume) = current_tree(alloc, volume)?;
    room.prepare_at(moment, &mut volume, earlier.as_slice())?;
    let done = store_over(alloc, volume, earlier, wanted, moment)?;
    Ok(done)
}

/// Forgets checkpoints of a volume, one after another, and does a round of cleaning where it is due.
///
/// # Errors
/// As `forget` of `nl_keep`; `Memory`.
fn forget_and_tidy<D: Device>(
    volume: PenVolume<D>,
    numbers: &[CheckpointNumber],
    round: &Round,
    cleaning: Cleaning,
) -> Result<PenVolume<D>, VolError>
    ensures forgets { IfOk result (λ after.
        LeadsTo (ForgetsAndTidies round.now.moment numbers.now)
        (MeansWorld volume.pen) (MeansWorld after.pen)) }
    ensures refused { IfErr result (λ e. (w : World) → MeansWorld volume.pen w
        → RefusesForgetting numbers.now w e) }
{
    let mut volume = forget(volume, numbers)?;
    round.tidy_if_due(&mut volume, cleaning)?;
    Ok(volume)
}

// ---- the volume

/// The volume of an image that was opened, on a device in memory of its own. Nothing of it is dirty or
/// mounted, so it can be closed.
#[derive(Drop)]
pub struct OpenedVolume {
    pub(crate) volume: PenVolume<MemDevice>,
    ghost rest: { CanBeClosed volume.pen.lists },
}

impl OpenedVolume {
    /// The volume of an image.
    ///
    /// # Errors
    /// `BadImage` with the number of the first condition that the bytes fail; `Memory`; `Fault` where the
    /// device fails.
    pub fn open(alloc: Global, image: &[u8]) -> Result<OpenedVolume, VolError>
        ensures opened { IfOk result (λ opened. IsOpenedOf image.now opened.volume.pen) }
        ensures means { IsOk result → (w : World) × ImageMeans (with_present_mark image.now) w }
        ensures accepted { IfOk result (λ _. AreImage image.now) }
        ensures refused { IfErr result (IsOpenRefusal image.now) }
    {
        let device = device_for(alloc, image)?;
        let pen = open(alloc, image, device)?;
        Ok(OpenedVolume {
            volume: PenVolume { pen },
        })
    }

    pub fn volume(&self) -> &PenVolume<MemDevice>
        ensures { result.now ≡ self.now.volume }
    {
        &self.volume
    }

    /// What is told of all checkpoints, the minor ones too, the oldest first. The volume stays as it is.
    ///
    /// # Errors
    /// `Memory`.
    pub fn rows(&mut self) -> Result<Items<Row>, VolError>
        ensures rows { IfOk result (λ told. (w : World) → MeansWorld self.old.volume.pen w
            → told ≡ worlds.rows w) }
        ensures stays { self.new.volume.pen ≡ self.old.volume.pen }
        ensures refused { IfErr result (λ e. e ≡ VolError.Memory) }
    {
        rows_of(&mut self.volume.pen)
    }

    /// The whole tree of a kept checkpoint, be it a snapshot or plain.
    ///
    /// # Errors
    /// `Refused` by `NoCheckpoint` where it isn't kept, or by `Memory`; of one that is kept by `BadPath`
    /// where a path of it is too long for any call.
    pub fn tree(&self, alloc: Global, number: CheckpointNumber) -> Result<Tree, KeepError>
        ensures tree { IfOk result (λ tree. (image : List ℕ) → IsOpenedOf image self.now.volume.pen
            → ReadsFromImage number tree image) }
        ensures refused { IfErr result (λ e. (w : World) → MeansWorld self.now.volume.pen w
            → RefusesToRead number w e) }
    {
        nl_core::laws::pens_of_one_image_mean_one_world();
        self.volume.pen.means_a_world();
        let tree = checkpoint_tree(alloc, &self.volume, number)?;
        Ok(tree)
    }

    /// The bytes of the file that has the pins, none where there is no such file. They are read of the
    /// current tree alone.
    ///
    /// # Errors
    /// `Refused` by `Memory`.
    pub fn pins(&self, alloc: Global) -> Result<Option<Items<u8>>, KeepError>
        ensures pins { IfOk result (λ pins. (image : List ℕ) → IsOpenedOf image self.now.volume.pen
            → HasPins pins image) }
        ensures refused { IfErr result (λ e. e ≡ KeepError.Refused VolError.Memory) }
    {
        nl_core::laws::pens_of_one_image_mean_one_world();
        self.volume.pen.means_a_world();
        let latest = self.volume.pen.latest();
        let pins = pins_at(alloc, &self.volume, latest)?;
        Ok(pins)
    }

    /// Stores a tree as the next snapshot, and answers what that came to, and the volume, in which more may be
    /// stored. Room is made for it first, at the same moment, which is in whole seconds. Refused, the volume is
    /// gone, so that nobody closes one in which a part of the tree stands.
    ///
    /// # Errors
    /// As `current_tree` and `store_over` of `nl_keep`; `Memory`, and `Fault` where the device fails.
    pub fn keep(
        self,
        alloc: Global,
        wanted: &[(Path, Object)],
        moment: u64,
        room: &mut Room<'_>,
    ) -> Result<(Stored, OpenedVolume), KeepError>
        ensures earlier { IfOk result (λ done. (w : World) → MeansWorld self.volume.pen w
            → done.0.earlier ≡ w.tree) }
        ensures made { IfOk result (λ done.
            AreMadeBy done.0.earlier wanted.now done.0.calls done.0.bytes) }
        ensures stored { IfOk result (λ done. LeadsTo (StoresPrepared moment done.0.number wanted.now)
            (MeansWorld self.volume.pen) (MeansWorld done.1.volume.pen)) }
        ensures refused { IfErr result (λ e. (w : World) → MeansWorld self.volume.pen w
            → RefusesPrepared moment wanted.now w e) }
    {
        self.volume.pen.means_a_world();
        let (stored, volume) = store_prepared(alloc, self.volume, wanted, moment, room)?;
        Ok((stored, OpenedVolume { volume }))
    }

    /// The image that is to stand in the place of the one that was opened.
    ///
    /// # Errors
    /// `Memory`, and `Fault` where the device failed.
    pub fn close(self) -> Result<Vec<u8>, VolError>
        ensures closed { IfOk result (λ image. IsClosedTo self.volume.pen image.items) }
        ensures refused { IfErr result (λ e. (e ≡ VolError.Fault) ⊎ (e ≡ VolError.Memory)) }
    {
        closed(self.volume.pen)
    }

    /// Stores a tree as the next snapshot, and answers what that came to, and the image that is to stand in
    /// the place of the one that was opened. Room is made for it first, at the same moment, which is in whole
    /// seconds.
    ///
    /// # Errors
    /// As `keep`.
    pub fn store(
        self,
        alloc: Global,
        wanted: &[(Path, Object)],
        moment: u64,
        room: &mut Room<'_>,
    ) -> Result<(Stored, Vec<u8>), KeepError>
        ensures earlier { IfOk result (λ done. (image : List ℕ) → IsOpenedOf image self.volume.pen
            → HasCurrent done.0.earlier image) }
        ensures made { IfOk result (λ done.
            AreMadeBy done.0.earlier wanted.now done.0.calls done.0.bytes) }
        ensures stored { IfOk result (λ done. (image : List ℕ) → IsOpenedOf image self.volume.pen
            → StoresInImage moment done.0.number wanted.now image done.1.items) }
        ensures refused { IfErr result (λ e. (w : World) → MeansWorld self.volume.pen w
            → RefusesPrepared moment wanted.now w e) }
    {
        nl_core::laws::pens_of_one_image_mean_one_world();
        let (stored, volume) = self.keep(alloc, wanted, moment, room)?;
        let next = volume.close()?;
        Ok((stored, next))
    }

    /// Forgets checkpoints, one after another, and answers the image that is to stand in the place of the one
    /// that was opened. What they leave is cleaned at the moment.
    ///
    /// # Errors
    /// As `forget` of `nl_keep`; `Memory`, and `Fault` where the device fails.
    pub fn forget(
        self,
        alloc: Global,
        numbers: &[CheckpointNumber],
        moment: u64,
        cleaning: Cleaning,
    ) -> Result<Vec<u8>, VolError>
        ensures forgets { IfOk result (λ next. (image : List ℕ) → IsOpenedOf image self.volume.pen
            → ForgetsInImage moment numbers.now image next.items) }
        ensures refused { IfErr result (λ e. (w : World) → MeansWorld self.volume.pen w
            → RefusesForgetting numbers.now w e) }
    {
        nl_core::laws::pens_of_one_image_mean_one_world();
        nl_keep::laws::forgets_keep_others();
        self.volume.pen.means_a_world();
        let round = Round { alloc, moment };
        let volume = forget_and_tidy(self.volume, numbers, &round, cleaning)?;
        OpenedVolume { volume }.close()
    }

    /// Makes checkpoints plain, one after another, and answers the volume. Refused, the volume is gone.
    ///
    /// # Errors
    /// As `make_all_plain` of `nl_keep`.
    pub fn make_plain(self, numbers: &[CheckpointNumber]) -> Result<OpenedVolume, VolError>
        ensures plain { IfOk result (λ left. LeadsTo (MakesAllPlain numbers.now)
            (MeansWorld self.volume.pen) (MeansWorld left.volume.pen)) }
        ensures refused { IfErr result (λ e. (w : World) → MeansWorld self.volume.pen w
            → RefusesPlain numbers.now w e) }
    {
        self.volume.pen.means_a_world();
        let mut volume = self.volume;
        make_all_plain(&mut volume, numbers)?;
        Ok(OpenedVolume { volume })
    }
}
