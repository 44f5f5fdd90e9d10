//! What a session begins with: the place where it saves, and the pen of a new volume, or of an image.
ghost use Rattle.std.specs.Prelude.{◌≡◌, IfErr, IfOk, IfSome, List, None, ℕ};
ghost use Rattle.nl_image.specs.Conditions.{MeetsFirst};
ghost use Rattle.nl_image.specs.Parts.{Parts, image_length};
ghost use Rattle.nl_core.specs.Opened.{IsOpenRefusal};
ghost use Rattle.nlvol.specs.Beginnings.{IsBegunBy, IsImageFault, IsMemoryOrFault, IsNewPen, IsOpenedPen, IsStartFault, image_fault, place_path, step_of};

use crate::telling::save_path;
use nl_commands::Arguments;
use nl_core::{Pen, geometry_of, open};
use nl_damage::Sections;
use nl_device::MemDevice;
use nl_saving::{FileFault, InUse, Reach, SavePlace, read_within};
use nl_script::texts::StartStep;
use nl_types::{BLOCK_SIZE, Geometry, VolError};
use std::alloc::Global;
use std::fs::File;
use std::rt::Files;

/// When a new volume is formatted, and the moment of the first lines, in whole seconds.
pub const MOMENT: u64 = 0;

/// No file is longer: its length is a number of 64 bits with a sign.
const MOST_LENGTH: u64 = u64::MAX / 2;

/// Why a session has no volume.
#[derive(Clone, Copy)]
pub enum StartFault {
    /// The file of the image can't be read.
    Unread,
    /// A step before the first line is refused.
    Refused(StartStep, VolError),
    /// Another program has the file in use that is to be saved.
    InUse,
}

// ---- the file that is saved

/// Takes the place where the session saves, if that was asked for. Nothing is read before that but the
/// configuration.
pub fn place_for<'a, R: Files<File = File>>(
    files: &R,
    arguments: &'a Arguments,
) -> Result<Option<SavePlace<'a>>, StartFault>
    ensures asked { IfOk result (λ place. place_path place ≡ arguments.now.save) }
    ensures refused { IfErr result (IsStartFault arguments.now) }
{
    let Some(path) = save_path(arguments) else {
        return Ok(None);
    };
    match SavePlace::take(files, path) {
        Ok(place) => Ok(Some(place)),
        Err(InUse) => Err(StartFault::InUse),
    }
}

// ---- a new volume

/// A new volume in memory.
fn new_pen(alloc: Global, geometry: Geometry) -> Result<Pen<MemDevice>, VolError>
    ensures made { IfOk result (IsNewPen geometry) }
    ensures refused { IfErr result IsMemoryOrFault }
{
    let device = MemDevice::new(alloc, geometry)?;
    Pen::format(alloc, device, geometry, MOMENT)
}

/// A new volume of the geometry that was asked for.
fn asked_pen(alloc: Global, arguments: &Arguments) -> Result<Pen<MemDevice>, StartFault>
    requires { arguments.now.«open» ≡ None }
    ensures begun { IfOk result (IsBegunBy arguments.now) }
    ensures refused { IfErr result (IsStartFault arguments.now) }
{
    let geometry = match arguments.geometry() {
        Ok(geometry) => geometry,
        Err(error) => return Err(StartFault::Refused(StartStep::Geometry, error)),
    };
    match new_pen(alloc, geometry) {
        Ok(pen) => Ok(pen),
        Err(error) => Err(StartFault::Refused(StartStep::Start, error)),
    }
}

// ---- the volume of an image

/// The volume of an image, on a device in memory.
fn opened_pen(alloc: Global, image: &[u8]) -> Result<Pen<MemDevice>, VolError>
    ensures opened { IfOk result (IsOpenedPen image.now) }
    ensures refused { IfErr result (IsOpenRefusal image.now) }
{
    let geometry = geometry_of(image)?;
    let device = MemDevice::new(alloc, geometry)?;
    let pen = open(alloc, image, device)?;
    Ok(pen)
}

/// The step that judges what is refused so.
fn step_of(error: VolError) -> StartStep
    ensures { result ≡ step_of error }
{
    match error {
        VolError::BadImage(_) => StartStep::Image,
        _ => StartStep::Start,
    }
}

fn image_fault(fault: FileFault) -> StartFault
    ensures { result ≡ image_fault fault }
{
    match fault {
        FileFault::Unread => StartFault::Unread,
        FileFault::Refused(error) => StartFault::Refused(step_of(error), error),
    }
}

/// How long the image is that begins so. None where no image does, or no file is so long.
fn due_length(first: &[u8]) -> Option<u64>
    ensures { IfSome result (λ due. (p : Parts) × MeetsFirst 2 first.now p × (due ≡ image_length p.shape)) }
{
    let sections = Sections::of(first)?;
    let due = sections.places.end as u64;
    if due <= MOST_LENGTH { Some(due) } else { None }
}

/// How much of a file that is to be an image is read: so much that all of it fails the same condition first.
#[derive(Clone, Copy)]
struct ImageReach;

impl Reach for ImageReach {
    /// None where the first bytes fail a condition already, or where the file is known to have another length
    /// than they tell. Else up to a byte more than that.
    fn more(&self, first: &[u8], length: Option<u64>) -> u64 {
        match (due_length(first), length) {
            (None, _) => 0,
            (Some(due), Some(length)) if length != due => 0,
            (Some(due), _) => due.saturating_sub(first.len() as u64).saturating_add(1),
        }
    }
}

/// The volume of the image in the file at a path. Its bytes are given back once it is open.
fn pen_at<R: AllocGlobal + Files>(rt: &R, path: &[u8]) -> Result<Pen<MemDevice>, StartFault>
    ensures opened { IfOk result (λ pen. (image : List ℕ) × IsOpenedPen image pen) }
    ensures refused { IfErr result IsImageFault }
{
    let image = match read_within(rt, path, BLOCK_SIZE as u64, &ImageReach) {
        Ok(read) => read.bytes,
        Err(fault) => return Err(image_fault(fault)),
    };
    match opened_pen(rt.alloc(), image.as_slice()) {
        Ok(pen) => Ok(pen),
        Err(error) => Err(StartFault::Refused(step_of(error), error)),
    }
}

/// The volume that the arguments ask for: that of an image, or else a new one.
pub fn pen_for<R: AllocGlobal + Files>(
    rt: &R,
    arguments: &Arguments,
) -> Result<Pen<MemDevice>, StartFault>
    ensures begun { IfOk result (IsBegunBy arguments.now) }
    ensures refused { IfErr result (IsStartFault arguments.now) }
{
    match arguments.open.as_ref() {
        None => asked_pen(rt.alloc(), arguments),
        Some(path) => pen_at(rt, path.as_slice()),
    }
}
