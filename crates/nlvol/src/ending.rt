//! How a session ends behind its script: where that is asked for, the volume's image is saved.
ghost use Rattle.std.specs.Prelude.{◌≡◌, IfErr, IfOk, IsOk, List, [], ℕ};
ghost use Rattle.nl_script.specs.Ends.{exit_status};
ghost use Rattle.nlvol.specs.Beginnings.{place_path};
ghost use Rattle.nl_commit.specs.Layout.{Does, Layout, unshared};
ghost use Rattle.nl_types.specs.declared.event.Event.TheVariants as event;
ghost use Rattle.nl_types.specs.declared.event.Mode.TheVariants as mode;
ghost use Rattle.nl_script.specs.Texts.{Text};
ghost use Rattle.nlvol.specs.Endings as endings;
ghost use Rattle.nlvol.specs.Endings.{IsSaveFault, IsSaveRefused, IsSettled, IsTextOf, IsUnsettled, SavesFrom, TellsEnd};
ghost use Rattle.nlvol.specs.Telling.{Tells, TellsMore, errors_of};

use crate::clearing::clear;
use crate::telling::{SessionEnd, tell_stream};
use nl_core::Pen;
use nl_device::Device;
use nl_saving::{SavePlace, Saved, SideNames, behind_links, side_names};
use nl_script::texts::{Done, changed_text, save_text, taken_text, unwritten_text};
use nl_types::{Event, Mode, Reply, VolError};
use std::fs::File;
use std::io::{Eprint, ErrorKind, Write};
use std::path::PathBuf;
use std::rt::Files;
use std::{io, str};

/// Why a volume isn't saved.
#[derive(Drop)]
pub enum SaveFault {
    /// The file can't be written.
    Unwritten,
    /// No name is free for the new file that was to take its place.
    Taken(SideNames),
    /// The last checkpoint or the image is refused, or there is no memory to write it.
    Refused(VolError),
    /// Another program changed the file. The image is in the one at this path.
    Changed(PathBuf),
}

/// Makes a plain checkpoint. It stands apart from `checkpoint_if_dirty`, so that no event is alive where that
/// leaves.
fn checkpoint<D: Device>(pen: &mut Pen<D>, moment: u64) -> Reply
    ensures { Does unshared pen.old (event.Checkpoint mode.Plain moment) result pen.new }
{
    let event = Event::Checkpoint {
        mode: Mode::Plain,
        moment,
    };
    let reply = pen.apply(&event);
    drop(event);
    reply
}

/// Makes a plain checkpoint where something is dirty.
fn checkpoint_if_dirty<D: Device>(pen: &mut Pen<D>, moment: u64) -> Result<(), VolError>
    ensures settled { IsOk result → IsSettled pen.old.lists.dirty moment pen.old pen.new }
    ensures refused { IfErr result (IsUnsettled moment pen.old) }
{
    if pen.is_dirty() {
        checkpoint(pen, moment)?;
    }
    Ok(())
}

/// The image of what a script left. A plain checkpoint comes first where something is dirty.
fn image_of<D: Device>(pen: &mut Pen<D>, moment: u64) -> Result<Vec<u8>, VolError>
    requires { pen.old.lists.mounts ≡ [] }
    ensures saved { IfOk result (λ image. SavesFrom moment pen.old image.items) }
    ensures refused { IfErr result (IsSaveRefused moment pen.old) }
{
    checkpoint_if_dirty(pen, moment)?;
    pen.means_a_world();
    let image = pen.close()?;
    Ok(image)
}

/// A write that fails for want of memory isn't the file's fault.
fn write_fault(error: &io::Error) -> SaveFault
    ensures { (moment : ℕ) (left : Layout) → IsSaveFault moment left result }
{
    if error.kind() == ErrorKind::OutOfMemory {
        return SaveFault::Refused(VolError::Memory);
    }
    SaveFault::Unwritten
}

/// Which names are taken, where none is free for the new file of a path.
fn taken<R: AllocGlobal + Files>(rt: &R, path: &[u8]) -> io::Result<SaveFault>
    ensures { IfOk result (λ fault. (moment : ℕ) (left : Layout) → IsSaveFault moment left fault) }
{
    let Ok(path) = str::from_utf8(path) else {
        return Err(io::Error::from(ErrorKind::InvalidInput));
    };
    let target = behind_links(rt, path)?;
    let Some(name) = target.as_path().file_name() else {
        return Err(io::Error::from(ErrorKind::InvalidInput));
    };
    let names = side_names(rt.alloc(), name)?;
    Ok(SaveFault::Taken(names))
}

/// Why an image isn't written at a path.
fn place_fault<R: AllocGlobal + Files>(rt: &R, path: &[u8], error: &io::Error) -> SaveFault
    ensures { (moment : ℕ) (left : Layout) → IsSaveFault moment left result }
{
    if error.kind() != ErrorKind::AlreadyExists {
        return write_fault(error);
    }
    match taken(rt, path) {
        Ok(fault) => fault,
        Err(error) => write_fault(&error),
    }
}

/// Writes an image at a place, where files of saves that were cut off are removed before. It stands apart
/// from `save`, so that no volume is alive where it leaves.
fn write_image<R: AllocGlobal + Files<File = File> + Eprint>(
    rt: &R,
    place: &mut SavePlace<'_>,
    image: &[u8],
) -> Result<(), SaveFault>
    ensures { IfErr result (λ fault. (moment : ℕ) (left : Layout) → IsSaveFault moment left fault) }
{
    clear(rt, place);
    match place.save(rt, image) {
        Ok(Saved::There) => Ok(()),
        Ok(Saved::Beside(side)) => Err(SaveFault::Changed(side)),
        Err(error) => Err(place_fault(rt, place.path, &error)),
    }
}

/// Saves the image of what a script left, at a place.
fn save<R: AllocGlobal + Files<File = File> + Eprint, D: Device>(
    rt: &R,
    place: &mut SavePlace<'_>,
    pen: &mut Pen<D>,
    moment: u64,
) -> Result<(), SaveFault>
    requires { pen.old.lists.mounts ≡ [] }
    ensures saved { IsOk result → (image : List ℕ) × SavesFrom moment pen.old image }
    ensures refused { IfErr result (IsSaveFault moment pen.old) }
{
    match image_of(pen, moment) {
        Ok(image) => write_image(rt, place, image.as_slice()),
        Err(error) => Err(SaveFault::Refused(error)),
    }
}

/// Tells why the volume isn't saved.
fn tell_unsaved<E: Write>(path: &[u8], fault: &SaveFault, errors: &mut E) -> bool
    ensures { (text : Text) × IsTextOf path.now fault.now text
        × Tells text (errors_of E.contents errors.old errors.new) result }
{
    match fault {
        SaveFault::Unwritten => unwritten_text(path, errors).is_ok(),
        SaveFault::Taken(names) => {
            let (first, last) = (names.first.as_bytes(), names.last.as_bytes());
            taken_text(path, first, last, errors).is_ok()
        }
        SaveFault::Refused(error) => save_text(*error, errors).is_ok(),
        SaveFault::Changed(side) => changed_text(path, side.as_str().as_bytes(), errors).is_ok(),
    }
}

/// The status of a script behind which the volume wasn't saved.
fn unsaved_status(mut done: Done) -> u8
    ensures { result ≡ exit_status (endings.unsaved done) }
{
    done.refused = true;
    done.exit_status()
}

/// Tells why the volume isn't saved, behind what was told, and ends the session.
fn unsaved<E: Write>(
    path: &[u8],
    done: Done,
    fault: &SaveFault,
    told: bool,
    errors: &mut E,
) -> SessionEnd
    ensures status { result.status ≡ exit_status (endings.unsaved done) }
    ensures told { (text : Text) × IsTextOf path.now fault.now text
        × TellsMore told text (errors_of E.contents errors.old errors.new) result.told }
{
    let is_told = tell_unsaved(path, fault, errors);
    SessionEnd {
        status: unsaved_status(done),
        told: told && is_told,
    }
}

/// Ends a session: tells which stream failed, if one did, and saves what the script left where there is a
/// place for it. The volume stays with the caller, so that none is alive where this leaves.
pub fn end<R: AllocGlobal + Files<File = File> + Eprint, D: Device, E: Write>(
    rt: &R,
    place: Option<SavePlace<'_>>,
    done: Done,
    pen: &mut Pen<D>,
    errors: &mut E,
) -> SessionEnd
    requires { pen.old.lists.mounts ≡ [] }
    ensures { TellsEnd (place_path place.entry) pen.old done (errors_of E.contents errors.old errors.new) result }
{
    let told = tell_stream(done.failed, errors);
    let Some(mut place) = place else {
        return SessionEnd {
            status: done.exit_status(),
            told,
        };
    };
    let path = place.path;
    match save(rt, &mut place, pen, done.moment) {
        Ok(()) => SessionEnd {
            status: done.exit_status(),
            told,
        },
        Err(fault) => unsaved(path, done, &fault, told, errors),
    }
}
