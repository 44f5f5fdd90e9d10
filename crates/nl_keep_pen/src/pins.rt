//! The pins of a volume of which nothing is dirty.
ghost use Rattle.std.specs.Prelude.{◌≡◌, true, false, Err, IfErr, IfOk, Some};
ghost use Rattle.nl_types.specs.declared.error.VolError;
ghost use Rattle.nl_types.specs.Plain.Worlds.{World, Copy, copy_at};
ghost use Rattle.nl_commit.specs.Layout.{MeansWorld};
ghost use Rattle.nl_folders.specs.declared.folder.FolderError;
ghost use Rattle.nl_keep_pen.specs.Pins.{Finds, is_of_no_file, pins_of};

use crate::PenVolume;
use nl_device::Device;
use nl_folders::FolderError;
use nl_keep::{CheckpointFolder, bytes_answered};
use nl_pins::path_of_pins;
use nl_types::{CheckpointNumber, Items, VolError};
use std::alloc::Global;

/// Whether a file isn't read since nothing or a directory stands in its place.
fn is_of_no_file(error: &FolderError) -> bool
    ensures { result ≡ is_of_no_file error.now }
{
    match error {
        FolderError::Refused(VolError::NotFound) => true,
        FolderError::Refused(VolError::IsDir) => true,
        _ => false,
    }
}

/// What a read of the file of pins finds: none where there is no such file.
fn found(read: Result<Items<u8>, FolderError>) -> Result<Option<Items<u8>>, FolderError>
    ensures found { IfOk result (Finds read) }
    ensures refused { IfErr result (λ e. (read ≡ Err e) × (is_of_no_file e ≡ false)) }
{
    match read {
        Ok(bytes) => Ok(Some(bytes)),
        Err(error) => {
            if is_of_no_file(&error) {
                Ok(None)
            } else {
                Err(error)
            }
        }
    }
}

/// The bytes of the file of pins of a kept checkpoint. Refused by `Memory` alone, where it is kept.
pub(crate) fn pins_at<D: Device>(
    alloc: Global,
    volume: &PenVolume<D>,
    number: CheckpointNumber,
) -> Result<Option<Items<u8>>, FolderError>
    ensures pins { IfOk result (λ pins. (w : World) (copy : Copy) → MeansWorld volume.now.pen w
        → copy_at w number ≡ Some copy → pins ≡ pins_of copy.tree) }
    ensures refused { IfErr result (λ e. (w : World) (copy : Copy) → MeansWorld volume.now.pen w
        → copy_at w number ≡ Some copy → e ≡ FolderError.Refused VolError.Memory) }
{
    let path = path_of_pins(alloc)?;
    let folder = CheckpointFolder { volume, number };
    let read = bytes_answered(alloc, &folder, path.as_slice());
    found(read)
}
