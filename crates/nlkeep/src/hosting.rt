//! The host as commands meet it: where an image stands, and why it refuses something.
use crate::asking::Outcome;
use crate::faults::{DISORDERED, Fault, fault_at, volume_fault};
use crate::images::{read_image, save_image, take_place};
use crate::unpacking::seal_fault;
use nl_backups::{HostFault, Place, Refusal};
use nl_saving::SavePlace;
use std::alloc::Global;

/// An image that a command replaces. It is locked.
#[derive(Drop)]
pub struct LockedImage<'r, 'w> {
    rt: &'r HostRuntime,
    pub path: &'w str,
    place: SavePlace<'w>,
    /// Whether its sum was left out.
    pub outcome: Outcome,
    fault: Option<Fault>,
}

impl<'r, 'w> LockedImage<'r, 'w> {
    pub fn take(rt: &'r HostRuntime, path: &'w str) -> Result<LockedImage<'r, 'w>, Fault> {
        let place = take_place(rt, path)?;
        Ok(LockedImage {
            rt,
            path,
            place,
            outcome: Outcome::Done,
            fault: None,
        })
    }

    /// Why a command is refused that took the image.
    pub fn fault_of(&mut self, told: Option<Fault>, refusal: Refusal) -> Fault {
        let known = self.fault.take();
        refusal_fault(self.rt.alloc(), self.path, known.or(told), refusal)
    }
}

impl Place for LockedImage<'_, '_> {
    ghost use Rattle.std.specs.Prelude.{None};

    ghost image = { λ p. None };

    fn read(&mut self, _: Global) -> Result<Vec<u8>, HostFault> {
        match read_image(self.rt, self.path) {
            Ok(image) => Ok(image),
            Err(fault) => {
                self.fault = Some(fault);
                Err(HostFault)
            }
        }
    }

    fn save(&mut self, bytes: &[u8]) -> Result<(), HostFault> {
        match save_image(self.rt, self.path, &mut self.place, bytes) {
            Ok(outcome) => {
                self.outcome = outcome;
                Ok(())
            }
            Err(fault) => {
                self.fault = Some(fault);
                Err(HostFault)
            }
        }
    }
}

/// An image that a command only looks at.
#[derive(Drop)]
pub struct ReadImage<'r, 'w> {
    pub rt: &'r HostRuntime,
    pub path: &'w str,
    pub fault: Option<Fault>,
}

impl Place for ReadImage<'_, '_> {
    ghost use Rattle.std.specs.Prelude.{None};

    ghost image = { λ p. None };

    fn read(&mut self, _: Global) -> Result<Vec<u8>, HostFault> {
        match read_image(self.rt, self.path) {
            Ok(image) => Ok(image),
            Err(fault) => {
                self.fault = Some(fault);
                Err(HostFault)
            }
        }
    }

    fn save(&mut self, _: &[u8]) -> Result<(), HostFault> {
        Err(HostFault)
    }
}

/// Why a command is refused: what the host knows of it, or else what the volume of the image refuses. `path`
/// is where the image stands.
pub fn refusal_fault(alloc: Global, path: &str, known: Option<Fault>, refusal: Refusal) -> Fault {
    if let Some(fault) = known {
        return fault;
    }
    match refusal {
        Refusal::Volume(error) => volume_fault(alloc, path, error),
        Refusal::Folder(error) => seal_fault(alloc, path, error, DISORDERED),
        Refusal::Disordered => fault_at(alloc, path, DISORDERED),
        Refusal::NothingThere => fault_at(alloc, path, "nothing is there"),
        Refusal::NoFolder => fault_at(alloc, path, "lies below what is no folder now"),
        Refusal::BadPins => fault_at(alloc, path, "has a file .nlkeep-pins that is none of pins"),
        Refusal::NotPinned => fault_at(alloc, path, "is not pinned"),
        // Memory for its reason lacked.
        Refusal::Host => Fault::Memory,
    }
}
