//! The host as `check` meets it: an image that is judged, and the file of its sum.
use crate::faults::Fault;
use crate::hosting::refusal_fault;
use crate::image_files::{Purpose, irregular, read_for};
use crate::sums::{MOST_BYTES, sum_path};
use nl_backups::{HostFault, Place, Refusal, SumFile, SumPlace};
use nl_saving::{FileFault, FirstBytes, read_first};
use nl_types::Items;
use std::alloc::Global;
use std::{fs, io};

/// An image that is judged.
#[derive(Drop)]
pub struct JudgedImage<'r, 'w> {
    rt: &'r HostRuntime,
    path: &'w str,
    /// How many bytes its file has, where the system tells that.
    pub length: Option<u64>,
    pub fault: Option<Fault>,
}

impl<'r, 'w> JudgedImage<'r, 'w> {
    pub fn at(rt: &'r HostRuntime, path: &'w str) -> JudgedImage<'r, 'w> {
        JudgedImage {
            rt,
            path,
            length: None,
            fault: None,
        }
    }
}

impl Place for JudgedImage<'_, '_> {
    ghost use Rattle.std.specs.Prelude.{None};

    ghost image = { λ p. None };

    fn read(&mut self, _: Global) -> Result<Vec<u8>, HostFault> {
        match read_for(self.rt, self.path, Purpose::Judging) {
            Ok(FirstBytes { bytes, length }) => {
                self.length = length;
                Ok(bytes)
            }
            Err(fault) => {
                self.fault = Some(fault);
                Err(HostFault)
            }
        }
    }

    fn save(&mut self, _: &[u8]) -> Result<(), HostFault> {
        Err(HostFault)
    }
}

/// The file of the sum of an image.
#[derive(Drop)]
pub struct SumBeside<'r, 'w> {
    rt: &'r HostRuntime,
    /// Where the image stands.
    image: &'w str,
    /// Where the file is due. Empty before it is read.
    pub path: String,
    fault: Option<Fault>,
}

impl<'r, 'w> SumBeside<'r, 'w> {
    /// That of the image at a path.
    pub fn of(rt: &'r HostRuntime, image: &'w str) -> SumBeside<'r, 'w> {
        SumBeside {
            rt,
            image,
            path: String::new(rt.alloc()),
            fault: None,
        }
    }

    /// Why the image isn't judged, where reading it was refused so.
    pub fn fault_of(&mut self, known: Option<Fault>, refusal: Refusal) -> Fault {
        let known = known.or(self.fault.take());
        refusal_fault(self.rt.alloc(), self.image, known, refusal)
    }

    /// What stands at its path.
    fn file(&mut self) -> Result<SumFile, Fault> {
        self.path = sum_path(self.rt, self.image)?;
        file_at(self.rt, self.path.as_str())
    }
}

impl SumPlace for SumBeside<'_, '_> {
    ghost use Rattle.std.specs.Prelude.{None};

    ghost file = { λ s. None };

    fn read(&mut self, _: Global) -> Result<SumFile, HostFault> {
        match self.file() {
            Ok(file) => Ok(file),
            Err(fault) => {
                self.fault = Some(fault);
                Err(HostFault)
            }
        }
    }
}

/// What stands at the path of a sum. Of what no sum is as long as no more is read.
fn file_at(rt: &HostRuntime, path: &str) -> Result<SumFile, Fault> {
    match fs::metadata(rt, path) {
        Err(error) if error.kind() == io::ErrorKind::NotFound => return Ok(SumFile::Missing),
        _ => {}
    }
    if irregular(rt, path).is_some() {
        return Ok(SumFile::Unread);
    }
    match read_first(rt, path.as_bytes(), MOST_BYTES + 1) {
        Ok(text) => Ok(SumFile::Text(Items::from_vec(text))),
        Err(FileFault::Unread) => Ok(SumFile::Unread),
        Err(FileFault::Refused(_)) => Err(Fault::Memory),
    }
}
