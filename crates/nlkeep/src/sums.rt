//! The sum of an image, in a file beside it.
use crate::asking::Outcome;
use crate::complaining::complain;
use crate::faults::{Fault, system_fault};
use crate::lasting::{Lasting, before_save};
use nl_damage::Sections;
use nl_damage::sums::{Kept, Sum, printed};
use nl_saving::{behind_links, save_marked};
use nl_types::Items;
use std::alloc::{AllocError, Global};
use std::fs;
use std::path::PathBuf;

/// Which checkpoints an image keeps, by its table. The latest one's number is 0 where its entry can't be
/// read.
pub fn kept_in(image: &[u8]) -> Kept {
    match Sections::of(image) {
        Some(sections) => Kept::of(&sections),
        None => Kept {
            count: 0,
            latest: 0,
        },
    }
}

/// The path of the file that the links of an image's path lead to.
pub fn image_file(rt: &HostRuntime, image: &str) -> Result<PathBuf, Fault> {
    match behind_links(rt, image) {
        Ok(path) => Ok(path),
        Err(error) => Err(system_fault(rt.alloc(), image, "cannot be read", &error)),
    }
}

/// Where the sum of an image stands that isn't given by a link.
fn beside(alloc: Global, file: &str) -> Result<String, AllocError> {
    format!(in alloc; "{file}.sum")
}

/// Where the sum of the image at a path stands: beside the file that its links lead to.
pub fn sum_path(rt: &HostRuntime, image: &str) -> Result<String, Fault> {
    let file = image_file(rt, image)?;
    Ok(beside(rt.alloc(), file.as_str())?)
}

/// No sum has more bytes: a line of 73 bytes for each of at most 4,096 segments, and less than 512 in front
/// of them.
pub const MOST_BYTES: u64 = 73 * 4096 + 512;

// ---- a sum that is to be written

/// What the file of a sum begins with, in front of a number.
const MARK: &[u8] = b"nlkeep sum ";

/// The sum of an image that is to be saved, and where it will stand. All memory is taken before the image is
/// saved.
#[derive(Drop)]
pub struct PlannedSum {
    pub path: String,
    /// The file of the image.
    pub image: PathBuf,
    /// None where the bytes that are saved aren't as long as an image.
    text: Option<Items<u8>>,
    /// What of the image was damaged before.
    lasting: Lasting,
}

/// Whether what stands at a path is known to be no regular file, such as a device.
fn is_special(rt: &HostRuntime, path: &str) -> bool {
    match fs::metadata(rt, path) {
        Ok(told) => !told.is_file(),
        Err(_) => false,
    }
}

impl PlannedSum {
    /// The sum of the image that is to stand at a path. Where the one that stands there differs from its sum,
    /// so does the new one from this, as far as it has the same bytes.
    pub fn of(rt: &HostRuntime, path: &str, bytes: &[u8]) -> Result<PlannedSum, Fault> {
        let alloc = rt.alloc();
        let image = image_file(rt, path)?;
        let path = beside(alloc, image.as_str())?;
        let Some(sum) = Sum::of_image(alloc, bytes)? else {
            let lasting = Lasting::none(alloc);
            return Ok(PlannedSum {
                path,
                image,
                text: None,
                lasting,
            });
        };
        let lasting = before_save(rt, image.as_str(), path.as_str(), &sum, bytes)?;
        let text = Some(printed(alloc, &lasting.in_sum(alloc, sum)?)?);
        Ok(PlannedSum {
            path,
            image,
            text,
            lasting,
        })
    }

    /// Puts it beside the image. Answers whether it is left out, which is told.
    fn put(&self, rt: &HostRuntime, text: &[u8]) -> Outcome {
        let (path, image) = (self.path.as_str(), self.image.as_str());
        match save_marked(rt, path, MARK, image, text) {
            Ok(true) => return Outcome::Done,
            Ok(false) => complain(
                rt,
                format_args!("left out: {path}: what stands there is no sum, and stays"),
            ),
            Err(error) => complain(
                rt,
                format_args!("left out: {path}: cannot be written: {error}"),
            ),
        }
        Outcome::Partly
    }

    /// Writes it beside the image, which was saved, and tells what was damaged before. Where it can't be
    /// written that is told, and what was there stays. What is no regular file has none.
    pub fn save(&self, rt: &HostRuntime) -> Outcome {
        let Some(text) = &self.text else {
            return Outcome::Done;
        };
        if is_special(rt, self.image.as_str()) {
            return Outcome::Done;
        }
        let is_whole = self.lasting.tell(rt, self.path.as_str());
        self.put(rt, text.as_slice()).and(Outcome::of(is_whole))
    }
}
