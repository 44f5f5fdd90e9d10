//! Files that are written with holes: where zeros were passed over, the file system stores nothing.
ghost use Rattle.std.specs.Prelude.{◌≡◌, ℕ, [], List, None, OnOk, Option, Some};
ghost use Rattle.nl_saving.specs.SparseFiles.{IsOverwritten, IsResized};

use crate::extents::next_extent;
use std::fs::File;
use std::io;
use std::io::{Seek, SeekFrom, Write};

/// A file that is written at places. What its writer passes over is zeros.
pub trait SparseFile {
    /// Its bytes, where they are known.
    ghost holds: { Self → Option (List ℕ) };

    /// Writes bytes from a place on. Refused, a part of them may be written.
    fn write_all_at(&mut self, bytes: &[u8], place: u64) -> io::Result<()>
        ensures { OnOk result (IsOverwritten (holds self.old) (holds self.new) place bytes.now) };

    /// Gives it so many bytes: those that it has, up to there, and zeros behind them.
    fn resize(&mut self, len: u64) -> io::Result<()>
        ensures { OnOk result (IsResized (holds self.old) (holds self.new) len) };
}

/// A file of the system. What it holds is known to no contract.
impl SparseFile for File {
    ghost holds = { λ _. None };

    fn write_all_at(&mut self, bytes: &[u8], place: u64) -> io::Result<()> {
        self.seek(SeekFrom::Start(place))?;
        self.write_all(bytes)
    }

    fn resize(&mut self, len: u64) -> io::Result<()> {
        self.set_len(len)
    }
}

/// Writes all bytes of an empty file, with holes for units of zeros. Refused, it may have any part of them.
pub fn write_sparse<F: SparseFile>(file: &mut F, bytes: &[u8]) -> io::Result<()>
    ensures { OnOk result (F.holds file.old ≡ Some [] → F.holds file.new ≡ Some bytes.now) }
{
    let mut at = 0;
    while let Some(extent) = next_extent(bytes, at) {
        let part = &bytes[extent.start..extent.end];
        file.write_all_at(part, extent.start as u64)?;
        at = extent.end;
    }
    file.resize(bytes.len() as u64)
}
