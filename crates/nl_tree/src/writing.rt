//! Calls that change the bytes of a file.
ghost use Rattle.std.specs.Prelude.{◌≡◌, ◌+◌, ◌<◌, ◌≤◌, ℕ, length, IfErr, OnErr, OnOk};
ghost use Rattle.nl_types.specs.Plain.Limits as limits;
ghost use Rattle.nl_types.specs.Plain.Calls.{and_then, truncate, write};
ghost use Rattle.nl_types.specs.Plain.Paths.{path_of};
ghost use Rattle.nl_types.specs.Blocks.Roots.{Blocks};
ghost use Rattle.nl_types.specs.declared.error.VolError;
ghost use Rattle.nl_tree.specs.Became.{holding_over};
ghost use Rattle.nl_tree.specs.Bytes.{IsFileIn, IsFileResized, IsFileWritten};
ghost use Rattle.nl_tree.specs.CurrentTrees.{AltersAs, AnswersAs, CanCall, HasOverwrittenAny, HasTruncated};
ghost use Rattle.nl_tree.specs.Held.{Holding};
ghost use Rattle.nl_tree.specs.Numbers.{CountsFree};

use crate::current::CurrentTree;
use crate::page_writing::{cut_pages, written_pages};
use crate::paths::find_file;
use crate::tree_read::{Base, TreeRead};
use nl_types::limits::FILE_LIMIT;
use nl_types::{Answer, BLOCK_SIZE, InodeNumber, VolError};
use std::alloc::Global;

impl CurrentTree {
    /// Writes bytes over those of a file from an offset on. Refused by `Memory` alone; then the tree is as
    /// before.
    fn write_file<B: Base>(
        &mut self,
        alloc: Global,
        base: &B,
        file: InodeNumber,
        offset: u64,
        bytes: &[u8],
    ) -> Result<(), VolError>
        requires file { (b : Holding) × (size : ℕ) × (blocks : Blocks) × B.TreeRead.holds base.now b
            × IsFileIn (holding_over self.old.became b) file size blocks }
        requires more { 0 < length bytes.now }
        requires fits { offset + length bytes.now ≤ limits.file_limit }
        ensures written { (b : Holding) (size : ℕ) (blocks : Blocks) → B.TreeRead.holds base.now b
            → IsFileIn (holding_over self.old.became b) file size blocks → OnOk result
            (IsFileWritten (holding_over self.old.became b) (holding_over self.new.became b)
            file size blocks offset bytes.now) }
        ensures counts { (b : Holding) (size : ℕ) (blocks : Blocks) → B.TreeRead.holds base.now b
            → IsFileIn (holding_over self.old.became b) file size blocks
            → CountsFree self.old b → OnOk result (CountsFree self.new b) }
        ensures names { self.new.names ≡ self.old.names }
        ensures same { OnErr result (self.new ≡ self.old) }
        ensures refused { IfErr result (λ e. e ≡ VolError.Memory) }
    {
        let pages = written_pages(alloc, &self.view(base), file, offset, bytes)?;
        let size = self.view(base).size(file).max(offset + bytes.len() as u64);
        self.overlay
            .write_blocks(alloc, base, file, size, offset / BLOCK_SIZE as u64, pages)
    }

    /// Gives a file a size in bytes. Refused by `Memory` alone; then the tree is as before.
    fn truncate_file<B: Base>(
        &mut self,
        alloc: Global,
        base: &B,
        file: InodeNumber,
        size: u64,
    ) -> Result<(), VolError>
        requires file { (b : Holding) × (was : ℕ) × (blocks : Blocks) × B.TreeRead.holds base.now b
            × IsFileIn (holding_over self.old.became b) file was blocks }
        requires fits { size ≤ limits.file_limit }
        ensures resized { (b : Holding) (was : ℕ) (blocks : Blocks) → B.TreeRead.holds base.now b
            → IsFileIn (holding_over self.old.became b) file was blocks → OnOk result (IsFileResized
            (holding_over self.old.became b) (holding_over self.new.became b) file blocks size) }
        ensures counts { (b : Holding) (was : ℕ) (blocks : Blocks) → B.TreeRead.holds base.now b
            → IsFileIn (holding_over self.old.became b) file was blocks
            → CountsFree self.old b → OnOk result (CountsFree self.new b) }
        ensures names { self.new.names ≡ self.old.names }
        ensures same { OnErr result (self.new ≡ self.old) }
        ensures refused { IfErr result (λ e. e ≡ VolError.Memory) }
    {
        let pages = cut_pages(alloc, &self.view(base), file, size)?;
        self.overlay
            .truncate_blocks(alloc, base, file, size, size / BLOCK_SIZE as u64, pages)
    }

    /// Writes bytes over those of the file at a path from an offset on, and answers how many (pwrite(2)).
    /// Where the offset is past the end, zeros stand between. The blocks that the bytes lie in are stored,
    /// and others as they were.
    ///
    /// Refused by `BadPath` and `BadName` as the path's syntax is, by `NotDir` where a file is on the way, by
    /// `NotFound` where nothing stands, by `IsDir` where a directory does, by `TooBig` where the bytes would
    /// end past 64 MiB, and by `Memory`. Then the tree is as before.
    pub fn write<B: Base>(
        &mut self,
        alloc: Global,
        base: &B,
        path: &[u8],
        offset: u64,
        bytes: &[u8],
    ) -> Result<u64, VolError>
        requires { CanCall (B.TreeRead.holds base.now) self.old }
        ensures done { AnswersAs (B.TreeRead.holds base.now) Answer.Written result self.old self.new
            (λ tree. and_then (path_of path.now) (write tree offset bytes.now)) }
        ensures changes { AltersAs (B.TreeRead.holds base.now) result self.old self.new
            (HasOverwrittenAny path.now offset bytes.now) }
        ensures same { OnErr result (self.new ≡ self.old) }
    {
        let file = find_file(&self.view(base), path)?;
        let count = bytes.len() as u64;
        if count == 0 {
            return Ok(0);
        }
        if count > FILE_LIMIT.saturating_sub(offset) {
            return Err(VolError::TooBig);
        }
        self.write_file(alloc, base, file, offset, bytes)?;
        Ok(count)
    }

    /// Gives the file at a path a size in bytes (truncate(2)). Blocks past the size are gone, and past the
    /// old end there are zeros, none of them stored.
    ///
    /// Refused by `BadPath` and `BadName` as the path's syntax is, by `NotDir` where a file is on the way, by
    /// `NotFound` where nothing stands, by `IsDir` where a directory does, by `TooBig` past 64 MiB, and by
    /// `Memory`. Then the tree is as before.
    pub fn truncate<B: Base>(
        &mut self,
        alloc: Global,
        base: &B,
        path: &[u8],
        size: u64,
    ) -> Result<(), VolError>
        requires { CanCall (B.TreeRead.holds base.now) self.old }
        ensures done { AnswersAs (B.TreeRead.holds base.now) (λ _. Answer.Done) result self.old self.new
            (λ tree. and_then (path_of path.now) (truncate tree size)) }
        ensures changes { AltersAs (B.TreeRead.holds base.now) result self.old self.new
            (HasTruncated path.now size) }
        ensures same { OnErr result (self.new ≡ self.old) }
    {
        let file = find_file(&self.view(base), path)?;
        if size > FILE_LIMIT {
            return Err(VolError::TooBig);
        }
        self.truncate_file(alloc, base, file, size)
    }
}
