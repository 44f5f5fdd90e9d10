//! Reading of trees by inode numbers.
ghost use Rattle.std.specs.Prelude.{◌≡◌, ◌+◌, ◌<◌, ◌^◌, List, IfOk, IfErr, MatchOption, Some, length, option_copied};
ghost use Rattle.nl_types.specs.Plain.Limits as limits;
ghost use Rattle.nl_types.specs.Inodes.{AreInUseFrom, IsLowestFreeInode};
ghost use Rattle.nl_dirs.specs.declared.record.Record.{Record};
ghost use Rattle.nl_tree.specs.Held.{Holding, Listed, held_block, held_count, held_record, held_size};
ghost use Rattle.nl_tree.specs.Reading.{AreBytesFrom};

use nl_dirs::Record;
use nl_types::{InodeNumber, Kind, Page, VolError};
use std::alloc::Global;

/// What a name of a directory stands for: an inode and its kind.
pub type Link = (InodeNumber, Kind);

/// What the inodes in use hold, of a checkpoint or of the current tree. All but `records` take no memory.
pub trait TreeRead {
    /// What they hold, where the tree is sound.
    ghost holds: { Self → Holding → Type 0 };

    /// What a directory has under a name.
    fn find(&self, dir: InodeNumber, name: &[u8]) -> Option<Link>
        ensures { (held : Holding) → holds self.now held → result ≡ held_record (held dir) name.now };

    /// The size of a file in bytes.
    fn size(&self, file: InodeNumber) -> u64
        ensures { (held : Holding) → holds self.now held → result ≡ held_size (held file) };

    /// The page of a file at a block index, where it is stored.
    fn block(&self, file: InodeNumber, index: u64) -> Option<&Page>
        ensures { (held : Holding) → holds self.now held
            → option_copied result ≡ held_block (held file) index };

    /// Fills the slice with the bytes of a file from an offset on. Blocks that aren't stored are zeros.
    fn read_bytes(&self, file: InodeNumber, offset: u64, into: &mut [u8])
        requires { offset + length into.old < 2 ^ 64 }
        ensures { (held : Holding) → holds self.now held
            → AreBytesFrom (held_block (held file)) offset into.new };

    /// How many names a directory has.
    fn name_count(&self, dir: InodeNumber) -> u64
        ensures { (held : Holding) → holds self.now held → result ≡ held_count (held dir) };

    /// All records of a directory, in the order of their names. Refused by `Memory` alone.
    fn records(&self, alloc: Global, dir: InodeNumber) -> Result<Vec<Record>, VolError>
        ensures all { (held : Holding) (records : List Record) → holds self.now held
            → held dir ≡ Some (Listed records) → IfOk result (λ all. all.items ≡ records) }
        ensures refused { IfErr result (λ e. e ≡ VolError.Memory) };
}

/// The latest checkpoint, as the current tree lies over it.
pub trait Base: TreeRead {
    /// The lowest free inode number from one on.
    fn free_from(&self, from: InodeNumber) -> Option<InodeNumber>
        ensures { (held : Holding) → Self.holds self.now held
            → MatchOption result (AreInUseFrom held from limits.inode_limit) (IsLowestFreeInode held from) };
}
