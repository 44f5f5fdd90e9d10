//! Packing the records of a directory into blocks.
ghost use Rattle.std.specs.Prelude.{◌≡◌, IfOk, IfErr};
ghost use Rattle.nl_types.specs.declared.error.VolError;
ghost use Rattle.nl_dirs.specs.Records.{AllHaveSpelling};
ghost use Rattle.nl_dirs.specs.Packing.{Packs};

use crate::record::Record;
use nl_types::{BLOCK_SIZE, Block, VolError};
use std::alloc::Global;

/// The blocks of a directory with these records, which are given in the order of their names: each block has
/// as many records as fit, no record crosses a block, and the rest of a block is zero. A directory without
/// records has no block.
///
/// Refused by `Memory` alone.
pub fn pack(alloc: Global, records: &[Record]) -> Result<Vec<Block>, VolError>
    requires { AllHaveSpelling records.now }
    ensures ok { IfOk result (λ blocks. Packs records.now blocks.items) }
    ensures err { IfErr result (λ e. e ≡ VolError.Memory) }
{
    let mut blocks = Vec::new(alloc);
    let mut filling = Filling::new();
    for record in records {
        if !filling.has_room(record) {
            blocks.push(filling.take())?;
        }
        filling.add(record);
    }
    if !filling.is_empty() {
        blocks.push(filling.take())?;
    }
    Ok(blocks)
}

/// A block that is being filled with records.
#[derive(Drop)]
struct Filling {
    bytes: [u8; BLOCK_SIZE],
    used: usize,
}

impl Filling {
    ghost use Rattle.std.specs.Prelude.{◌==◌, ◌++◌, ◌∷◌, [], ◌+◌, ◌≤◌, List, nat_le};
    ghost use Rattle.nl_dirs.specs.declared.record.Record.{Record};
    ghost use Rattle.nl_dirs.specs.Records.{RecordHasSpelling, size_of};
    ghost use Rattle.nl_dirs.specs.Packing.{IsFilled};

    fn new() -> Self
        ensures { IsFilled result.bytes result.used [] }
    {
        Filling {
            bytes: [0; BLOCK_SIZE],
            used: 0,
        }
    }

    fn is_empty(&self) -> bool
        ensures { result ≡ (self.now.used == 0) }
    {
        self.used == 0
    }

    /// Whether a record fits behind the others.
    fn has_room(&self, next: &Record) -> bool
        requires fits { RecordHasSpelling next.now }
        requires used { self.now.used ≤ 1024 }
        ensures { result ≡ nat_le (self.now.used + size_of next.now) 1024 }
    {
        next.size() <= BLOCK_SIZE - self.used
    }

    /// Puts a record behind the others.
    fn add(&mut self, next: &Record)
        requires fits { RecordHasSpelling next.now }
        requires room { self.old.used + size_of next.now ≤ 1024 }
        ensures { (records : List Record) → IsFilled self.old.bytes self.old.used records →
            IsFilled self.new.bytes self.new.used (records ++ next.now ∷ []) }
    {
        next.write(&mut self.bytes[self.used..]);
        self.used += next.size();
    }

    /// The block as it is filled now. Filling goes on with an empty one.
    fn take(&mut self) -> Block
        ensures block { result ≡ self.old.bytes }
        ensures empty { IsFilled self.new.bytes self.new.used [] }
    {
        let block = Block::new(self.bytes);
        *self = Filling::new();
        block
    }
}
