//! Whether there is room for the next checkpoint.
ghost use Rattle.std.specs.Prelude.{ℕ, IfOk, IsOkUnless};
ghost use Rattle.nl_tree.specs.Weights.{IsNoLess};
ghost use Rattle.nl_events.specs.Rooms.{HasRoom, HasToWrite};

use crate::parts::Parts;
use nl_types::VolError;
use nl_vstore::Vstore;

/// What the next checkpoint takes of the room that there is, in blocks. It is refused by `NoSpace` exactly
/// where it takes more.
#[derive(Clone, Copy)]
pub struct Room {
    /// How many it has to write.
    pub blocks: usize,
    /// How many it has room for. It leaves two clean segments.
    pub free: usize,
}

impl<V: Vstore> Parts<V> {
    /// How many blocks the next checkpoint has to write. Refused by `Memory` alone.
    fn blocks_to_write(&self) -> Result<usize, VolError>
        ensures blocks { IfOk result (HasToWrite self.now) }
        ensures refused { IsOkUnless result VolError.Memory }
    {
        self.tables.blocks_to_write(self.alloc, &self.store)
    }

    /// How many blocks the next checkpoint has to write, and how many it has room for. It takes as much time
    /// and memory as the checkpoint without its writes: what changed since the latest one. Refused by
    /// `Memory` alone.
    pub fn room(&self) -> Result<Room, VolError>
        ensures room { IfOk result (HasRoom self.now) }
        ensures refused { IsOkUnless result VolError.Memory }
    {
        let blocks = self.blocks_to_write()?;
        let free = self.store.table().room(true);
        Ok(Room { blocks, free })
    }

    /// No fewer blocks than the next checkpoint has to write, as far as a `usize` goes: without a draft and
    /// without memory, in constant time.
    pub fn room_bound(&self) -> usize
        ensures { (blocks : ℕ) → HasToWrite self.now blocks → IsNoLess blocks result }
    {
        nl_files::laws::settlings_are_few();
        self.tables.room_bound()
    }
}
