//! What a port tells without a mount: which checkpoints are kept, and what the tree of each answers.
ghost use Rattle.std.specs.Prelude.{◌≡◌};
ghost use Rattle.nl_publish.specs.Reading.{IsLater};
ghost use Rattle.nl_mounts.specs.Ports.{IsUngiven, seeing};
ghost use Rattle.nl_mounts.specs.Visiting.{IsListingOf, IsReadOfKept, Visited};

use crate::enters::Enters;
use crate::port::Port;
use nl_files::ReadTree;
use nl_publish::{ReaderState, Volumes};
use nl_tree::answer;
use nl_types::{Ask, CheckpointNumber, Items, ListOptions, Reply, Row, VolError};
use std::alloc::Global;

/// The rows of a listing of a state's checkpoints. Refused by `Memory` alone.
fn rows_in(
    alloc: Global,
    state: &ReaderState,
    options: &ListOptions,
) -> Result<Items<Row>, VolError>
    ensures { IsListingOf options.now result state.now.tables }
{
    let rows = state.tables.checkpoints().listing(alloc, options)?;
    Ok(rows)
}

/// What the tree of a state's checkpoint answers.
fn read_kept(alloc: Global, state: &ReaderState, number: CheckpointNumber, ask: &Ask) -> Reply
    ensures { IsReadOfKept number ask.now result state.now.tables }
{
    match state.tables.kept(number) {
        Some(checkpoint) => answer(alloc, &ReadTree::new(&state.tables, checkpoint.root), ask),
        None => Err(VolError::NoCheckpoint),
    }
}

impl<J: Volumes, E: Enters> Port<J, E> {
    /// The kept checkpoints of the state that the port enters, as a listing of the pen tells them. It takes no
    /// lock, and never waits.
    ///
    /// # Errors
    /// `BadMount` where the port is given no state that is as new as what it has seen, as once its volume has
    /// ended; `Memory`.
    pub fn checkpoints(
        &mut self,
        alloc: Global,
        options: &ListOptions,
    ) -> Result<Items<Row>, VolError>
        ensures later { IsLater self.old.known self.new.known }
        ensures visited { Visited self.old.known self.new.known
            (IsUngiven E.gives self.old.known self.old.seated)
            (result ≡ Err VolError.BadMount) (IsListingOf options.now result) }
        ensures kept { self.new ≡ seeing self.old self.new.known }
    {
        match self.visit() {
            Err(refusal) => Err(refusal),
            Ok(look) => {
                let result = rows_in(alloc, look.state(), options);
                self.come_back(look);
                result
            }
        }
    }

    /// What the tree of a kept checkpoint answers in the state that the port enters, without a mount: of a
    /// plain one too, and of a minor one, as `Pen::read_at` does. It takes no lock, and never waits. Another
    /// call may find the checkpoint gone: who reads more than once mounts a snapshot.
    ///
    /// # Errors
    /// `BadMount` as `checkpoints`, before all else; `NoCheckpoint` where it isn't kept; those of the call;
    /// `Memory`, but for `stat`, which takes none.
    pub fn read_at(&mut self, alloc: Global, number: CheckpointNumber, ask: &Ask) -> Reply
        ensures later { IsLater self.old.known self.new.known }
        ensures visited { Visited self.old.known self.new.known
            (IsUngiven E.gives self.old.known self.old.seated)
            (result ≡ Err VolError.BadMount) (IsReadOfKept number ask.now result) }
        ensures kept { self.new ≡ seeing self.old self.new.known }
    {
        match self.visit() {
            Err(refusal) => Err(refusal),
            Ok(look) => {
                let result = read_kept(alloc, look.state(), number, ask);
                self.come_back(look);
                result
            }
        }
    }
}
