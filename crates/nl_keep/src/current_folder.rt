//! The current tree of a volume as a folder.
use crate::asking::{bytes_of, listing_of, names_of, whole_file};
use crate::volume::{Volume, applied};
use nl_folders::{Folder, FolderError};
use nl_names::Name;
use nl_types::{Event, Items, Named};
use std::alloc::Global;

/// The current tree of a volume. Reading it leaves every world as it was.
#[derive(Drop)]
pub(crate) struct CurrentFolder<V: Volume> {
    pub(crate) volume: V,
}

impl<V: Volume> Folder for CurrentFolder<V> {
    ghost use Rattle.nl_keep.specs.Facts.Staying.{stays_itself, stays_on};
    ghost use Rattle.nl_keep.specs.Shown.{ShowsCurrent};
    ghost use Rattle.nl_keep.specs.Volumes.{LeadsTo, Stays};

    ghost shows = { λ f. ShowsCurrent (V.means f.volume) };

    ghost keeps = { λ f g. LeadsTo Stays (V.means f.volume) (V.means g.volume) };

    ghost keeps_itself = { λ f. stays_itself (V.means f.volume) };

    ghost keeps_on = { λ f g h. stays_on (V.means f.volume) (V.means g.volume) (V.means h.volume) };

    fn list(&mut self, alloc: Global, path: &[Name]) -> Result<Items<Named>, FolderError> {
        let ask = listing_of(alloc, path)?;
        let reply = applied(&mut self.volume, Event::Read(ask));
        names_of(reply)
    }

    fn read(&mut self, alloc: Global, path: &[Name]) -> Result<Items<u8>, FolderError> {
        let ask = whole_file(alloc, path)?;
        let reply = applied(&mut self.volume, Event::Read(ask));
        bytes_of(reply)
    }
}
