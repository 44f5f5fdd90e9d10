//! The volume of an image that is looked at, and its trees.
use crate::amounts::size_at;
use crate::asking::Clock;
use crate::checkpoints::kept_number;
use crate::complaining::complain;
use crate::faults::{Fault, fault_at, read_fault, told, tree_fault, volume_fault};
use crate::images::{open_image, read_image};
use crate::moments::shown;
use crate::parts::path_said;
use crate::printing::Seen;
use nl_core::Pen;
use nl_device::MemDevice;
use nl_folders::{FolderError, Path, Tree, copied, find_in};
use nl_keep_pen::{OpenedVolume, PenVolume, ShownDifferences, is_manifest_path};
use nl_manifests::{HostEntry, HostObject, HostTree, Opened, open};
use nl_names::Name;
use nl_pins::{Pins, is_of_pins, without_pins};
use nl_types::{CheckpointNumber, Items, Object, Row, VolError};
use std::alloc::{AllocError, Global};

/// The volume of an image.
#[derive(Drop)]
pub struct View<'a> {
    /// Where the image stands.
    pub path: &'a str,
    volume: OpenedVolume,
    /// What is told of its checkpoints, of the minor ones too.
    pub rows: Items<Row>,
}

/// What a command makes at the moment that is asked for.
#[derive(Clone, Copy)]
pub enum Made {
    /// The next checkpoint.
    Checkpoint,
    /// A minor one, where a round of cleaning moves blocks.
    Minor,
}

impl Made {
    fn text(self) -> &'static str {
        match self {
            Made::Checkpoint => "this one",
            Made::Minor => "one that cleaning makes",
        }
    }
}

/// The stamp of the latest of the checkpoints.
pub fn latest_stamp(rows: &[Row]) -> u64 {
    match rows {
        [.., row] => row.stamp,
        [] => 0,
    }
}

/// Tells a person that the latest checkpoint of a volume is later than the clock, where it is. `path` is
/// where its image stands.
pub fn tell_late(
    rt: &HostRuntime,
    path: &str,
    rows: &[Row],
    clock: &Clock<'_>,
) -> Result<(), Fault> {
    let latest = latest_stamp(rows);
    if latest > clock.now {
        let date = shown(rt.alloc(), &clock.zone, latest)?;
        complain(
            rt,
            format_args!(
                "{path}: the latest checkpoint is of {date}, which the clock has not reached"
            ),
        );
    }
    Ok(())
}

/// Tells a person that the latest checkpoint is later than the moment that is asked for, where it is: what is
/// made has its date. Where the clock has not reached that either, it is told as such.
pub fn tell_earlier(
    rt: &HostRuntime,
    path: &str,
    rows: &[Row],
    clock: &Clock<'_>,
    moment: u64,
    made: Made,
) -> Result<(), Fault> {
    let latest = latest_stamp(rows);
    if moment < latest && latest <= clock.now {
        let date = shown(rt.alloc(), &clock.zone, latest)?;
        let what = made.text();
        complain(
            rt,
            format_args!(
                "{path}: the latest checkpoint is of {date}, later than --at, so {what} is too"
            ),
        );
    }
    Ok(())
}

impl<'a> View<'a> {
    /// What is to be seen of the volume of an image. `path` is where that stands.
    pub fn silent(alloc: Global, path: &'a str, image: &[u8]) -> Result<View<'a>, Fault> {
        let mut volume = open_image(alloc, path, image)?;
        match volume.rows() {
            Ok(rows) => Ok(View { path, volume, rows }),
            Err(error) => Err(volume_fault(alloc, path, error)),
        }
    }

    /// The same of the image at a path.
    pub fn at(rt: &HostRuntime, path: &'a str) -> Result<View<'a>, Fault> {
        let image = read_image(rt, path)?;
        View::silent(rt.alloc(), path, image.as_slice())
    }

    /// What is to be seen of the volume of an image. A late date is told.
    pub fn of(
        rt: &HostRuntime,
        path: &'a str,
        image: &[u8],
        clock: &Clock<'_>,
    ) -> Result<View<'a>, Fault> {
        let view = View::silent(rt.alloc(), path, image)?;
        view.tell_late(rt, clock)?;
        Ok(view)
    }

    /// The same of the image at a path.
    pub fn read(rt: &HostRuntime, path: &'a str, clock: &Clock<'_>) -> Result<View<'a>, Fault> {
        let image = read_image(rt, path)?;
        View::of(rt, path, image.as_slice(), clock)
    }

    /// Tells a person that the latest checkpoint is later than the clock, where it is.
    pub fn tell_late(&self, rt: &HostRuntime, clock: &Clock<'_>) -> Result<(), Fault> {
        tell_late(rt, self.path, self.rows.as_slice(), clock)
    }

    pub fn volume(&self) -> &PenVolume<MemDevice> {
        self.volume.volume()
    }

    pub fn pen(&self) -> &Pen<MemDevice> {
        &self.volume().pen
    }

    /// The kept checkpoint that a word means.
    pub fn number(
        &self,
        alloc: Global,
        word: &str,
        clock: &Clock<'_>,
    ) -> Result<CheckpointNumber, Fault> {
        kept_number(alloc, word, self.rows.as_slice(), clock)
    }

    /// The tree of a kept checkpoint, without its pins.
    pub fn tree_of(&self, alloc: Global, number: CheckpointNumber) -> Result<Tree, Fault> {
        match self.volume.tree(alloc, number) {
            Ok(tree) => Ok(without_pins(alloc, tree)?),
            Err(error) => Err(read_fault(alloc, self.path, error)),
        }
    }

    /// The bytes of the file that has the pins of the volume, none where there is no such file. Pins are read
    /// of the current tree alone.
    pub fn pins_file(&self, alloc: Global) -> Result<Option<Items<u8>>, Fault> {
        match self.volume.pins(alloc) {
            Ok(pins) => Ok(pins),
            Err(error) => Err(read_fault(alloc, self.path, error)),
        }
    }

    /// What is pinned. None where the file of pins is none.
    pub fn pins(&self, alloc: Global) -> Result<Option<Pins>, Fault> {
        match self.pins_file(alloc)? {
            Some(bytes) => Ok(Pins::read(alloc, bytes.as_slice())?),
            None => Ok(Some(Pins::none(alloc))),
        }
    }

    /// What the checkpoint shows that a word means.
    pub fn opened(&self, alloc: Global, word: &str, clock: &Clock<'_>) -> Result<Opened, Fault> {
        let number = self.number(alloc, word, clock)?;
        let tree = self.tree_of(alloc, number)?;
        Ok(open(alloc, tree.as_slice())?)
    }

    /// What a kept checkpoint shows, but for the bytes of files: of these, manifests alone are read.
    pub fn shown(&self, alloc: Global, number: CheckpointNumber) -> Result<Opened, Fault> {
        match self.volume.unread(alloc, number) {
            Ok(opened) => Ok(opened),
            Err(error) => Err(tree_fault(alloc, self.path, error)),
        }
    }

    /// The same without the lines of manifests that show nothing.
    pub fn shown_tree(&self, alloc: Global, number: CheckpointNumber) -> Result<HostTree, Fault> {
        Ok(self.shown(alloc, number)?.tree)
    }

    /// The bytes of the file at the path that a word says, of a kept checkpoint.
    pub fn file(
        &self,
        alloc: Global,
        number: CheckpointNumber,
        word: &str,
    ) -> Result<Items<u8>, Fault> {
        let path = path_said(alloc, word)?;
        match self.volume.file(alloc, number, path.as_slice()) {
            Ok(bytes) => Ok(bytes),
            Err(FolderError::Refused(VolError::IsDir)) => {
                Err(fault_at(alloc, word, "is a folder"))
            }
            Err(FolderError::Refused(error)) if is_of_no_entry(error) => {
                let shown = self.shown_tree(alloc, number)?;
                Err(no_file_fault(alloc, word, find_in(shown.as_slice(), path.as_slice())))
            }
            Err(error) => Err(tree_fault(alloc, self.path, error)),
        }
    }

    /// What two kept checkpoints show, but for the bytes of files, and all that differs between what they show. No
    /// file is read that both have by one inode.
    pub fn differences(
        &self,
        alloc: Global,
        old: CheckpointNumber,
        new: CheckpointNumber,
    ) -> Result<ShownDifferences, Fault> {
        match self.volume.differences(alloc, old, new) {
            Ok(differences) => Ok(differences),
            Err(error) => Err(tree_fault(alloc, self.path, error)),
        }
    }

    /// The checkpoints of a list of which something at or below a path is other than at the one before.
    pub fn changes(
        &self,
        alloc: Global,
        numbers: &[CheckpointNumber],
        path: &[Name],
    ) -> Result<Items<CheckpointNumber>, Fault> {
        match self.volume.changes(alloc, numbers, path) {
            Ok(changes) => Ok(changes),
            Err(error) => Err(tree_fault(alloc, self.path, error)),
        }
    }

    /// How many bytes the file at a path of a kept checkpoint has.
    fn size(&self, alloc: Global, number: CheckpointNumber, path: &[Name]) -> Result<u64, Fault> {
        match size_at(alloc, self.volume(), number, path) {
            Ok(size) => Ok(size.unwrap_or(0)),
            Err(error) => Err(volume_fault(alloc, self.path, error)),
        }
    }

    /// An entry that a kept checkpoint shows at a path, with the bytes of a file.
    pub fn seen_entry<'t>(
        &self,
        alloc: Global,
        number: CheckpointNumber,
        path: &[Name],
        entry: &'t HostEntry,
    ) -> Result<Seen<'t>, Fault> {
        let size = match &entry.object {
            HostObject::File(_) => self.size(alloc, number, path)?,
            _ => 0,
        };
        Ok(Seen { entry, size })
    }

    /// What a kept checkpoint shows at a path, if anything, by all that it shows.
    pub fn seen<'t>(
        &self,
        alloc: Global,
        number: CheckpointNumber,
        shown: &'t [(Path, HostEntry)],
        path: &[Name],
    ) -> Result<Option<Seen<'t>>, Fault> {
        match find_in(shown, path) {
            Some(entry) => Ok(Some(self.seen_entry(alloc, number, path, entry)?)),
            None => Ok(None),
        }
    }

    /// The tree of the latest checkpoint of all, without its pins.
    pub fn present_tree(&self, alloc: Global) -> Result<Tree, Fault> {
        self.tree_of(alloc, self.pen().latest())
    }
}

/// That no file stands at the path that a word says, but a link, or nothing.
fn no_file_fault(alloc: Global, word: &str, entry: Option<&HostEntry>) -> Fault {
    match entry.map(|entry| &entry.object) {
        Some(HostObject::Link(target)) => link_fault(alloc, word, target.as_slice()),
        _ => fault_at(alloc, word, "nothing is there"),
    }
}

fn link_fault(alloc: Global, word: &str, target: &[u8]) -> Fault {
    match String::from_utf8_lossy(alloc, target) {
        Ok(target) => { told(format!(in alloc; "{word}: is a link to {target}")) }
        Err(_) => Fault::Memory,
    }
}

/// Whether a read is refused so where nothing stands at its path.
fn is_of_no_entry(error: VolError) -> bool {
    matches!(
        error,
        VolError::NotFound | VolError::NotDir | VolError::BadName | VolError::BadPath
    )
}

/// What a tree has at a path, but for the bytes of a file that is no manifest.
fn object_alone(alloc: Global, path: &[Name], object: &Object) -> Result<Object, AllocError> {
    match object {
        Object::Dir => Ok(Object::Dir),
        Object::File(bytes) if is_manifest_path(path) => {
            Ok(Object::File(Items::from_slice(alloc, bytes.as_slice())?))
        }
        Object::File(_) => Ok(Object::File(Items::new(alloc))),
    }
}

/// What a tree shows, but for the bytes of files. Pins are no part of it.
pub fn shown_alone(alloc: Global, tree: &[(Path, Object)]) -> Result<HostTree, AllocError> {
    let mut alone = Items::new(alloc);
    for (path, object) in tree {
        let path = path.as_slice();
        if !is_of_pins(path) {
            alone.push((copied(alloc, path)?, object_alone(alloc, path, object)?))?;
        }
    }
    Ok(open(alloc, alone.as_slice())?.tree)
}
