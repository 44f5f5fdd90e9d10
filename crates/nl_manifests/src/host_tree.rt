//! Trees of the host, which have attributes and symbolic links.
use crate::attributes::Attributes;
use nl_folders::Path;
use nl_types::Items;

/// What stands at a path of the host.
#[derive(Drop)]
pub enum HostObject {
    Directory,
    File(Items<u8>),
    /// A symbolic link with its target: some bytes without NUL.
    Link(Items<u8>),
}

/// The same with its attributes, where they are known.
#[derive(Drop)]
pub struct HostEntry {
    pub object: HostObject,
    pub attributes: Option<Attributes>,
}

/// The directories, files and links of a folder with their paths, ascending. The root is among them.
pub type HostTree = Items<(Path, HostEntry)>;

/// Why a line of a manifest shows nothing.
#[derive(Clone, Copy)]
pub enum LineFault {
    /// Its name can't stand in a path: it has a slash, or is `.` or `..`.
    BadName,
    /// It is a file's, and no file stands there.
    NoFile,
    /// It is a link's, and a file or a directory stands there.
    Taken,
}

/// What a tree of a volume shows of the host.
#[derive(Drop)]
pub struct Opened {
    pub tree: HostTree,
    /// The lines of manifests that show nothing, with the paths that they are for: in the order of the
    /// directories, and by names in each.
    pub refused: Items<(Path, LineFault)>,
}
