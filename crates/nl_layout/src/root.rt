//! Where the blocks of a file begin.
ghost use Rattle.std.specs.Prelude.{◌≡◌, ◌≤◌, Some};
ghost use Rattle.nl_layout.specs.Root.{fields_of, root_told};

use crate::level::Level;
use nl_types::VirtualNumber;

/// The root of a file, a directory or the file of inodes.
#[derive(Clone, Copy, PartialEq, Eq)]
pub enum Root {
    /// No block.
    Empty,
    /// The first node of a chain.
    Chain(VirtualNumber),
    /// The topmost node of a tree, and its level.
    Tree(Level, VirtualNumber),
}

/// What the fields of an inode tell of its root, whether a root may be so or not.
#[derive(Clone, Copy, PartialEq, Eq)]
pub struct RootFields {
    pub kind: u8,
    pub height: u8,
    pub number: VirtualNumber,
}

impl Root {
    /// The one spelling of the root, from which `RootFields::root` gives it back.
    pub fn fields(self) -> RootFields
        ensures fields { result ≡ fields_of self }
        ensures back { root_told result ≡ Some self }
        ensures low { result.height ≤ 3 }
    {
        match self {
            Root::Empty => RootFields {
                kind: 0,
                height: 0,
                number: VirtualNumber::new(0),
            },
            Root::Chain(first) => RootFields {
                kind: 1,
                height: 0,
                number: first,
            },
            Root::Tree(height, top) => RootFields {
                kind: 2,
                height: height.get(),
                number: top,
            },
        }
    }
}

impl RootFields {
    /// The root that the fields spell. None where they spell none: another kind than 0, 1 and 2, a height
    /// that isn't a tree's, a tree higher than 3, or a number of an empty root.
    pub fn root(self) -> Option<Root>
        ensures { result ≡ root_told self }
    {
        match self.kind {
            0 if self.height == 0 && self.number.get() == 0 => Some(Root::Empty),
            1 if self.height == 0 => Some(Root::Chain(self.number)),
            2 if self.height <= 3 => Some(Root::Tree(Level::new(self.height), self.number)),
            _ => None,
        }
    }
}
