//! Reading a file's blocks one after another.
ghost use Rattle.std.specs.Prelude.{◌≡◌, ◌≢◌, ◌/◌, ℕ, false, option_copied};
ghost use Rattle.nl_types.specs.Blocks.Roots.{Tree, page_at, place_at};
ghost use Rattle.nl_layout.specs.Root.{root_of};
ghost use Rattle.nl_blocktree.specs.Private.Chains.{slots_below};

use crate::read::{DATA_SLOTS, child_of, data_at, node_at, node_behind, page_under};
use nl_layout::{Root, SLOTS};
use nl_types::{Page, VirtualNumber};
use nl_vstore::VRead;

/// Reads the blocks of a file: for indices that ascend it goes to each node above data once, of a chain from
/// the one before it, and of a tree from the top.
#[derive(Drop)]
pub struct Cursor<'a, V: VRead> {
    /// What it reads.
    pub store: &'a V,
    pub root: Root,
    position: u64,
    /// The node at the position.
    node: Option<VirtualNumber>,
    ghost stands: { node ≡ place_at (V.pages store.now) (root_of root) 1 position },
}

impl<'a, V: VRead> Cursor<'a, V> {
    pub fn new(store: &'a V, root: Root) -> Self
        ensures store { result.store.now ≡ store.now }
        ensures root { result.root ≡ root }
    {
        let start = root;
        let node = node_at(store, start, 0);
        Cursor {
            store,
            root,
            position: 0,
            node,
        }
    }

    /// The page of the file at an index, as `get` answers it. It takes no memory.
    pub fn page_at(&mut self, index: u64) -> Option<&'a Page>
        ensures page { option_copied result ≡
            page_at (V.pages self.old.store.now) (root_of self.old.root) index }
        ensures store { self.new.store.now ≡ self.old.store.now }
        ensures root { self.new.root ≡ self.old.root }
    {
        let store = self.store;
        let position = index / slots_of(self.root);
        let node = node_from(store, self.root, self.position, self.node, position);
        *self = Cursor {
            store,
            root: self.root,
            position,
            node,
        };
        page_under(store, number_under(store, self.root, self.node, index))
    }
}

/// How many blocks of data stand below a node of a root.
fn slots_of(root: Root) -> u64
    ensures { result ≡ slots_below (root_of root) }
{
    match root {
        Root::Chain(_) => DATA_SLOTS as u64,
        _ => SLOTS as u64,
    }
}

/// The number of the data at an index of a root, where the node above it is given.
fn number_under<V: VRead>(
    store: &V,
    root: Root,
    node: Option<VirtualNumber>,
    index: u64,
) -> Option<VirtualNumber>
    requires { node ≡ place_at (V.pages store.now) (root_of root) 1 (index / slots_below (root_of root)) }
    ensures { result ≡ place_at (V.pages store.now) (root_of root) 0 index }
{
    let read = &root;
    if is_bare(*read) {
        return data_at(store, *read, index);
    }
    child_of(store, (index % slots_of(*read)) as usize, node)
}

/// Whether a root is a tree without nodes: none that can be in use is.
fn is_bare(root: Root) -> bool
    ensures { result ≡ false → (top : ℕ) → root_of root ≢ Tree 0 top }
{
    match root {
        Root::Empty => false,
        Root::Chain(_) => false,
        Root::Tree(height, _) => height.get() == 0,
    }
}

/// The node of a root at a position, where the node at a known position is given.
pub(crate) fn node_from<V: VRead>(
    store: &V,
    root: Root,
    known: u64,
    node: Option<VirtualNumber>,
    position: u64,
) -> Option<VirtualNumber>
    requires { node ≡ place_at (V.pages store.now) (root_of root) 1 known }
    ensures { result ≡ place_at (V.pages store.now) (root_of root) 1 position }
{
    if position == known {
        return node;
    }
    match root {
        Root::Chain(_) if known < position => node_behind(store, node, position - known),
        _ => node_at(store, root, position),
    }
}
