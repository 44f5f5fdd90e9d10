//! How many blocks a checkpoint of the current tree writes at most.
ghost use Rattle.std.specs.Prelude.{◌≡◌};
ghost use Rattle.nl_tree.specs.Weights.{IsNoLess};
ghost use Rattle.nl_files.specs.Bounds.{most_births};

use nl_tree::CurrentTree;

/// How many nodes the file of inodes has at most, above its 65,536 blocks.
const INODE_FILE_NODES: usize = 523;

/// How many blocks a checkpoint of the tree writes at most. It takes constant time, and no memory.
pub fn most_births(tree: &CurrentTree) -> usize
    ensures { IsNoLess (most_births tree.now.became) result }
{
    tree.weight().saturating_add(INODE_FILE_NODES)
}
