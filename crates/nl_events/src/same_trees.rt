//! Trees that are one in two checkpoints, as their roots tell: equal virtual block numbers are equal blocks, so
//! that none of them is read.
ghost use Rattle.std.specs.Prelude.{◌↔◌, IsTrue};
ghost use Rattle.nl_events.specs.SameTrees.{IsOneRoot};

use nl_cpfile::Checkpoints;
use nl_types::CheckpointNumber;

/// Whether two kept checkpoints have one root. It takes no memory.
pub fn is_same_tree(kept: &Checkpoints, old: CheckpointNumber, new: CheckpointNumber) -> bool
    ensures { IsTrue result ↔ IsOneRoot kept.now.table old new }
{
    let Some(one) = kept.kept(old) else {
        return false;
    };
    let Some(other) = kept.kept(new) else {
        return false;
    };
    one.root == other.root
}
