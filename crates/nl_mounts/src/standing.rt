//! How a mount stands for a port.
ghost use Rattle.std.specs.Prelude.{◌≡◌};
ghost use Rattle.nl_publish.specs.Reading.{IsLater};
ghost use Rattle.nl_mounts.specs.Ports.{IsUngiven, seeing};
ghost use Rattle.nl_mounts.specs.Standings.{StandsAs, standing_of};

use crate::enters::Enters;
use crate::looks::MountedTree;
use crate::port::Port;
use nl_publish::{Mount, Volumes};

/// How a mount stands for a port: why a read through it is refused by `BadMount`, or that it isn't.
#[derive(Clone, Copy, PartialEq, Eq)]
pub enum Standing {
    /// The state that the port enters shows it.
    Mounted,
    /// The port is given no state that is as new as what it has seen: its volume has ended.
    Ended,
    /// It is another volume's.
    Foreign,
    /// The state that the port enters lacks it.
    GivenBack,
}

/// How a mount of a port's volume stands, by the tree that it has in the state that was entered.
fn standing_of(tree: Option<MountedTree>) -> Standing
    ensures { result ≡ standing_of tree }
{
    match tree {
        None => Standing::GivenBack,
        Some(_) => Standing::Mounted,
    }
}

impl<J: Volumes, E: Enters> Port<J, E> {
    /// How a mount stands in the state that the port enters. It takes no memory, and never waits.
    pub fn standing(&mut self, mount: &Mount<J>) -> Standing
        ensures later { IsLater self.old.known self.new.known }
        ensures stands { StandsAs mount.now self.old.known self.new.known
            (IsUngiven E.gives self.old.known self.old.seated) result }
        ensures kept { self.new ≡ seeing self.old self.new.known }
    {
        if mount.volume() != self.volume() {
            return Standing::Foreign;
        }
        match self.look(mount) {
            Err(_) => Standing::Ended,
            Ok(look) => {
                let standing = standing_of(look.tree());
                self.come_back(look);
                standing
            }
        }
    }
}
