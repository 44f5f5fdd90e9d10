//! Mounts, as their holders have them.
ghost use Rattle.std.specs.Prelude.{◌≡◌, ◌≢◌, MatchResult};
ghost use Rattle.nl_publish.specs.Mounts.{IsClaim};

use crate::history::Front;
use crate::protocol::Volumes;
use nl_types::{CheckpointNumber, MountNumber};
use std::marker::Model;

/// A mount of a shared volume, with the history that it was told of. It is not `Drop`, and none makes a second
/// one of it: `Locked::unmount` takes it, or `spend`, behind the end of its volume.
pub struct Mount<J: Volumes> {
    number: MountNumber,
    checkpoint: CheckpointNumber,
    front: Front<J>,
}

impl<J: Volumes> Model for Mount<J> {
    ghost use Rattle.nl_publish.specs.Mounts.{Claim, IsClaim};

    ghost Value = { Claim };

    ghost view = { λ m. record { number = m.number; checkpoint = m.checkpoint; told = m.front } };

    ghost invariant = { λ m. IsClaim (record {
      number = m.number;
      checkpoint = m.checkpoint;
      told = m.front;
    }) };
}

impl<J: Volumes> Mount<J> {
    /// The mount whose own commit ends a history.
    pub(crate) fn new(
        number: MountNumber,
        checkpoint: CheckpointNumber,
        front: Front<J>,
    ) -> Mount<J>
        requires { IsClaim (record { number = number; checkpoint = checkpoint; told = front }) }
        ensures { result ≡ record { number = number; checkpoint = checkpoint; told = front } }
    {
        Mount {
            number,
            checkpoint,
            front,
        }
    }

    /// Its number.
    pub fn number(&self) -> MountNumber
        ensures { result ≡ self.now.number }
    {
        self.number
    }

    /// What it was told: the history that ends with its own commit.
    pub fn told(&self) -> &Front<J>
        ensures told { result.now ≡ self.now.told }
        ensures claim { IsClaim self.now }
    {
        &self.front
    }

    /// The id of its volume.
    pub fn volume(&self) -> u64
        ensures { result ≡ self.now.told.volume }
    {
        self.front.volume()
    }

    /// The mount, where it is of the volume with an id. Else it is refused.
    pub fn of_volume(self, volume: u64) -> Result<Mount<J>, RefusedMount<J>>
        ensures { MatchResult result (λ m. (m ≡ self) × (self.told.volume ≡ volume))
            (λ r. (r ≡ self) × (self.told.volume ≢ volume)) }
    {
        if self.volume() != volume {
            return Err(RefusedMount::new(self));
        }
        Ok(self)
    }

    /// Lets go of a mount that was given back by its number, or that the end of its volume has taken out.
    pub fn spend(self, _gone: &Gone) {
        let Mount {
            number: _,
            checkpoint: _,
            front: _front,
        } = self;
    }
}

/// That a mount was given back by its number, or that a volume has ended.
#[derive(Clone, Copy)]
pub struct Gone(());

impl Gone {
    pub(crate) fn new() -> Gone {
        Gone(())
    }
}

/// A mount that its volume refused to take back. It is not `Drop` either.
pub struct RefusedMount<J: Volumes> {
    mount: Mount<J>,
}

impl<J: Volumes> Model for RefusedMount<J> {
    ghost use Rattle.nl_publish.specs.Mounts.{Claim};

    ghost Value = { Claim };

    ghost view = { λ r. r.mount };
}

impl<J: Volumes> RefusedMount<J> {
    pub(crate) fn new(mount: Mount<J>) -> RefusedMount<J>
        ensures { result ≡ mount }
    {
        RefusedMount { mount }
    }

    /// The mount, which still has to be given back.
    pub fn again(self) -> Mount<J>
        ensures { result ≡ self }
    {
        let RefusedMount { mount } = self;
        mount
    }

    /// Lets go of the mount. Its checkpoint stays mounted until the volume ends.
    pub fn spend(self) {
        self.again().spend(&Gone::new());
    }
}
