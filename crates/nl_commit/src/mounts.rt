//! Mounts of snapshots.
ghost use Rattle.std.specs.Prelude.{◌≡◌, ◌<◌, [], ◌∷◌, ◌++◌, IfOk, MatchResult, map};
ghost use Rattle.std.specs.List.{filter};
ghost use Rattle.std.specs.Ordering.{nat_cmp};
ghost use Rattle.std.specs.FinMap.{find};
ghost use Rattle.nl_commit.specs.MountTables.{AreGiven, AreRising};
ghost use Rattle.nl_commit.specs.Volume.{is_other_mount, mount_of};
ghost use Rattle.nl_types.specs.Plain.Worlds as worlds;

use nl_types::{CheckpointNumber, MountNumber};
use std::alloc::{AllocError, Global};
use std::marker::Model;

/// A mount of a snapshot.
#[derive(Clone, Copy)]
pub struct Mounted {
    pub number: MountNumber,
    pub checkpoint: CheckpointNumber,
}

/// Mounts, ascending by their numbers, and the last number that was given.
#[derive(Drop)]
pub struct Mounts {
    each: Vec<Mounted>,
    given: u64,
}

impl Model for Mounts {
    ghost use Rattle.nl_commit.specs.MountTables.{AreGiven, MountTable};

    ghost Value = { MountTable };

    ghost view = { λ m. record { mounts = m.each.items; given = m.given } };

    ghost invariant = { λ m. AreGiven m.given m.each.items };
}

impl Mounts {
    /// No mount, and no number given. Takes no memory yet.
    pub fn new(alloc: Global) -> Self
        ensures { result ≡ record { mounts = []; given = 0 } }
    {
        Mounts {
            each: Vec::new(alloc),
            given: 0,
        }
    }

    /// A copy of mounts, and the last number that was given. Refused for memory alone.
    pub fn copied(alloc: Global, mounts: &[Mounted], given: u64) -> Result<Self, AllocError>
        requires { AreGiven given mounts.now }
        ensures { IfOk result (λ copy. copy ≡ record { mounts = mounts.now; given = given }) }
    {
        let each = mounts.to_vec(alloc)?;
        Ok(Mounts { each, given })
    }

    /// The last number that was given, or 0.
    pub fn given(&self) -> u64
        ensures { result ≡ self.now.given }
    {
        self.given
    }

    /// The mounts, ascending by their numbers, of which none is above the last one that was given.
    pub fn as_slice(&self) -> &[Mounted]
        ensures mounts { result.now ≡ self.now.mounts }
        ensures rising { AreGiven self.now.given self.now.mounts }
    {
        self.each.as_slice()
    }

    /// The checkpoint that a mount shows.
    pub fn find(&self, number: MountNumber) -> Option<CheckpointNumber>
        ensures { result ≡ find nat_cmp number (map mount_of self.now.mounts) }
    {
        find_mounted(self.each.as_slice(), number)
    }

    /// Whether a mount shows this checkpoint.
    pub fn shows(&self, checkpoint: CheckpointNumber) -> bool
        ensures { result ≡ worlds.is_mounted (map mount_of self.now.mounts) checkpoint }
    {
        is_mounted(self.each.as_slice(), checkpoint)
    }

    /// Adds a mount, whose number is given now. Refused for memory alone.
    pub fn add(&mut self, mount: Mounted) -> Result<(), AllocError>
        requires { self.old.given < mount.number }
        ensures { MatchResult result (λ _. self.new ≡ record {
          mounts = self.old.mounts ++ mount ∷ [];
          given = mount.number;
        }) (λ _. self.new ≡ self.old) }
    {
        let given = mount.number.get();
        self.each.push(mount)?;
        self.given = given;
        Ok(())
    }

    /// Takes out a mount, where one has the number. Takes no memory.
    pub fn take_out(&mut self, number: MountNumber)
        ensures { self.new ≡ record self.old { mounts = filter (is_other_mount number) self.old.mounts } }
    {
        self.each.retain(|mounted| mounted.number != number);
    }

    /// Takes out all mounts. Their numbers stay given. Takes no memory.
    pub fn clear(&mut self)
        ensures { self.new ≡ record self.old { mounts = [] } }
    {
        self.each.clear();
    }
}

/// The checkpoint that a mount shows.
fn find_mounted(mounts: &[Mounted], number: MountNumber) -> Option<CheckpointNumber>
    requires { AreRising mounts.now }
    ensures { result ≡ find nat_cmp number (map mount_of mounts.now) }
{
    let index = mounts.partition_point(|mounted| mounted.number < number);
    match mounts.get(index) {
        Some(mounted) if mounted.number == number => Some(mounted.checkpoint),
        _ => None,
    }
}

/// Whether a mount shows this checkpoint.
fn is_mounted(mounts: &[Mounted], checkpoint: CheckpointNumber) -> bool
    ensures { result ≡ worlds.is_mounted (map mount_of mounts.now) checkpoint }
{
    for mounted in mounts {
        if mounted.checkpoint == checkpoint {
            return true;
        }
    }
    false
}
