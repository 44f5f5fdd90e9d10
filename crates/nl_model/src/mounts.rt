//! Lists of mounts.
ghost use Rattle.std.specs.Prelude.{◌≡◌, IfOk};
ghost use Rattle.std.specs.Ordering.{nat_cmp};
ghost use Rattle.std.specs.FinMap.{find};
ghost use Rattle.nl_types.specs.Plain.Worlds.{is_mounted, mounts_without};

use nl_types::{CheckpointNumber, Items, MountNumber};
use std::alloc::{AllocError, Global};

/// The checkpoint that each mount shows.
pub type Mounts = Items<(MountNumber, CheckpointNumber)>;

pub fn find_mount(
    mounts: &[(MountNumber, CheckpointNumber)],
    m: MountNumber,
) -> Option<CheckpointNumber>
    ensures { result ≡ find nat_cmp m mounts.now }
{
    match mounts {
        [] => None,
        [first, rest @ ..] => {
            if m.get().cmp(&first.0.get()).is_eq() {
                Some(first.1)
            } else {
                find_mount(rest, m)
            }
        }
    }
}

/// Whether a mount shows this checkpoint.
pub fn is_mounted(mounts: &[(MountNumber, CheckpointNumber)], n: CheckpointNumber) -> bool
    ensures { result ≡ is_mounted mounts.now n }
{
    match mounts {
        [] => false,
        [first, rest @ ..] => first.1.get() == n.get() || is_mounted(rest, n),
    }
}

/// The mounts without that of a number.
pub fn without_mount(
    alloc: Global,
    mounts: &[(MountNumber, CheckpointNumber)],
    m: MountNumber,
) -> Result<Mounts, AllocError>
    ensures { IfOk result (λ new. new ≡ mounts_without m mounts.now) }
{
    match mounts {
        [] => Ok(Items::new(alloc)),
        [first, rest @ ..] => {
            let mut new = without_mount(alloc, rest, m)?;
            if first.0.get() != m.get() {
                new.push_front(*first)?;
            }
            Ok(new)
        }
    }
}
