//! A tree stored as the next snapshot of a volume.
ghost use Rattle.std.specs.Prelude.{◌≡◌, IfErr, IfOk};
ghost use Rattle.nl_types.specs.Plain.Worlds.{World, latest};
ghost use Rattle.nl_keep.specs.Made.{AreMadeBy};
ghost use Rattle.nl_keep.specs.Refusals.{RefusesSnapshot, RefusesStore};
ghost use Rattle.nl_keep.specs.Stored.{StoresOver, TakesSnapshot};
ghost use Rattle.nl_keep.specs.Volumes.{LeadsTo};

use crate::judging::judge_tree;
use crate::making::make;
use crate::volume::{Volume, applied};
use nl_folders::{FolderError, Path, Tree};
use nl_types::{Answer, CheckpointNumber, Event, Mode, Object, VolError};
use std::alloc::Global;
use std::error::Error;
use std::fmt;

/// Why a tree isn't stored, or read.
#[derive(Clone, Copy, Debug)]
pub enum KeepError {
    /// The volume refuses it, or there is no memory.
    Refused(VolError),
    /// What is to be stored is no tree: a name comes twice, names don't ascend, or a directory lacks. No
    /// volume answers what would be none.
    Disordered,
}

impl fmt::Display for KeepError {
    fn fmt<W: fmt::Write>(&self, f: &mut fmt::Formatter<W>) -> fmt::Result {
        match self {
            KeepError::Refused(error) => fmt::Display::fmt(error, f),
            KeepError::Disordered => f.write_str("what is to be stored is no tree"),
        }
    }
}

impl Error for KeepError {}

impl From<VolError> for KeepError {
    ghost use Rattle.std.specs.Prelude.{◌≡◌};
    ghost use Rattle.nl_keep.specs.declared.storing.KeepError.TheVariants.{Refused};

    ghost from_gives = { λ error e. e ≡ Refused error };

    fn from(error: VolError) -> KeepError {
        KeepError::Refused(error)
    }
}

impl From<FolderError> for KeepError {
    ghost use Rattle.std.specs.Prelude.{◌≡◌};
    ghost use Rattle.nl_keep.specs.Refusals.{passed_on};

    ghost from_gives = { λ error e. e ≡ passed_on error };

    fn from(error: FolderError) -> KeepError {
        match error {
            FolderError::Refused(error) => KeepError::Refused(error),
            FolderError::Unread | FolderError::Disordered => KeepError::Disordered,
        }
    }
}

/// What a store came to.
#[derive(Drop)]
pub struct Stored {
    /// The snapshot that was made.
    pub number: CheckpointNumber,
    /// The current tree before.
    pub earlier: Tree,
    /// How many file calls it took.
    pub calls: u64,
    /// How many bytes they wrote.
    pub bytes: u64,
}

/// Keeps the current tree as the next snapshot. Refused by `NumbersSpent`, `NoSpace`, `Fault` and `Memory`.
fn snapshot<V: Volume>(volume: &mut V, moment: u64) -> Result<CheckpointNumber, KeepError>
    ensures taken { IfOk result (λ number.
        LeadsTo (TakesSnapshot moment number) (V.means volume.old) (V.means volume.new)) }
    ensures refused { IfErr result (λ e. (w : World) → V.means volume.old w
        → RefusesSnapshot (latest w) e) }
{
    let mode = Mode::Snapshot;
    match applied(volume, Event::Checkpoint { mode, moment })? {
        Answer::Checkpoint(number) => Ok(number),
        // No volume answers a checkpoint by anything else.
        other => {
            drop(other);
            Err(KeepError::Disordered)
        }
    }
}

/// Stores a tree as the next snapshot, with the moment in whole seconds, where the current tree was read
/// already. It becomes the one that is handed in, by calls on the paths at which these differ, and of a file
/// only blocks that differ are written. If `earlier` isn't the current tree, some call may be refused, or
/// another tree be stored. Where it is refused, the volume is gone, so that nobody closes one that is half
/// made.
///
/// # Errors
/// Before any call: `Disordered` where the entries are no tree; `BadName`, `BadPath` or `TooBig` where a name
/// or a path, also one of the earlier tree, or a file or the count of paths is out of the volume's limits.
/// Then `NumbersSpent`, `NoSpace` and `Fault` as the volume's checkpoint; `Memory`.
pub fn store_over<V: Volume>(
    alloc: Global,
    mut volume: V,
    earlier: Tree,
    wanted: &[(Path, Object)],
    moment: u64,
) -> Result<(Stored, V), KeepError>
    ensures earlier { IfOk result (λ stored. stored.0.earlier ≡ earlier) }
    ensures made { IfOk result (λ stored.
        AreMadeBy earlier wanted.now stored.0.calls stored.0.bytes) }
    ensures stored { IfOk result (λ stored.
        LeadsTo (StoresOver moment stored.0.number earlier wanted.now)
        (V.means volume) (V.means stored.1)) }
    ensures refused { IfErr result (λ e. (w : World) → V.means volume w → w.tree ≡ earlier
        → RefusesStore wanted.now w e) }
{
    judge_tree(wanted)?;
    judge_tree(earlier.as_slice())?;
    let cost = make(alloc, &mut volume, earlier.as_slice(), wanted)?;
    let number = snapshot(&mut volume, moment)?;
    let stored = Stored {
        number,
        earlier,
        calls: cost.calls,
        bytes: cost.bytes,
    };
    Ok((stored, volume))
}
