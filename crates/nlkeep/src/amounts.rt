//! How much a checkpoint shows.
use nl_folders::{Path, spelled};
use nl_keep::Volume;
use nl_manifests::{HostEntry, HostObject};
use nl_names::Name;
use nl_types::{Answer, Ask, CheckpointNumber, Reply, Stat, VolError};
use std::alloc::Global;

/// How many paths a checkpoint shows, its root not counted, links counted and manifests not, and how many
/// bytes all files have that it shows.
#[derive(Clone, Copy)]
pub struct Amount {
    pub paths: u64,
    pub bytes: u64,
}

/// How many bytes the file has of which a `stat` tells.
fn size_in(answer: &Answer) -> Option<u64> {
    match answer {
        Answer::Stat(Stat::File(size)) => Some(*size),
        _ => None,
    }
}

fn size_told(reply: Reply) -> Result<Option<u64>, VolError> {
    let answer = reply?;
    Ok(size_in(&answer))
}

/// How many bytes the file at a path of a kept checkpoint has. None where no file stands there.
pub fn size_at<V: Volume>(
    alloc: Global,
    volume: &V,
    number: CheckpointNumber,
    path: &[Name],
) -> Result<Option<u64>, VolError> {
    let path = spelled(alloc, path)?;
    size_told(volume.read_at(number, &Ask::Stat { path }))
}

/// How many bytes an entry has that a kept checkpoint shows at a path: those of a file, and none else.
fn bytes_of<V: Volume>(
    alloc: Global,
    volume: &V,
    number: CheckpointNumber,
    path: &[Name],
    entry: &HostEntry,
) -> Result<u64, VolError> {
    match entry.object {
        HostObject::File(_) => Ok(size_at(alloc, volume, number, path)?.unwrap_or(0)),
        _ => Ok(0),
    }
}

/// How much a kept checkpoint shows, by all that it shows.
pub fn amount_of<V: Volume>(
    alloc: Global,
    volume: &V,
    number: CheckpointNumber,
    shown: &[(Path, HostEntry)],
) -> Result<Amount, VolError> {
    let mut bytes: u64 = 0;
    for (path, entry) in shown {
        let more = bytes_of(alloc, volume, number, path.as_slice(), entry)?;
        bytes = bytes.saturating_add(more);
    }
    let paths = (shown.len() as u64).saturating_sub(1);
    Ok(Amount { paths, bytes })
}
