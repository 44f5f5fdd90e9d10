//! A backup of a snapshot, taken by a port on a thread of its own while the writer goes on.
ghost use Rattle.std.specs.Prelude.{◌≡◌};

use nl_core::Pen;
use nl_device::MemDevice;
use nl_mounts::{
    CheckpointNumber, Geometry, Items, Mount, Opened, Port, Shared, VolError, Volumes, share,
};
use std::alloc::Global;
use std::marker::Brand;
use std::sync::Wait;
use std::thread::{Threads, join};

pub(crate) type Volume<J> = Shared<Pen<MemDevice>, J>;

pub(crate) fn new_pen(alloc: Global) -> Result<Pen<MemDevice>, VolError> {
    let geometry = Geometry::new(64, 64)?;
    Pen::format(alloc, MemDevice::new(alloc, geometry)?, geometry, 0)
}

/// Makes a file, and keeps it in a snapshot, whose number is answered.
pub(crate) fn keep_file<J: Volumes, R: Wait>(
    rt: &R,
    alloc: Global,
    volume: &Volume<J>,
    path: &[u8],
    bytes: &[u8],
) -> Result<CheckpointNumber, VolError> {
    volume.create(rt, alloc, path)?;
    volume.write(rt, alloc, path, 0, bytes)?;
    volume.snapshot(rt, 0)
}

/// Writes a text into the file again and again, with a checkpoint behind each.
fn write_on<J: Volumes, R: Wait>(
    rt: &R,
    alloc: Global,
    volume: &Volume<J>,
) -> Result<(), VolError> {
    for moment in 0..100 {
        volume.write(rt, alloc, b"/notes", 0, b"final")?;
        volume.checkpoint(rt, moment)?;
    }
    Ok(())
}

/// The bytes of a file in a mount's root.
fn read_file<J: Volumes>(
    alloc: Global,
    port: &mut Port<J>,
    mount: &Mount<J>,
    name: &[u8],
) -> Result<Items<u8>, VolError> {
    let mut path = b"/".to_vec(alloc)?;
    path.extend_from_slice(name)?;
    // They are as they were in the mount's checkpoint, whatever is written, removed and cleaned meanwhile. No
    // call of a port waits for anyone.
    port.read(alloc, mount, path.as_slice(), 0, u64::MAX)
}

/// The files of a mount's root, each with its bytes.
fn back_up<J: Volumes>(
    alloc: Global,
    port: &mut Port<J>,
    mount: &Mount<J>,
) -> Result<Vec<Items<u8>>, VolError> {
    let mut files = Vec::new(alloc);
    // The names are those of the tree that the mount's checkpoint had when it was mounted.
    let names = port.list(alloc, mount, b"/")?;
    for named in names.as_slice() {
        files.push(read_file(alloc, port, mount, named.name.as_slice())?)?;
    }
    Ok(files)
}

/// Backs a mount up while the file is written on.
fn back_up_beside<J: Volumes + Send + Sync, R: Threads + Wait + Sync>(
    rt: &R,
    alloc: Global,
    volume: &Volume<J>,
    port: &mut Port<J>,
    mount: &Mount<J>,
) -> Result<Vec<Items<u8>>, VolError> {
    let (files, written) = join(
        rt,
        || back_up(alloc, port, mount),
        || write_on(rt, alloc, volume),
    );
    written.and(files)
}

/// Gives a mount back. Refused, it is let go of: the end of the volume takes it out.
pub(crate) fn give_back<J: Volumes, R: Wait>(
    rt: &R,
    volume: &Volume<J>,
    mount: Mount<J>,
) -> Result<(), VolError> {
    match volume.unmount(rt, mount) {
        Ok(()) => Ok(()),
        Err((refusal, refused)) => {
            refused.spend();
            Err(refusal)
        }
    }
}

/// Makes a snapshot, and backs it up.
fn back_up_snapshot<J: Volumes + Send + Sync, R: Threads + Wait + Sync>(
    rt: &R,
    alloc: Global,
    volume: &Volume<J>,
    port: &mut Port<J>,
) -> Result<Vec<Items<u8>>, VolError> {
    let snapshot = keep_file(rt, alloc, volume, b"/notes", b"draft")?;
    // The mount is of the checkpoint that is asked for, and the port has been told of it.
    match volume.mount(rt, port, snapshot) {
        Err(refusal) => Err(refusal),
        Ok(mount) => {
            let files = back_up_beside(rt, alloc, volume, port, &mount);
            give_back(rt, volume, mount).and(files)
        }
    }
}

/// A volume that is shared by so many ports. Refused, its pen would come back.
pub(crate) fn shared<J: Volumes, R: Wait>(
    rt: &R,
    alloc: Global,
    pen: Pen<MemDevice>,
    ports: usize,
    opened: Opened,
) -> Result<(Volume<J>, Vec<Port<J>>), VolError>
    requires { opened.seen.book ≡ J.book opened.id }
{
    match share::<_, J, _>(alloc, rt, pen, ports, opened) {
        Ok(made) => Ok(made),
        Err((refusal, _pen)) => Err(refusal),
    }
}

fn backed_up<J: Volumes + Send + Sync, R: Threads + Wait + Sync>(
    rt: &R,
    alloc: Global,
    opened: Opened,
) -> Result<Vec<Items<u8>>, VolError>
    requires { opened.seen.book ≡ J.book opened.id }
{
    let (volume, mut ports) = shared::<J, _>(rt, alloc, new_pen(alloc)?, 1, opened)?;
    let files = match ports.first_mut() {
        Some(port) => back_up_snapshot(rt, alloc, &volume, port),
        None => Err(VolError::BadRange),
    };
    // The pen is as it was under the lock, without mounts. Ports find nothing from now on.
    drop(volume.end(rt, Vec::new(alloc)));
    files
}

/// Whether a backup has one file, with the text of the snapshot.
fn is_of_snapshot(files: &[Items<u8>]) -> bool {
    match files {
        [file] => file.as_slice() == b"draft".as_slice(),
        _ => false,
    }
}

/// Whether a backup has what the file was when its snapshot was made.
pub(crate) fn backups_are_of_one_moment<R: Threads + Wait + Sync>(
    rt: &R,
    alloc: Global,
) -> Result<bool, VolError> {
    // Each shared volume of a program has an id of its own.
    let files = backed_up::<Brand, _>(rt, alloc, Opened::new(1))?;
    Ok(is_of_snapshot(files.as_slice()))
}
