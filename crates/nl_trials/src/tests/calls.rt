//! The typed calls of a shared volume and of a port that nothing else makes: with ample memory none is
//! refused, and each finds what the last one left.
ghost use Rattle.std.specs.Prelude.{◌≡◌};

use crate::tests::backup::{Volume, new_pen, shared};
use nl_mounts::{
    Answer, Ask, CheckpointNumber, Event, Items, ListOptions, Mode, Mount, Opened, Port, Row,
    Standing, Stat, VolError, Volumes,
};
use std::alloc::Global;
use std::marker::Brand;
use std::sync::Wait;

fn all_hold(answers: &[bool]) -> bool {
    for answer in answers {
        if !*answer {
            return false;
        }
    }
    true
}

/// Whether calls change files. One of four bytes is left, with its name.
fn files_change<J: Volumes, R: Wait>(rt: &R, alloc: Global, volume: &Volume<J>) -> bool {
    all_hold(&[
        volume.mkdir(rt, alloc, b"/d") == Ok(()),
        volume.create(rt, alloc, b"/d/f") == Ok(()),
        volume.write(rt, alloc, b"/d/f", 0, b"ohi!!") == Ok(5),
        volume.truncate(rt, alloc, b"/d/f", 4) == Ok(()),
        volume.rename(rt, alloc, b"/d/f", b"/g") == Ok(()),
        volume.rmdir(rt, alloc, b"/d") == Ok(()),
        volume.create(rt, alloc, b"/f") == Ok(()),
        volume.remove(rt, alloc, b"/f") == Ok(()),
    ])
}

fn number(number: u64) -> CheckpointNumber {
    CheckpointNumber::new(number)
}

/// Whether calls change checkpoints. The first one is a new volume's; 2 to 4 stay, of which 4 is a snapshot.
fn checkpoints_change<J: Volumes, R: Wait>(rt: &R, alloc: Global, volume: &Volume<J>) -> bool {
    all_hold(&[
        volume.checkpoint(rt, 5) == Ok(number(2)),
        volume.checkpoint(rt, 6) == Ok(number(3)),
        volume.checkpoint(rt, 7) == Ok(number(4)),
        volume.change_cpmode(rt, number(4), Mode::Snapshot) == Ok(()),
        volume.delete_checkpoint(rt, number(1)) == Ok(()),
        volume.resize(rt, 96) == Ok(()),
    ])
}

/// All that is kept.
fn all() -> ListOptions {
    ListOptions {
        reverse: false,
        snapshots_only: false,
        with_minor: true,
        from: None,
        count: None,
    }
}

/// Whether there is one row, of this checkpoint.
fn is_of(rows: &[Row], number: CheckpointNumber) -> bool {
    match rows {
        [row] => row.number == number,
        _ => false,
    }
}

/// Whether a listing has it alone.
fn is_alone(rows: &Result<Items<Row>, VolError>, number: CheckpointNumber) -> bool {
    match rows {
        Ok(rows) => is_of(rows.as_slice(), number),
        Err(_) => false,
    }
}

/// Whether the plain ones go, and the snapshot is listed.
fn plain_go<J: Volumes, R: Wait>(rt: &R, volume: &Volume<J>) -> bool {
    let removed = volume.remove_checkpoints(rt, number(1), number(9));
    removed.is_ok() && is_alone(&volume.listing(rt, &all()), number(4))
}

/// Makes a snapshot, and says whether the port is told of it.
fn is_told<J: Volumes, R: Wait>(rt: &R, volume: &Volume<J>, port: &mut Port<J>) -> bool {
    let event = Event::Checkpoint {
        mode: Mode::Snapshot,
        moment: 9,
    };
    let told = volume.apply_told(rt, port, &event);
    let is_told = told.is_told;
    drop((event, told));
    is_told
}

/// Makes a snapshot of which the port is told, and mounts it. It is the fifth checkpoint.
fn mount_told<J: Volumes, R: Wait>(
    rt: &R,
    volume: &Volume<J>,
    port: &mut Port<J>,
) -> Result<Mount<J>, VolError> {
    if is_told(rt, volume, port) {
        volume.mount(rt, port, number(5))
    } else {
        Err(VolError::Memory)
    }
}

/// Whether a port reads three bytes of the file, once it is open and by its path.
fn reads<J: Volumes>(port: &mut Port<J>, mount: &Mount<J>, into: &mut [u8]) -> bool {
    let read = match port.open(mount, b"/g") {
        Ok(file) => file.read_into(port, 1, into) == Ok(3),
        Err(_) => false,
    };
    read && port.read_into(mount, b"/g", 1, into) == Ok(3)
}

/// Whether a port finds the file as it was written.
fn finds<J: Volumes>(port: &mut Port<J>, mount: &Mount<J>) -> bool {
    let mut into = [b'?'; 4];
    let read = reads(port, mount, &mut into);
    read && into == [b'h', b'i', b'!', b'?'] && port.standing(mount) == Standing::Mounted
}

/// Whether a port finds a file of four bytes in the second snapshot.
fn finds_size<J: Volumes>(alloc: Global, port: &mut Port<J>, ask: Ask) -> bool {
    let told = port.read_at(alloc, number(5), &ask);
    let has_size = matches!(&told, Ok(Answer::Stat(Stat::File(4))));
    drop((ask, told));
    has_size
}

/// Whether a port lists both snapshots, and finds the file's size in one without its mount.
fn sees<J: Volumes>(alloc: Global, port: &mut Port<J>) -> Result<bool, VolError> {
    let path = Items::from_slice(alloc, b"/g")?;
    let has_size = finds_size(alloc, port, Ask::Stat { path });
    Ok(port.checkpoints(alloc, &all())?.len() == 2 && has_size)
}

/// Whether calls answer as is due, and a port finds the file through a mount, which comes with it.
fn answer_and_mount<J: Volumes, R: Wait>(
    rt: &R,
    alloc: Global,
    volume: &Volume<J>,
    ports: &mut [Port<J>],
) -> Result<(bool, Mount<J>), VolError> {
    let Some(port) = ports.first_mut() else {
        return Err(VolError::BadRange);
    };
    let answered = files_change(rt, alloc, volume)
        && checkpoints_change(rt, alloc, volume)
        && plain_go(rt, volume);
    match mount_told(rt, volume, port) {
        Err(refusal) => Err(refusal),
        Ok(mount) => {
            let found = finds(port, &mount) && sees(alloc, port) == Ok(true);
            Ok((answered && found, mount))
        }
    }
}

fn answered<J: Volumes, R: Wait>(rt: &R, alloc: Global, opened: Opened) -> Result<bool, VolError>
    requires { opened.seen.book ≡ J.book opened.id }
{
    let (volume, mut ports) = shared::<J, _>(rt, alloc, new_pen(alloc)?, 32, opened)?;
    let came = answer_and_mount(rt, alloc, &volume, ports.as_mut_slice());
    let (pen, gone) = volume.end_for_holders(rt);
    drop((pen, ports));
    let (good, mount) = came?;
    mount.spend(&gone);
    Ok(good)
}

/// Whether each call answers as is due.
pub(crate) fn each_call_answers<R: Wait>(rt: &R, alloc: Global) -> Result<bool, VolError> {
    answered::<Brand, _>(rt, alloc, Opened::new(1))
}
