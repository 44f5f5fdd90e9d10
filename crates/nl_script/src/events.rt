//! From a command to the events that it asks for.
ghost use Rattle.std.specs.Prelude.{◌≡◌, ◌-◌, ◌^◌, min, [], ◌∷◌, map, replicate, IfOk};
ghost use Rattle.nl_types.specs.declared.event.Event.TheVariants.{Apply};
ghost use Rattle.nl_types.specs.declared.event.Change.TheVariants.{Write};
ghost use Rattle.nl_script.specs.Events.{asked, asking, events_of, mode_change, reading, removal_event};
ghost use Rattle.nl_script.specs.Outcomes.{is_quiet};

use nl_commands::{CheckpointRange, Command, Shown};
use nl_types::limits::FILE_LIMIT;
use nl_types::{Ask, Change, CheckpointNumber, Event, Items, Mode, MountNumber};
use std::alloc::{AllocError, Global};

/// Whether the command tells of no checkpoint that is not kept or a snapshot.
pub fn is_quiet(command: &Command) -> bool
    ensures { result ≡ is_quiet command.now }
{
    match command {
        Command::Rmcp { quiet, .. } => *quiet,
        _ => false,
    }
}

fn one_event(alloc: Global, event: Event) -> Result<Vec<Event>, AllocError>
    ensures { IfOk result (λ events. events.items ≡ event ∷ []) }
{
    Ok(vec![in alloc; event]?)
}

fn mode_changes(
    alloc: Global,
    mode: Mode,
    numbers: &[CheckpointNumber],
) -> Result<Vec<Event>, AllocError>
    ensures { IfOk result (λ events. events.items ≡ map (mode_change mode) numbers.now) }
{
    numbers
        .iter()
        .map(|number| Event::ChangeMode(*number, mode))
        .collect(alloc)
}

fn removal_event(latest: CheckpointNumber, range: CheckpointRange) -> Event
    ensures { result ≡ removal_event latest range }
{
    match range {
        CheckpointRange::One(number) => Event::Remove(number),
        CheckpointRange::Between { first, last } => Event::RemoveRange { first, last },
        CheckpointRange::Since(first) => Event::RemoveRange {
            first,
            last: latest,
        },
    }
}

fn removals(
    alloc: Global,
    latest: CheckpointNumber,
    ranges: &[CheckpointRange],
) -> Result<Vec<Event>, AllocError>
    ensures { IfOk result (λ events. events.items ≡ map (removal_event latest) ranges.now) }
{
    ranges
        .iter()
        .map(|range| removal_event(latest, *range))
        .collect(alloc)
}

fn filling(
    alloc: Global,
    path: Items<u8>,
    offset: u64,
    byte: u8,
    count: u64,
) -> Result<Vec<Event>, AllocError>
    ensures { IfOk result (λ events. events.items ≡
        Apply (Write path offset (replicate count byte)) ∷ []) }
{
    let bytes = Items::from_vec(vec![in alloc; byte; count as usize]?);
    one_event(
        alloc,
        Event::Apply(Change::Write {
            path,
            offset,
            bytes,
        }),
    )
}

fn asked(what: Shown, path: Items<u8>) -> Ask
    ensures { result ≡ asked what path }
{
    match what {
        Shown::Content => Ask::Bytes {
            path,
            offset: 0,
            len: FILE_LIMIT,
        },
        Shown::Names => Ask::List { path },
        Shown::Kind => Ask::Stat { path },
    }
}

/// A read of a whole file through a mount.
fn reading(mount: MountNumber, path: Items<u8>) -> Event
    ensures { result ≡ reading mount path }
{
    Event::MountRead(mount, asked(Shown::Content, path))
}

/// Reads of whole files through a mount. Refused by want of memory alone.
pub fn readings(
    alloc: Global,
    mount: MountNumber,
    paths: &[Items<u8>],
) -> Result<Vec<Event>, AllocError>
    ensures { IfOk result (λ events. events.items ≡ map (reading mount) paths.now) }
{
    let mut events = Vec::with_capacity(alloc, paths.len())?;
    for path in paths {
        let path = Items::from_slice(alloc, path.as_slice())?;
        events.push(reading(mount, path))?;
    }
    Ok(events)
}

fn asking(mount: Option<MountNumber>, ask: Ask) -> Event
    ensures { result ≡ asking mount ask }
{
    match mount {
        None => Event::Read(ask),
        Some(mount) => Event::MountRead(mount, ask),
    }
}

/// The number, or the greatest one that is asked of a volume, which has never so many segments.
fn at_most_u32(segments: u64) -> u32
    ensures { result ≡ min segments (2 ^ 32 - 1) }
{
    segments.min(u32::MAX as u64) as u32
}

/// The events that a command asks for at a moment, in whole seconds. A range of checkpoints that is open to
/// the right ends at the latest one. Refused by want of memory alone.
pub fn events_of(
    alloc: Global,
    moment: u64,
    latest: CheckpointNumber,
    command: Command,
) -> Result<Vec<Event>, AllocError>
    ensures { IfOk result (λ events. events.items ≡ events_of moment latest command) }
{
    match command {
        Command::At(_) | Command::Lssu { .. } | Command::Clean => Ok(Vec::new(alloc)),
        Command::Catm { mount, paths } => readings(alloc, mount, paths.as_slice()),
        Command::Mkcp(mode) => one_event(alloc, Event::Checkpoint { mode, moment }),
        Command::Chcp(mode, numbers) => mode_changes(alloc, mode, numbers.as_slice()),
        Command::Lscp(options) => one_event(alloc, Event::Listing(options)),
        Command::Rmcp { ranges, .. } => removals(alloc, latest, ranges.as_slice()),
        Command::Mount(number) => one_event(alloc, Event::Mount(number)),
        Command::Umount(mount) => one_event(alloc, Event::Unmount(mount)),
        Command::Resize(segments) => one_event(alloc, Event::Resize(at_most_u32(segments))),
        Command::Change(change) => one_event(alloc, Event::Apply(change)),
        Command::Fill {
            path,
            offset,
            byte,
            count,
        } => filling(alloc, path, offset, byte, count),
        Command::Show { what, mount, path } => one_event(alloc, asking(mount, asked(what, path))),
    }
}
