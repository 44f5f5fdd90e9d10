//! Reads of a tree: the current one, under number 0, or that of a kept checkpoint, under its number. No read
//! needs a mount.
ghost use Rattle.std.specs.Prelude.{◌≡◌, ℕ, Result, length};
ghost use Rattle.nl_types.specs.declared.event.Ask.TheVariants as asks;
ghost use Rattle.nl_types.specs.declared.reply.Answer.{Answer};
ghost use Rattle.nl_types.specs.Plain.Calls.{IsReadReply, reply_to};
ghost use Rattle.nl_types.specs.Plain.Worlds.{World};
ghost use Rattle.nl_commit.specs.Layout.{MeansWorld};
ghost use Rattle.nl_c.specs.Reads.{Asks, AsksPath, IsBytesTold, IsListed, IsNameOf, IsObjectTold, ask_at, tree_reply, with_names};

use crate::answers::{Object, bytes_in, names_in, object_in, tell_name};
use crate::calls::copied;
use crate::copying::copy_bytes;
use crate::status::{CLOSED, DONE, error_number};
use crate::volume::Volume;
use nl_core::Pen;
use nl_device::MemDevice;
use nl_types::{Answer, Ask, CheckpointNumber, Event, Items, Named, Reply};
use std::alloc::Global;

/// What is asked of a path.
#[derive(Clone, Copy)]
pub enum PathAsk {
    Bytes { offset: u64, len: u64 },
    List,
    Stat,
}

impl PathAsk {
    /// The question of a path.
    fn ask(self, path: Items<u8>) -> Ask
        ensures { result ≡ ask_at self path }
    {
        match self {
            PathAsk::Bytes { offset, len } => Ask::Bytes { path, offset, len },
            PathAsk::List => Ask::List { path },
            PathAsk::Stat => Ask::Stat { path },
        }
    }
}

// ---- questions

/// What the current tree answers.
fn ask_current(pen: &mut Pen<MemDevice>, ask: Ask) -> Reply
    ensures same { pen.new ≡ pen.old }
    ensures reply { (w : World) → MeansWorld pen.old w → IsReadReply ask result (reply_to w.tree ask) }
{
    pen.means_a_world();
    pen.apply(&Event::Read(ask))
}

/// What a tree answers.
fn ask_tree(pen: &mut Pen<MemDevice>, at: u64, ask: Ask) -> Reply
    ensures same { pen.new ≡ pen.old }
    ensures reply { (w : World) → MeansWorld pen.old w → IsReadReply ask result (tree_reply w at ask) }
{
    if at == 0 {
        return ask_current(pen, ask);
    }
    pen.read_at(CheckpointNumber::new(at), &ask)
}

/// Asks a tree of the volume that a handle leads to.
fn asked(alloc: Global, volume: &mut Volume, at: u64, ask: Ask) -> Result<Answer, u32>
    ensures asks { Asks volume.old.place.held at ask result }
    ensures same { volume.new.place.held ≡ volume.old.place.held }
{
    match volume.take(alloc) {
        None => Err(CLOSED),
        Some(mut held) => {
            let reply = ask_tree(&mut held.pen, at, ask);
            volume.put(held);
            match reply {
                Ok(answer) => Ok(answer),
                Err(error) => Err(error_number(error)),
            }
        }
    }
}

/// The same, with a copy of a path.
fn asked_of_path(
    alloc: Global,
    volume: &mut Volume,
    at: u64,
    path: &[u8],
    question: PathAsk,
) -> Result<Answer, u32>
    ensures asks { AsksPath volume.old.place.held at (ask_at question path.now) result }
    ensures same { volume.new.place.held ≡ volume.old.place.held }
{
    match copied(alloc, path) {
        Ok(path) => asked(alloc, volume, at, question.ask(path)),
        Err(status) => Err(status),
    }
}

// ---- calls

/// The bytes of a file from an offset on, as many as there are and as the array has places for. `count` gets
/// how many.
#[unsafe(no_mangle)]
pub extern "C" fn nlvol_read(
    alloc: Global,
    volume: &mut Volume,
    at: u64,
    path: &[u8],
    offset: u64,
    into: &mut [u8],
    count: &mut u64,
) -> u32
    ensures told { (told : Result Answer ℕ)
        × AsksPath volume.old.place.held at (asks.Bytes path.now offset (length into.old)) told
        × IsBytesTold told into.old count.old result into.new count.new }
    ensures same { volume.new.place.held ≡ volume.old.place.held }
{
    let len = into.len() as u64;
    match asked_of_path(alloc, volume, at, path, PathAsk::Bytes { offset, len }) {
        Ok(answer) => {
            *count = copy_bytes(bytes_in(&answer), into) as u64;
            DONE
        }
        Err(status) => status,
    }
}

/// What stands at a path.
#[unsafe(no_mangle)]
pub extern "C" fn nlvol_stat(
    alloc: Global,
    volume: &mut Volume,
    at: u64,
    path: &[u8],
    object: &mut Object,
) -> u32
    ensures told { (told : Result Answer ℕ)
        × AsksPath volume.old.place.held at (asks.Stat path.now) told
        × IsObjectTold told object.old result object.new }
    ensures same { volume.new.place.held ≡ volume.old.place.held }
{
    match asked_of_path(alloc, volume, at, path, PathAsk::Stat) {
        Ok(answer) => {
            *object = object_in(&answer);
            DONE
        }
        Err(status) => status,
    }
}

/// Leaves names for the caller to copy out.
fn leave_names(alloc: Global, volume: &mut Volume, names: Items<Named>)
    ensures { volume.new.place.held ≡ with_names names volume.old.place.held }
{
    if let Some(mut held) = volume.take(alloc) {
        held.names = names;
        volume.put(held);
    }
}

/// Lists a directory: its names, ascending by bytes, are left for `nlvol_name`, in the place of those of the
/// last one. `count` gets how many.
#[unsafe(no_mangle)]
pub extern "C" fn nlvol_list(
    alloc: Global,
    volume: &mut Volume,
    at: u64,
    path: &[u8],
    count: &mut u64,
) -> u32
    ensures { (told : Result Answer ℕ)
        × AsksPath volume.old.place.held at (asks.List path.now) told
        × IsListed told volume.old.place.held count.old result volume.new.place.held count.new }
{
    match asked_of_path(alloc, volume, at, path, PathAsk::List) {
        Ok(answer) => {
            let names = names_in(alloc, answer);
            *count = names.len() as u64;
            leave_names(alloc, volume, names);
            DONE
        }
        Err(status) => status,
    }
}

/// The name at a place in the directory that was listed last, from 0. The array gets as many of its bytes as
/// it has places for, and a name has at most 255. Refused by 65 where there is no such place.
#[unsafe(no_mangle)]
pub extern "C" fn nlvol_name(
    alloc: Global,
    volume: &mut Volume,
    index: u64,
    into: &mut [u8],
    object: &mut Object,
) -> u32
    ensures told { IsNameOf volume.old.place.held index into.old object.old result into.new object.new }
    ensures same { volume.new.place.held ≡ volume.old.place.held }
{
    match volume.take(alloc) {
        None => CLOSED,
        Some(held) => {
            let status = tell_name(held.names.as_slice(), index, into, object);
            volume.put(held);
            status
        }
    }
}
