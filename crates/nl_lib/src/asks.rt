//! What events of the pen tell that change nothing: the kept checkpoints in a listing, and what stands in the
//! current tree. A kept checkpoint's tree is read by `Pen::read_at`.
ghost use Rattle.std.specs.Prelude.{◌≡◌, ◌⊎◌, Err};
ghost use Rattle.nl_types.specs.declared.event.Ask.TheVariants as ask;
ghost use Rattle.nl_types.specs.declared.event.Event.TheVariants.{Listing, Read};
ghost use Rattle.nl_types.specs.declared.reply.Answer.TheVariants as answer;
ghost use Rattle.nl_commit.specs.Layout.{Does, unshared};
ghost use Rattle.nl_types.specs.Replies.{reply_with};

use crate::changes::applied;
use nl_core::Pen;
use nl_device::Device;
use nl_types::{
    Ask, Event, Items, ListOptions, Named, Row, Stat, VolError, bytes_read, names_listed,
    rows_listed, stat_told,
};
use std::alloc::Global;

/// What is told of the kept checkpoints that a listing shows, in its order. Refused by `Memory` alone.
pub fn listing<D: Device>(pen: &mut Pen<D>, options: &ListOptions) -> Result<Items<Row>, VolError>
    ensures does { Does unshared pen.old (Listing options.now) (reply_with answer.Rows result) pen.new }
    ensures same { pen.new ≡ pen.old }
{
    pen.means_a_world();
    rows_listed(applied(pen, Event::Listing(*options)))
}

/// The bytes of the file at a path of the current tree from an offset on, as many as there are and at most
/// `len`. Paths are refused as in changes of files; then it is refused by `NotFound` where nothing stands at
/// the path, by `IsDir` where a directory does, and by `Memory`.
pub fn read<D: Device>(
    alloc: Global,
    pen: &mut Pen<D>,
    path: &[u8],
    offset: u64,
    len: u64,
) -> Result<Items<u8>, VolError>
    ensures does { Does unshared pen.old (Read (ask.Bytes path.now offset len))
        (reply_with answer.Bytes result) pen.new }
    ensures same { pen.new ≡ pen.old }
{
    pen.means_a_world();
    let Ok(path) = Items::from_slice(alloc, path) else {
        return Err(VolError::Memory);
    };
    bytes_read(applied(pen, Event::Read(Ask::Bytes { path, offset, len })))
}

/// The names in the directory at a path of the current tree with their kinds, ascending by bytes. Paths are
/// refused as in changes of files; then it is refused by `NotFound` where nothing stands at the path, by
/// `NotDir` where a file does, and by `Memory`.
pub fn list<D: Device>(
    alloc: Global,
    pen: &mut Pen<D>,
    path: &[u8],
) -> Result<Items<Named>, VolError>
    ensures does { Does unshared pen.old (Read (ask.List path.now))
        (reply_with answer.Names result) pen.new }
    ensures same { pen.new ≡ pen.old }
{
    pen.means_a_world();
    let Ok(path) = Items::from_slice(alloc, path) else {
        return Err(VolError::Memory);
    };
    names_listed(applied(pen, Event::Read(Ask::List { path })))
}

/// What stands at a path of the current tree: a file with its size in bytes, or a directory with the number
/// of its names. Paths are refused as in changes of files; then it is refused by `NotFound` where nothing
/// stands at the path, and by `Memory` for the copy of the path alone.
pub fn stat<D: Device>(alloc: Global, pen: &mut Pen<D>, path: &[u8]) -> Result<Stat, VolError>
    ensures does { Does unshared pen.old (Read (ask.Stat path.now)) (reply_with answer.Stat result) pen.new
        ⊎ (result ≡ Err VolError.Memory) }
    ensures same { pen.new ≡ pen.old }
{
    pen.means_a_world();
    let Ok(path) = Items::from_slice(alloc, path) else {
        return Err(VolError::Memory);
    };
    stat_told(applied(pen, Event::Read(Ask::Stat { path })))
}
