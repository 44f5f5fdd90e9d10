//! What of answers goes into what a caller lends.
ghost use Rattle.std.specs.Prelude.{◌≡◌, slice_get};
ghost use Rattle.nl_c.specs.Answers.{IsNameTold, bytes_in, kind_number, names_in, object_in};

use crate::copying::copy_bytes;
use crate::status::{DONE, WRONG_ARGUMENT};
use nl_types::{Answer, Items, Kind, Named, Stat};
use std::alloc::Global;

/// What stands at a path, or under a name. Kind 0 is a file, and kind 1 a directory. The size is that of a
/// file in bytes, or the number of a directory's names; under a name it is the length of the name in bytes.
#[repr(C)]
#[derive(Clone, Copy)]
pub struct Object {
    pub kind: u64,
    pub size: u64,
}

/// The bytes that were read.
pub(crate) fn bytes_in(answer: &Answer) -> &[u8]
    ensures { result.now ≡ bytes_in answer.now }
{
    match answer {
        Answer::Bytes(bytes) => bytes.as_slice(),
        _ => &[],
    }
}

/// The names that were listed.
pub(crate) fn names_in(alloc: Global, answer: Answer) -> Items<Named>
    ensures { result ≡ names_in answer }
{
    match answer {
        Answer::Names(names) => names,
        _ => Items::new(alloc),
    }
}

/// What was found at a path.
pub(crate) fn object_in(answer: &Answer) -> Object
    ensures { result ≡ object_in answer.now }
{
    match answer {
        Answer::Stat(Stat::File(size)) => Object {
            kind: 0,
            size: *size,
        },
        Answer::Stat(Stat::Dir(names)) => Object {
            kind: 1,
            size: *names,
        },
        _ => Object { kind: 0, size: 0 },
    }
}

fn kind_number(kind: Kind) -> u64
    ensures { result ≡ kind_number kind }
{
    match kind {
        Kind::File => 0,
        Kind::Directory => 1,
    }
}

/// Tells a name of a list by its place.
pub(crate) fn tell_name(names: &[Named], index: u64, into: &mut [u8], object: &mut Object) -> u32
    ensures { IsNameTold (slice_get names.now index) into.old object.old result into.new object.new }
{
    match names.get(index as usize) {
        None => WRONG_ARGUMENT,
        Some(named) => {
            let name = named.name.as_slice();
            object.kind = kind_number(named.kind);
            object.size = name.len() as u64;
            copy_bytes(name, into);
            DONE
        }
    }
}
