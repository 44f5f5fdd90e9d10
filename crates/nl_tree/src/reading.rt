//! Calls that read a tree.
ghost use Rattle.std.specs.Prelude.{◌≡◌, ◌+◌, ◌<◌, ◌≤◌, ◌^◌, List, Some, Ok, IfErr, IfOk, OnErr, length, map, take, drop};
ghost use Rattle.nl_types.specs.declared.error.VolError;
ghost use Rattle.nl_types.specs.Plain.Paths.{path_of};
ghost use Rattle.nl_types.specs.Plain.Trees.{Tree};
ghost use Rattle.nl_types.specs.Plain.Calls.{IsReadReply, IsUnlessMemory, ShowsUnlessMemory, and_then, list, read, reply_to, stat};
ghost use Rattle.nl_dirs.specs.declared.record.Record.{Record};
ghost use Rattle.nl_tree.specs.Held.{Holding, Listed};
ghost use Rattle.nl_tree.specs.Reading.{ArePartOf, HoldingMeans, ShowsAs, named_of};

use crate::paths::{find_directory, find_file, find_path};
use crate::tree_read::TreeRead;
use nl_dirs::Record;
use nl_types::{Answer, Ask, InodeNumber, Items, Kind, Named, Reply, Stat, VolError};
use std::alloc::Global;

/// Reads the bytes of a file from an offset on into the front of a slice, as many as there are and it takes,
/// and answers how many. It takes no memory.
pub fn read_file_into<T: TreeRead>(
    tree: &T,
    file: InodeNumber,
    offset: u64,
    into: &mut [u8],
) -> usize
    ensures reads { (held : Holding) → T.holds tree.now held
        → ArePartOf (held file) offset (length into.old) (take result into.new) }
    ensures within { result ≤ length into.new }
    ensures end { offset + result < 2 ^ 64 }
    ensures rest { drop result into.new ≡ drop result into.old }
{
    let left = tree.size(file).saturating_sub(offset);
    let count = into.len().min(left as usize);
    tree.read_bytes(file, offset, &mut into[..count]);
    count
}

/// Reads the bytes of the file at a path from an offset on into the front of a slice, as many as there are
/// and it takes, and answers how many. It takes no memory.
///
/// Refused by `BadPath` and `BadName` as the path's syntax is, by `NotDir` where a file is on the way, by
/// `NotFound` where nothing stands, and by `IsDir` where a directory does. Then the slice stays as it was.
pub fn read_into<T: TreeRead>(
    tree: &T,
    path: &[u8],
    offset: u64,
    into: &mut [u8],
) -> Result<usize, VolError>
    ensures reads { (held : Holding) (shown : Tree)
        → T.holds tree.now held → HoldingMeans held shown
        → ShowsAs (λ count. Answer.Bytes (take count into.new)) result
        (and_then (path_of path.now) (read shown offset (length into.old))) }
    ensures within { IfOk result (λ count. count ≤ length into.new) }
    ensures rest { IfOk result (λ count. drop count into.new ≡ drop count into.old) }
    ensures refused { OnErr result (into.new ≡ into.old) }
{
    let file = find_file(tree, path)?;
    Ok(read_file_into(tree, file, offset, into))
}

/// What stands at a path: a file with its size, or a directory with the number of its names. It takes no
/// memory.
///
/// Refused by `BadPath` and `BadName` as the path's syntax is, by `NotDir` where a file is on the way, and by
/// `NotFound` where nothing stands.
pub fn stat<T: TreeRead>(tree: &T, path: &[u8]) -> Result<Stat, VolError>
    ensures { (held : Holding) (shown : Tree) → T.holds tree.now held → HoldingMeans held shown
        → result ≡ and_then (path_of path.now) (stat shown) }
{
    let (inode, kind) = find_path(tree, path)?;
    Ok(match kind {
        Kind::File => Stat::File(tree.size(inode)),
        Kind::Directory => Stat::Dir(tree.name_count(inode)),
    })
}

/// A list of zeros. Refused by `Memory` alone.
fn zeros(alloc: Global, count: usize) -> Result<Vec<u8>, VolError>
    ensures len { IfOk result (λ zeros. length zeros.items ≡ count) }
    ensures refused { IfErr result (λ e. e ≡ VolError.Memory) }
{
    Ok(vec![in alloc; 0; count]?)
}

/// The bytes of a file from an offset on, at most so many. Refused by `Memory` alone.
fn file_bytes<T: TreeRead>(
    alloc: Global,
    tree: &T,
    file: InodeNumber,
    offset: u64,
    len: u64,
) -> Result<Items<u8>, VolError>
    ensures bytes { (held : Holding) → T.holds tree.now held
        → IfOk result (ArePartOf (held file) offset len) }
    ensures refused { IfErr result (λ e. e ≡ VolError.Memory) }
{
    let count = tree.size(file).saturating_sub(offset).min(len);
    let mut bytes = zeros(alloc, count as usize)?;
    tree.read_bytes(file, offset, bytes.as_mut_slice());
    Ok(Items::from_vec(bytes))
}

/// The bytes of the file at a path from an offset on, as many as there are and at most `len`.
///
/// Refused as `read_into` is, and by `Memory`.
pub fn read<T: TreeRead>(
    alloc: Global,
    tree: &T,
    path: &[u8],
    offset: u64,
    len: u64,
) -> Result<Items<u8>, VolError>
    ensures { (held : Holding) (shown : Tree) → T.holds tree.now held → HoldingMeans held shown
        → ShowsUnlessMemory Answer.Bytes result
        (and_then (path_of path.now) (read shown offset len)) }
{
    let file = find_file(tree, path)?;
    file_bytes(alloc, tree, file, offset, len)
}

/// The bytes of a file, as an answer. Refused as `read` is.
fn answer_bytes<T: TreeRead>(alloc: Global, tree: &T, path: &[u8], offset: u64, len: u64) -> Reply
    ensures { (held : Holding) (shown : Tree) → T.holds tree.now held → HoldingMeans held shown
        → IsUnlessMemory result (and_then (path_of path.now) (read shown offset len)) }
{
    let bytes = read(alloc, tree, path, offset, len)?;
    Ok(Answer::Bytes(bytes))
}

/// The names of records, with what they stand for. Refused by `Memory` alone.
fn named(alloc: Global, records: Vec<Record>) -> Result<Items<Named>, VolError>
    ensures names { IfOk result (λ names. names ≡ map named_of records.items) }
    ensures refused { IfErr result (λ e. e ≡ VolError.Memory) }
{
    let mut names = Items::new(alloc);
    for record in records {
        names.push(Named {
            name: record.name,
            kind: record.kind,
        })?;
    }
    Ok(names)
}

/// The names in a directory with their kinds. Refused by `Memory` alone.
fn listed_names<T: TreeRead>(
    alloc: Global,
    tree: &T,
    directory: InodeNumber,
) -> Result<Items<Named>, VolError>
    ensures names { (held : Holding) (records : List Record) → T.holds tree.now held
        → held directory ≡ Some (Listed records)
        → IfOk result (λ names. names ≡ map named_of records) }
    ensures refused { IfErr result (λ e. e ≡ VolError.Memory) }
{
    let records = tree.records(alloc, directory)?;
    named(alloc, records)
}

/// The names in the directory at a path with their kinds, ascending by bytes.
///
/// Refused by `BadPath` and `BadName` as the path's syntax is, by `NotDir` where a file stands there or is on
/// the way, by `NotFound` where nothing stands, and by `Memory`.
pub fn list<T: TreeRead>(alloc: Global, tree: &T, path: &[u8]) -> Result<Items<Named>, VolError>
    ensures { (held : Holding) (shown : Tree) → T.holds tree.now held → HoldingMeans held shown
        → ShowsUnlessMemory (λ names. names) result (and_then (path_of path.now) (list shown)) }
{
    let directory = find_directory(tree, path)?;
    listed_names(alloc, tree, directory)
}

/// The names in a directory, as an answer. Refused as `list` is.
fn answer_names<T: TreeRead>(alloc: Global, tree: &T, path: &[u8]) -> Reply
    ensures { (held : Holding) (shown : Tree) → T.holds tree.now held → HoldingMeans held shown
        → IsUnlessMemory result
        (and_then (and_then (path_of path.now) (list shown)) (λ names. Ok (Answer.Names names))) }
{
    let names = list(alloc, tree, path)?;
    Ok(Answer::Names(names))
}

/// What stands at a path, as an answer. Refused as `stat` is.
fn answer_stat<T: TreeRead>(tree: &T, path: &[u8]) -> Reply
    ensures { (held : Holding) (shown : Tree) → T.holds tree.now held → HoldingMeans held shown
        → result ≡ and_then (and_then (path_of path.now) (stat shown)) (λ found. Ok (Answer.Stat found)) }
{
    let found = stat(tree, path)?;
    Ok(Answer::Stat(found))
}

/// What a tree answers. Refused as the call is, and by `Memory` where it isn't `stat`, which takes none.
pub fn answer<T: TreeRead>(alloc: Global, tree: &T, ask: &Ask) -> Reply
    ensures { (held : Holding) (shown : Tree) → T.holds tree.now held → HoldingMeans held shown
        → IsReadReply ask.now result (reply_to shown ask.now) }
{
    match ask {
        Ask::Bytes { path, offset, len } => {
            answer_bytes(alloc, tree, path.as_slice(), *offset, *len)
        }
        Ask::List { path } => answer_names(alloc, tree, path.as_slice()),
        Ask::Stat { path } => answer_stat(tree, path.as_slice()),
    }
}
