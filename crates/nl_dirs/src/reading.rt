//! Reading the records of a directory's page.
ghost use Rattle.std.specs.Prelude.{◌≡◌, List, IfOk, IfErr, IfSome, MatchOption, IsTrue, All, length, replicate, ◌↔◌};
ghost use Rattle.std.specs.Option.{option_map};
ghost use Rattle.std.specs.declared.cmp.Ordering.TheVariants.{Less};
ghost use Rattle.nl_types.specs.declared.error.VolError;
ghost use Rattle.nl_types.specs.Plain.Paths.{name_cmp, same_name};
ghost use Rattle.nl_dirs.specs.declared.record.Record.{Record};
ghost use Rattle.nl_dirs.specs.Records.{NamesAscend, AreBytes, HoldsList, IsPageOf, entry_of};
ghost use Rattle.nl_dirs.specs.Listings.{first_name_of};

use crate::record::{Record, split_record};
use nl_types::{BLOCK_SIZE, InodeNumber, Kind, Page, VolError};
use std::alloc::Global;

/// The bytes of a page, as a slice whose length and range are known.
fn bytes_of(page: &Page) -> &[u8]
    ensures same { result.now ≡ page.now }
    ensures count { length result.now ≡ 1024 }
    ensures small { AreBytes result.now }
{
    let block = page.bytes();
    let bytes = block.as_slice();
    prove!(block[..].len() == BLOCK_SIZE);
    bytes
}

/// Whether two names are the same bytes.
fn is_same(name: &[u8], other: &[u8]) -> bool
    ensures { result ≡ same_name name.now other.now }
{
    name == other
}

/// Whether a name comes behind those of records in ascending order.
fn is_behind(name: &[u8], records: &[Record]) -> bool
    requires { NamesAscend records.now }
    ensures { IsTrue result ↔ All (λ r. name_cmp r.name name.now ≡ Less) records.now }
{
    match records.last() {
        Some(last) => last.name.as_slice().cmp(&name).is_lt(),
        None => true,
    }
}

fn are_zeros(bytes: &[u8]) -> bool
    ensures { IsTrue result ↔ bytes.now ≡ replicate (length bytes.now) 0 }
{
    bytes.iter().all(|byte| *byte == 0)
}

/// What the name stands for in a page of a directory, if the page has a record of it: the first one, on any
/// page. It takes no memory.
pub fn find(page: &Page, name: &[u8]) -> Option<(InodeNumber, Kind)>
    ensures { (records : List Record) × HoldsList page.now records ×
        (result ≡ entry_of name.now records) }
{
    let mut rest = bytes_of(page);
    while let Some((record, behind)) = split_record(rest) {
        if is_same(name, record.name) {
            return Some((record.inode, record.kind));
        }
        rest = behind;
    }
    None
}

/// The first name of a page, if a record begins it. The first names of a directory's blocks tell which one
/// has a name.
pub fn first_name(page: &Page) -> Option<&[u8]>
    ensures { (records : List Record) × HoldsList page.now records ×
        (option_map (λ name. name.now) result ≡ first_name_of records) }
{
    match split_record(bytes_of(page)) {
        Some((record, _)) => Some(record.name),
        None => None,
    }
}

/// How many records a page begins with, on any page. It takes no memory.
pub fn record_count(page: &Page) -> usize
    ensures { (records : List Record) × HoldsList page.now records × (result ≡ length records) }
{
    let mut rest = bytes_of(page);
    let mut count = 0;
    while let Some((_, behind)) = split_record(rest) {
        count += 1;
        rest = behind;
    }
    count
}

/// The records of a page of a directory, in the order of their names. None where it isn't such a page: no
/// record begins it, names do not ascend, or what is behind the last record isn't all zero.
///
/// Refused by `Memory` alone.
pub fn records(alloc: Global, page: &Page) -> Result<Option<Vec<Record>>, VolError>
    ensures found { IfOk result (λ found. IfSome found (λ list. IsPageOf page.now list.items)) }
    ensures only { (list : List Record) → IsPageOf page.now list
        → IfOk result (λ found. MatchOption found ⊥ (λ records. records.items ≡ list)) }
    ensures err { IfErr result (λ e. e ≡ VolError.Memory) }
{
    let mut records: Vec<Record> = Vec::new(alloc);
    let mut rest = bytes_of(page);
    while let Some((record, behind)) = split_record(rest) {
        if !is_behind(record.name, records.as_slice()) {
            return Ok(None);
        }
        records.push(record.to_record(alloc)?)?;
        rest = behind;
    }
    if records.is_empty() || !are_zeros(rest) {
        return Ok(None);
    }
    Ok(Some(records))
}
