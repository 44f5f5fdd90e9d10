//! The records of a directory that changed.
ghost use Rattle.std.specs.Prelude.{◌≡◌, ◌++◌, ◌∷◌, [], IfErr, IfOk, OnOk};
ghost use Rattle.nl_types.specs.declared.error.VolError;
ghost use Rattle.nl_types.specs.Plain.Paths.{Name};
ghost use Rattle.nl_dirs.specs.declared.record.Record.{Record};
ghost use Rattle.nl_dirs.specs.Records.{NamesAscend, entry_of};
ghost use Rattle.nl_tree.specs.Records.{HasNamePlace, NamesAreOrdered, record_named, records_of, with_record, without_record};
ghost use Rattle.nl_tree.specs.Shown.{itself, shown_entries};

use crate::tree_read::Link;
use nl_dirs::Record;
use nl_types::{Items, VolError};
use std::alloc::{AllocError, Global};
use std::collections::BTreeMap;

/// All records of a directory by name. `None` keeps a place for a record, and shows nothing.
#[derive(Drop)]
pub struct Listing {
    pub map: BTreeMap<Vec<u8>, Option<Link>>,
}

fn key_of(alloc: Global, name: &[u8]) -> Result<Vec<u8>, AllocError>
    ensures { IfOk result (λ key. key.items ≡ name.now) }
{
    name.to_vec(alloc)
}

/// Adds a copy of a record, where there is one.
fn push_record(
    alloc: Global,
    records: &mut Vec<Record>,
    name: &Vec<u8>,
    link: &Option<Link>,
) -> Result<(), VolError>
    ensures ok { IfOk result (λ _. records.new.items ≡ records.old.items
        ++ shown_entries (record_named (λ k. k.items)) itself ((name.now, link.now) ∷ [])) }
    ensures refused { IfErr result (λ e. e ≡ VolError.Memory) }
{
    if let Some(link) = link {
        records.push(Record {
            name: Items::from_slice(alloc, name.as_slice())?,
            inode: link.0,
            kind: link.1,
        })?;
    }
    Ok(())
}

impl Listing {
    pub(crate) fn new(alloc: Global) -> Self
        ensures { records_of result ≡ [] }
    {
        Listing {
            map: BTreeMap::new(alloc),
        }
    }

    /// The listing of a directory's records. Refused by `Memory` alone.
    pub(crate) fn from_records(alloc: Global, records: &[Record]) -> Result<Self, VolError>
        requires { NamesAscend records.now }
        ensures all { IfOk result (λ listing. records_of listing ≡ records.now) }
        ensures refused { IfErr result (λ e. e ≡ VolError.Memory) }
    {
        let mut listing = Listing::new(alloc);
        for next in records {
            listing.add(alloc, next)?;
        }
        Ok(listing)
    }

    fn add(&mut self, alloc: Global, next: &Record) -> Result<(), VolError>
        ensures ok { OnOk result (records_of self.new ≡ with_record next.now (records_of self.old)) }
        ensures refused { IfErr result (λ e. e ≡ VolError.Memory) }
    {
        self.reserve(alloc, next.name.as_slice())?;
        self.put(next.name.as_slice(), (next.inode, next.kind));
        Ok(())
    }

    /// The records, in the order of their names. Refused by `Memory` alone.
    pub fn to_records(&self, alloc: Global) -> Result<Vec<Record>, VolError>
        ensures ok { IfOk result (λ records. records.items ≡ records_of self.now) }
        ensures refused { IfErr result (λ e. e ≡ VolError.Memory) }
    {
        let mut records = Vec::new(alloc);
        for (name, link) in self.map.iter() {
            push_record(alloc, &mut records, name, link)?;
        }
        Ok(records)
    }

    /// The names ascend, as the map's contract tells.
    fn ordered(&self)
        ensures { NamesAreOrdered self.now }
    {
        self.map.len();
    }

    #[tactic(auto, using(crate::proofs::ByName::by_name))]
    pub(crate) fn find(&self, name: &[u8]) -> Option<Link>
        ensures { result ≡ entry_of name.now (records_of self.now) }
    {
        self.ordered();
        match self.map.get(name) {
            Some(link) => *link,
            None => None,
        }
    }

    /// Keeps a place for a name. The records stay. Refused by `Memory` alone.
    #[tactic(auto, using(crate::proofs::Shown::hidden))]
    pub(crate) fn reserve(&mut self, alloc: Global, name: &[u8]) -> Result<(), VolError>
        ensures same { records_of self.new ≡ records_of self.old }
        ensures place { OnOk result (HasNamePlace self.new name.now) }
        ensures places { (other : Name) → HasNamePlace self.old other → HasNamePlace self.new other }
        ensures refused { IfErr result (λ e. e ≡ VolError.Memory) }
    {
        if self.map.get(name).is_none() {
            let key = key_of(alloc, name)?;
            self.map.insert(key, None)?;
        }
        Ok(())
    }

    /// Puts a record into its place.
    #[tactic(auto, using(crate::proofs::ByName::put_shown))]
    pub(crate) fn put(&mut self, name: &[u8], link: Link)
        requires { HasNamePlace self.old name.now }
        ensures { records_of self.new ≡
            with_record (record { name = name.now; inode = link.0; kind = link.1 }) (records_of self.old) }
    {
        if let Some(place) = self.map.get_mut(name) {
            *place = Some(link);
        }
    }

    /// Takes a record out. Its place stays.
    #[tactic(auto, using(crate::proofs::ByName::take_shown))]
    pub(crate) fn take(&mut self, name: &[u8])
        requires { HasNamePlace self.old name.now }
        ensures taken { records_of self.new ≡ without_record name.now (records_of self.old) }
        ensures places { (other : Name) → HasNamePlace self.old other → HasNamePlace self.new other }
    {
        if let Some(place) = self.map.get_mut(name) {
            *place = None;
        }
    }
}
