//! What became of one inode.
ghost use Rattle.std.specs.Prelude.{◌≡◌, ◌+◌, ◌<◌, ◌^◌, ℕ, length, List, Option, Some, IfErr, OnOk};
ghost use Rattle.nl_types.specs.declared.error.VolError;
ghost use Rattle.nl_types.specs.Plain.Paths.{Name};
ghost use Rattle.nl_dirs.specs.declared.record.Record.{Record};
ghost use Rattle.nl_types.specs.Blocks.Roots.{Blocks};
ghost use Rattle.nl_tree.specs.Private.Files.{ShowsFile, ShowsFileWith};
ghost use Rattle.nl_tree.specs.Held.{Held, Stored, held_record, new_held};
ghost use Rattle.nl_tree.specs.Overlays.{HasOrderedPages, IsListed, IsListedWith, became_of, over_changed};
ghost use Rattle.nl_tree.specs.Private.Pages.{blocks_below, put_from};
ghost use Rattle.nl_tree.specs.Records.{with_record, without_record};

use crate::listing::Listing;
use crate::overlay::{Changed, FileBlocks};
use crate::tree_read::Link;
use nl_types::{Kind, Page, VolError};
use std::alloc::Global;
use std::collections::BTreeMap;

impl Changed {
    /// A new file or directory.
    pub(crate) fn empty(alloc: Global, kind: Kind) -> Self
        ensures { (base : Option Held) → over_changed result base ≡ Some (new_held kind) }
    {
        match kind {
            Kind::Directory => Changed::Dir(Listing::new(alloc)),
            Kind::File => Changed::File(FileBlocks {
                size: 0,
                cut: 0,
                pages: BTreeMap::new(alloc),
            }),
        }
    }

    /// What a directory has under a name.
    pub(crate) fn find_name(&self, name: &[u8]) -> Option<Link>
        ensures { (base : Option Held) → result ≡ held_record (over_changed self.now base) name.now }
    {
        match self {
            Changed::Dir(listing) => listing.find(name),
            Changed::File(_) | Changed::Gone => None,
        }
    }

    /// Keeps a place for a name of a directory. Refused by `Memory` alone.
    pub(crate) fn reserve_name(&mut self, alloc: Global, name: &[u8]) -> Result<(), VolError>
        ensures ordered { HasOrderedPages self.old → HasOrderedPages self.new }
        ensures same { became_of self.new ≡ became_of self.old }
        ensures over { (base : Option Held) → over_changed self.new base ≡ over_changed self.old base }
        ensures place { (all : List Record) → IsListed self.old all
            → OnOk result (IsListedWith self.new all name.now) }
        ensures listed { (all : List Record) → IsListed self.old all → IsListed self.new all }
        ensures names { (all : List Record) (other : Name) → IsListedWith self.old all other
            → IsListedWith self.new all other }
        ensures refused { IfErr result (λ e. e ≡ VolError.Memory) }
    {
        match self {
            Changed::Dir(listing) => listing.reserve(alloc, name),
            Changed::File(_) | Changed::Gone => Ok(()),
        }
    }

    /// Puts a record into its place in a directory.
    pub(crate) fn put(&mut self, name: &[u8], link: Link)
        requires { (all : List Record) × IsListedWith self.old all name.now }
        ensures ordered { HasOrderedPages self.old → HasOrderedPages self.new }
        ensures listed { (all : List Record) → IsListedWith self.old all name.now → IsListed self.new
            (with_record (record { name = name.now; inode = link.0; kind = link.1 }) all) }
    {
        match self {
            Changed::Dir(listing) => listing.put(name, link),
            Changed::File(_) | Changed::Gone => {}
        }
    }

    /// Takes a record out of a directory.
    pub(crate) fn take(&mut self, name: &[u8])
        requires { (all : List Record) × IsListedWith self.old all name.now }
        ensures ordered { HasOrderedPages self.old → HasOrderedPages self.new }
        ensures listed { (all : List Record) → IsListedWith self.old all name.now
            → IsListed self.new (without_record name.now all) }
        ensures names { (all : List Record) (other : Name) → IsListedWith self.old all name.now
            → IsListedWith self.old all other → IsListedWith self.new (without_record name.now all) other }
    {
        match self {
            Changed::Dir(listing) => listing.take(name),
            Changed::File(_) | Changed::Gone => {}
        }
    }

    /// Keeps places for blocks of a file, from one up to another. Refused by `Memory` alone.
    pub(crate) fn reserve_pages(&mut self, first: u64, end: u64) -> Result<(), VolError>
        ensures ordered { HasOrderedPages self.old → HasOrderedPages self.new }
        ensures same { became_of self.new ≡ became_of self.old }
        ensures over { (base : Option Held) → over_changed self.new base ≡ over_changed self.old base }
        ensures place { (base : Option Held) (size : ℕ) (blocks : Blocks)
            → ShowsFile self.old base size blocks
            → OnOk result (ShowsFileWith self.new base size blocks first end) }
        ensures refused { IfErr result (λ e. e ≡ VolError.Memory) }
    {
        match self {
            Changed::File(file) => file.reserve_all(first, end),
            Changed::Dir(_) | Changed::Gone => Ok(()),
        }
    }

    /// Puts blocks of a file, one behind the other, to places that are kept for them, and gives the file a
    /// size.
    pub(crate) fn put_pages(&mut self, size: u64, first: u64, pages: Vec<Page>)
        requires fits { first + length pages.items < 2 ^ 64 }
        requires places { (base : Option Held) × (was : ℕ) × (blocks : Blocks)
            × ShowsFileWith self.old base was blocks first (first + length pages.items) }
        ensures ordered { HasOrderedPages self.old → HasOrderedPages self.new }
        ensures written { (base : Option Held) (was : ℕ) (blocks : Blocks)
            → ShowsFileWith self.old base was blocks first (first + length pages.items)
            → over_changed self.new base ≡ Some (Stored size (put_from first pages.items blocks)) }
        ensures file { (base : Option Held) (was : ℕ) (blocks : Blocks)
            → ShowsFileWith self.old base was blocks first (first + length pages.items)
            → ShowsFile self.new base size (put_from first pages.items blocks) }
    {
        match self {
            Changed::File(file) => {
                file.put_all(first, pages);
                file.size = size;
            }
            Changed::Dir(_) | Changed::Gone => {}
        }
    }

    /// Makes blocks of a file from an index on ones that don't show any more.
    pub(crate) fn cut_at(&mut self, count: u64)
        ensures ordered { HasOrderedPages self.old → HasOrderedPages self.new }
        ensures cut { (base : Option Held) (size : ℕ) (blocks : Blocks) → ShowsFile self.old base size blocks
            → over_changed self.new base ≡ Some (Stored size (blocks_below count blocks)) }
    {
        match self {
            Changed::File(file) => file.cut_at(count),
            Changed::Dir(_) | Changed::Gone => {}
        }
    }
}
