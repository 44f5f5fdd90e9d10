//! What changed since the latest checkpoint, by inode.
ghost use Rattle.std.specs.Prelude.{◌≡◌, ◌≢◌, ℕ, [], List, Some, false, IfErr, IfOk, OnOk};
ghost use Rattle.std.specs.BTreeMap as map;
ghost use Rattle.std.specs.Ordering.{nat_cmp};
ghost use Rattle.nl_types.specs.Plain.Limits as limits;
ghost use Rattle.nl_types.specs.declared.error.VolError;
ghost use Rattle.nl_dirs.specs.declared.record.Record.{Record};
ghost use Rattle.nl_tree.specs.Held.{Holding, IsInodeNumber, held_record};
ghost use Rattle.nl_tree.specs.FirstTree.{root_directory_alone};
ghost use Rattle.nl_tree.specs.Overlays.{HasListing, HasOrderedPages, HasSlot, IsDirectoryOf, IsOrderly, KeepsRest, ShowTheSame, current_of, holding_now, over_changed, shows_inode};
ghost use Rattle.nl_tree.specs.Steps.{with_held};

use crate::listing::Listing;
use crate::tree_read::{Base, Link};
use crate::weighing::recounted;
use nl_types::limits::{FIRST_INODE, ROOT_INODE};
use nl_types::{InodeNumber, Page, VolError};
use std::alloc::Global;
use std::collections::BTreeMap;

/// A changed file: its size in bytes, its new blocks, and which of the checkpoint's still show.
#[derive(Drop)]
pub struct FileBlocks {
    pub size: u64,
    /// The checkpoint's blocks below this index show.
    pub cut: u64,
    /// New blocks by index. `None` keeps a place, and the checkpoint's block shows.
    pub pages: BTreeMap<u64, Option<Page>>,
}

/// What became of an inode.
#[derive(Drop)]
pub enum Changed {
    Gone,
    File(FileBlocks),
    Dir(Listing),
}

/// The place of an inode. Where it isn't live, the checkpoint shows.
#[derive(Drop)]
pub struct Slot {
    pub live: bool,
    pub what: Changed,
}

/// What differs from the latest checkpoint.
///
/// A call first keeps places, all of them hidden, and only then changes what shows: so a call that is refused
/// changes nothing that shows.
#[derive(Drop)]
pub struct Overlay {
    /// By inode.
    pub changed: BTreeMap<InodeNumber, Slot>,
    /// True at the free numbers that are to be given first.
    pub freed: BTreeMap<InodeNumber, bool>,
    /// Below it all numbers are in use, but for those in `freed`.
    pub mark: InodeNumber,
    /// How many paths there are beside the root.
    pub names: u64,
    /// How many blocks a checkpoint writes of all inodes at most.
    pub weight: usize,
}

impl Overlay {
    pub(crate) fn new(alloc: Global, names: u64) -> Self
        ensures none { current_of result
            ≡ record { became = []; freed = []; mark = limits.first_inode; names = names } }
        ensures orderly { IsOrderly result }
    {
        let overlay = Overlay {
            changed: BTreeMap::new(alloc),
            freed: BTreeMap::new(alloc),
            mark: InodeNumber::new(FIRST_INODE),
            names,
            weight: 0,
        };
        overlay.ordered();
        overlay
    }

    /// The overlay in which inode 2 is a new directory. Refused by `Memory` alone.
    pub(crate) fn with_root(alloc: Global) -> Result<Self, VolError>
        ensures root { IfOk result (λ overlay. current_of overlay ≡
            record { became = root_directory_alone; freed = []; mark = limits.first_inode; names = 0 }) }
        ensures orderly { IfOk result IsOrderly }
        ensures refused { IfErr result (λ e. e ≡ VolError.Memory) }
    {
        let mut changed = BTreeMap::new(alloc);
        let root = Changed::Dir(Listing::new(alloc));
        let weight = root.weight();
        changed.insert(
            InodeNumber::new(ROOT_INODE),
            Slot {
                live: true,
                what: root,
            },
        )?;
        let overlay = Overlay {
            changed,
            freed: BTreeMap::new(alloc),
            mark: InodeNumber::new(FIRST_INODE),
            names: 0,
            weight,
        };
        overlay.ordered();
        Ok(overlay)
    }

    /// The keys of the maps ascend, as their contracts tell.
    fn ordered(&self)
        ensures keys { map.IsOrdered nat_cmp self.now.changed }
        ensures numbers { map.IsOrdered nat_cmp self.now.freed }
    {
        self.changed.len();
        self.freed.len();
    }

    /// What a directory of the current tree has under a name. It takes no memory.
    pub(crate) fn find<B: Base>(&self, base: &B, dir: InodeNumber, name: &[u8]) -> Option<Link>
        ensures { (b : Holding) → B.TreeRead.holds base.now b
            → result ≡ held_record (holding_now self.now b dir) name.now }
    {
        match self.changed.get(&dir) {
            Some(slot) if slot.live => slot.what.find_name(name),
            _ => base.find(dir, name),
        }
    }

    /// Keeps a place for an inode. Nothing that shows changes.
    #[tactic(auto, using(crate::proofs::Shown::hidden))]
    pub(crate) fn reserve(&mut self, inode: InodeNumber) -> Result<(), VolError>
        ensures orderly { IsOrderly self.old → IsInodeNumber inode → IsOrderly self.new }
        ensures same { current_of self.new ≡ current_of self.old }
        ensures rest { KeepsRest self.old self.new }
        ensures still { ShowTheSame self.old self.new }
        ensures place { OnOk result (HasSlot self.new inode) }
        ensures places { (i : ℕ) → HasSlot self.old i → HasSlot self.new i }
        ensures refused { IfErr result (λ e. e ≡ VolError.Memory) }
    {
        if self.changed.get(&inode).is_none() {
            let hidden = Slot {
                live: false,
                what: Changed::Gone,
            };
            self.changed.insert(inode, hidden)?;
            self.weight = self.weight.saturating_add(1);
        }
        Ok(())
    }

    /// Whether an inode's place shows.
    pub(crate) fn is_live(&self, inode: InodeNumber) -> bool
        ensures { result ≡ shows_inode self.now inode }
    {
        match self.changed.get(&inode) {
            Some(slot) => slot.live,
            None => false,
        }
    }

    /// Puts something into an inode's place, where nothing shows.
    #[tactic(auto, using(crate::proofs::Shown::hidden))]
    pub(crate) fn hide(&mut self, inode: InodeNumber, what: Changed) -> Result<(), VolError>
        requires { shows_inode self.old inode ≡ false }
        ensures orderly { IsOrderly self.old → IsInodeNumber inode → HasOrderedPages what
            → IsOrderly self.new }
        ensures same { current_of self.new ≡ current_of self.old }
        ensures rest { KeepsRest self.old self.new }
        ensures still { ShowTheSame self.old self.new }
        ensures places { (i : ℕ) → HasSlot self.old i → HasSlot self.new i }
        ensures others { (i : ℕ) → i ≢ inode
            → map.get nat_cmp self.new.changed i ≡ map.get nat_cmp self.old.changed i }
        ensures place { OnOk result
            (map.get nat_cmp self.new.changed inode ≡ Some (record { live = false; what = what })) }
        ensures refused { IfErr result (λ e. e ≡ VolError.Memory) }
    {
        let weight = what.weight();
        self.changed.insert(inode, Slot { live: false, what })?;
        self.weight = self.weight.saturating_add(weight);
        Ok(())
    }

    /// Makes a directory's records ones that can change. Nothing that shows changes.
    pub(crate) fn open_directory<B: Base>(
        &mut self,
        alloc: Global,
        base: &B,
        dir: InodeNumber,
    ) -> Result<(), VolError>
        requires { (b : Holding) × (all : List Record) × B.TreeRead.holds base.now b
            × IsDirectoryOf (holding_now self.old b) dir all }
        ensures orderly { IsOrderly self.old → IsInodeNumber dir → IsOrderly self.new }
        ensures same { current_of self.new ≡ current_of self.old }
        ensures rest { KeepsRest self.old self.new }
        ensures still { ShowTheSame self.old self.new }
        ensures places { (i : ℕ) → HasSlot self.old i → HasSlot self.new i }
        ensures open { (b : Holding) (all : List Record) → B.TreeRead.holds base.now b
            → IsDirectoryOf (holding_now self.old b) dir all → OnOk result (HasListing self.new dir all) }
        ensures others { (i : ℕ) (all : List Record) → i ≢ dir → HasListing self.old i all
            → HasListing self.new i all }
        ensures refused { IfErr result (λ e. e ≡ VolError.Memory) }
    {
        if self.is_live(dir) {
            return Ok(());
        }
        let records = base.records(alloc, dir)?;
        let listing = Listing::from_records(alloc, &records)?;
        self.hide(dir, Changed::Dir(listing))
    }

    /// Puts something into an inode's place, which shows from now on.
    pub(crate) fn show(&mut self, inode: InodeNumber, what: Changed)
        requires { HasSlot self.old inode }
        ensures orderly { IsOrderly self.old → HasOrderedPages what → IsOrderly self.new }
        ensures shown { (b : Holding) (i : ℕ) → holding_now self.new b i ≡
            with_held inode (over_changed what (b i)) (holding_now self.old b) i }
        ensures places { (i : ℕ) → HasSlot self.old i → HasSlot self.new i }
        ensures rest { KeepsRest self.old self.new }
    {
        if let Some(slot) = self.changed.get_mut(&inode) {
            let was = slot.what.weight();
            let now = what.weight();
            *slot = Slot { live: true, what };
            self.weight = recounted(self.weight, was, now);
        }
    }
}
