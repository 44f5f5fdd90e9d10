//! Records of directories, and the inodes that they stand for.
ghost use Rattle.std.specs.Prelude.{◌≡◌, ◌≢◌, ◌==◌, ◌+◌, ◌≤◌, ℕ, true, cond, List, Some, None, IsSome, IfErr, IfOk, OnErr, OnOk};
ghost use Rattle.std.specs.BTreeMap as map;
ghost use Rattle.std.specs.Ordering.{nat_cmp};
ghost use Rattle.nl_types.specs.Plain.Limits as limits;
ghost use Rattle.nl_types.specs.declared.error.VolError;
ghost use Rattle.nl_types.specs.Plain.Paths.{Name};
ghost use Rattle.nl_dirs.specs.declared.record.Record.{Record};
ghost use Rattle.nl_tree.specs.Held.{Holding, IsInodeNumber};
ghost use Rattle.nl_tree.specs.Numbers.{CountsFreeNow};
ghost use Rattle.nl_tree.specs.Overlays.{HasListing, HasName, HasSlot, IsDirectoryOf, IsOrderly, KeepsRest, ShowTheSame, current_of, holding_now};
ghost use Rattle.nl_tree.specs.Records.{without_record};
ghost use Rattle.nl_tree.specs.Steps.{IsCreateRefused, IsCreated, with_held, with_link, with_new_inode, without_inode, without_link};

use crate::overlay::{Changed, Overlay};
use crate::tree_read::{Base, Link};
use crate::weighing::recounted;
use nl_types::{InodeNumber, Kind, VolError};
use std::alloc::Global;

impl Overlay {
    /// Keeps a place for a name in a directory whose records can change. Nothing that shows changes.
    pub(crate) fn reserve_name(
        &mut self,
        alloc: Global,
        dir: InodeNumber,
        name: &[u8],
    ) -> Result<(), VolError>
        ensures orderly { IsOrderly self.old → IsOrderly self.new }
        ensures same { current_of self.new ≡ current_of self.old }
        ensures rest { KeepsRest self.old self.new }
        ensures still { ShowTheSame self.old self.new }
        ensures place { (all : List Record) → HasListing self.old dir all
            → OnOk result (HasName self.new dir all name.now) }
        ensures listings { (i : ℕ) (all : List Record) → HasListing self.old i all
            → HasListing self.new i all }
        ensures names { (i : ℕ) (all : List Record) (other : Name) → HasName self.old i all other
            → HasName self.new i all other }
        ensures places { (i : ℕ) → HasSlot self.old i → HasSlot self.new i }
        ensures refused { IfErr result (λ e. e ≡ VolError.Memory) }
    {
        match self.changed.get_mut(&dir) {
            Some(slot) => {
                let was = slot.what.weight();
                let outcome = slot.what.reserve_name(alloc, name);
                let now = slot.what.weight();
                self.weight = recounted(self.weight, was, now);
                outcome
            }
            None => Ok(()),
        }
    }

    /// Puts a record into a directory, where it has a place.
    pub(crate) fn link(&mut self, dir: InodeNumber, name: &[u8], link: Link)
        requires { (all : List Record) × HasName self.old dir all name.now }
        ensures orderly { IsOrderly self.old → IsOrderly self.new }
        ensures shown { (all : List Record) → HasName self.old dir all name.now → (b : Holding) (i : ℕ)
            → holding_now self.new b i ≡ with_link dir all
            (record { name = name.now; inode = link.0; kind = link.1 }) (holding_now self.old b) i }
        ensures places { (i : ℕ) → HasSlot self.old i → HasSlot self.new i }
        ensures rest { KeepsRest self.old self.new }
    {
        if let Some(slot) = self.changed.get_mut(&dir) {
            let was = slot.what.weight();
            slot.live = true;
            slot.what.put(name, link);
            let now = slot.what.weight();
            self.weight = recounted(self.weight, was, now);
        }
    }

    /// Takes a record out of a directory whose records can change. Its place stays.
    pub(crate) fn unlink(&mut self, dir: InodeNumber, name: &[u8])
        requires { (all : List Record) × HasName self.old dir all name.now }
        ensures orderly { IsOrderly self.old → IsOrderly self.new }
        ensures shown { (all : List Record) → HasName self.old dir all name.now → (b : Holding) (i : ℕ)
            → holding_now self.new b i ≡ without_link dir all name.now (holding_now self.old b) i }
        ensures others { (i : ℕ) (all : List Record) (other : Name) → i ≢ dir → HasName self.old i all other
            → HasName self.new i all other }
        ensures names { (all : List Record) (other : Name) → HasName self.old dir all name.now
            → HasName self.old dir all other → HasName self.new dir (without_record name.now all) other }
        ensures places { (i : ℕ) → HasSlot self.old i → HasSlot self.new i }
        ensures rest { KeepsRest self.old self.new }
    {
        if let Some(slot) = self.changed.get_mut(&dir) {
            let was = slot.what.weight();
            slot.live = true;
            slot.what.take(name);
            let now = slot.what.weight();
            self.weight = recounted(self.weight, was, now);
        }
    }

    /// Adds an empty file or directory under a new name.
    fn add<B: Base>(
        &mut self,
        alloc: Global,
        base: &B,
        dir: InodeNumber,
        name: &[u8],
        inode: InodeNumber,
        kind: Kind,
    ) -> Result<(), VolError>
        requires directory { (b : Holding) × (all : List Record) × B.TreeRead.holds base.now b
            × IsDirectoryOf (holding_now self.old b) dir all }
        ensures orderly { IsOrderly self.old → IsInodeNumber dir → IsInodeNumber inode → IsOrderly self.new }
        ensures added { (b : Holding) (all : List Record) → B.TreeRead.holds base.now b
            → IsDirectoryOf (holding_now self.old b) dir all
            → OnOk result ((i : ℕ) → holding_now self.new b i ≡
            with_new_inode dir all name.now kind inode (holding_now self.old b) i) }
        ensures rest { KeepsRest self.old self.new }
        ensures same { OnErr result (current_of self.new ≡ current_of self.old) }
        ensures refused { IfErr result (λ e. e ≡ VolError.Memory) }
    {
        self.reserve(inode)?;
        self.open_directory(alloc, base, dir)?;
        self.reserve_name(alloc, dir, name)?;
        self.link(dir, name, (inode, kind));
        self.show(inode, Changed::empty(alloc, kind));
        Ok(())
    }

    /// Adds an empty file or directory under a new name, in the lowest free inode, which it answers.
    ///
    /// Refused by `TooBig` where there are 524,277 names or no number is free, and by `Memory`; then nothing
    /// that shows has changed.
    pub(crate) fn create<B: Base>(
        &mut self,
        alloc: Global,
        base: &B,
        dir: InodeNumber,
        name: &[u8],
        kind: Kind,
    ) -> Result<InodeNumber, VolError>
        requires { (b : Holding) × (all : List Record) × B.TreeRead.holds base.now b
            × IsDirectoryOf (holding_now self.old b) dir all × CountsFreeNow self.old b }
        ensures orderly { IsOrderly self.old → IsInodeNumber dir → IsOrderly self.new }
        ensures created { (b : Holding) (all : List Record) → B.TreeRead.holds base.now b
            → IsDirectoryOf (holding_now self.old b) dir all → CountsFreeNow self.old b
            → IfOk result
            (IsCreated (holding_now self.old b) (holding_now self.new b) dir all name.now kind) }
        ensures counts { (b : Holding) (all : List Record) → B.TreeRead.holds base.now b
            → IsDirectoryOf (holding_now self.old b) dir all → CountsFreeNow self.old b
            → OnOk result (CountsFreeNow self.new b) }
        ensures names { OnOk result (self.new.names ≡ self.old.names + 1) }
        ensures limit { OnOk result (self.new.names ≤ limits.path_limit) }
        ensures same { OnErr result (current_of self.new ≡ current_of self.old) }
        ensures refused { (b : Holding) → B.TreeRead.holds base.now b → CountsFreeNow self.old b
            → IfErr result (IsCreateRefused self.old.names (holding_now self.old b)) }
    {
        let Some(inode) = self.number_for_new(base) else {
            return Err(VolError::TooBig);
        };
        self.add(alloc, base, dir, name, inode, kind)?;
        self.take_number(inode);
        self.names += 1;
        Ok(inode)
    }

    /// Takes a record out of a directory, and its inode away, whose number is free then.
    ///
    /// Refused by `Memory` alone; then nothing that shows has changed.
    pub(crate) fn remove<B: Base>(
        &mut self,
        alloc: Global,
        base: &B,
        dir: InodeNumber,
        name: &[u8],
        inode: InodeNumber,
    ) -> Result<(), VolError>
        requires directory { (b : Holding) × (all : List Record) × B.TreeRead.holds base.now b
            × IsDirectoryOf (holding_now self.old b) dir all }
        requires counted { 1 ≤ self.old.names }
        ensures orderly { IsOrderly self.old → IsInodeNumber dir → IsInodeNumber inode → IsOrderly self.new }
        ensures removed { (b : Holding) (all : List Record) → B.TreeRead.holds base.now b
            → IsDirectoryOf (holding_now self.old b) dir all
            → OnOk result ((i : ℕ) → holding_now self.new b i ≡
            without_inode dir all name.now inode (holding_now self.old b) i) }
        ensures counts { (b : Holding) (all : List Record) → B.TreeRead.holds base.now b
            → IsDirectoryOf (holding_now self.old b) dir all → CountsFreeNow self.old b
            → limits.first_inode ≤ inode → inode ≤ limits.last_inode
            → OnOk result (CountsFreeNow self.new b) }
        ensures names { OnOk result (self.new.names + 1 ≡ self.old.names) }
        ensures same { OnErr result (current_of self.new ≡ current_of self.old) }
        ensures refused { IfErr result (λ e. e ≡ VolError.Memory) }
    {
        self.reserve_number(inode)?;
        self.reserve(inode)?;
        self.open_directory(alloc, base, dir)?;
        self.reserve_name(alloc, dir, name)?;
        self.unlink(dir, name);
        self.drop_inode(inode);
        Ok(())
    }

    /// Takes an inode away. Its number is to be given first, and there is one name less.
    pub(crate) fn drop_inode(&mut self, inode: InodeNumber)
        requires slot { HasSlot self.old inode }
        requires number { IsSome (map.get nat_cmp self.old.freed inode) }
        requires counted { 1 ≤ self.old.names }
        ensures orderly { IsOrderly self.old → IsOrderly self.new }
        ensures shown { (b : Holding) (i : ℕ) → holding_now self.new b i ≡
            with_held inode None (holding_now self.old b) i }
        ensures freed { (n : ℕ) → map.get nat_cmp self.new.freed n ≡
            cond (n == inode) (Some true) (map.get nat_cmp self.old.freed n) }
        ensures mark { self.new.mark ≡ self.old.mark }
        ensures names { self.new.names + 1 ≡ self.old.names }
    {
        self.show(inode, Changed::Gone);
        self.give_back(inode);
        self.names -= 1;
    }
}
