//! Records that get another name or directory.
ghost use Rattle.std.specs.Prelude.{◌≡◌, ◌+◌, ◌≤◌, ℕ, List, None, IfErr, OnErr, OnOk};
ghost use Rattle.nl_types.specs.Plain.Limits as limits;
ghost use Rattle.nl_types.specs.declared.error.VolError;
ghost use Rattle.nl_dirs.specs.declared.record.Record.{Record};
ghost use Rattle.nl_tree.specs.Held.{Holding, IsInodeNumber};
ghost use Rattle.nl_tree.specs.Private.Moving.{AreDirectoriesOf, HasNamesOf, with_moved};
ghost use Rattle.nl_tree.specs.Numbers.{CountsFreeNow};
ghost use Rattle.nl_tree.specs.Overlays.{HasSlot, IsOrderly, KeepsRest, ShowTheSame, current_of, holding_now};
ghost use Rattle.nl_tree.specs.Steps.{with_held};

use crate::overlay::Overlay;
use crate::paths::Place;
use crate::tree_read::{Base, Link};
use nl_types::{InodeNumber, VolError};
use std::alloc::Global;

/// A record that is to be moved, and the place where it goes.
#[derive(Clone, Copy)]
pub(crate) struct PlannedRename<'p> {
    pub(crate) directory: InodeNumber,
    pub(crate) name: &'p [u8],
    pub(crate) link: Link,
    pub(crate) target: Place<'p>,
}

impl Overlay {
    /// Moves a record to a directory, another or the same, where no record has the name.
    ///
    /// Refused by `Memory` alone; then nothing that shows has changed.
    pub(crate) fn rename<B: Base>(
        &mut self,
        alloc: Global,
        base: &B,
        found: &PlannedRename,
    ) -> Result<(), VolError>
        requires { (b : Holding) × (all others : List Record) × B.TreeRead.holds base.now b
            × AreDirectoriesOf found.now (holding_now self.old b) all others }
        ensures orderly { IsOrderly self.old → IsInodeNumber found.now.directory
            → IsInodeNumber found.now.target.directory → IsOrderly self.new }
        ensures moved { (b : Holding) (all others : List Record) → B.TreeRead.holds base.now b
            → AreDirectoriesOf found.now (holding_now self.old b) all others
            → OnOk result ((i : ℕ) → holding_now self.new b i ≡
            with_moved found.now all others (holding_now self.old b) i) }
        ensures counts { (b : Holding) (all others : List Record) → B.TreeRead.holds base.now b
            → AreDirectoriesOf found.now (holding_now self.old b) all others
            → CountsFreeNow self.old b → OnOk result (CountsFreeNow self.new b) }
        ensures rest { KeepsRest self.old self.new }
        ensures same { OnErr result (current_of self.new ≡ current_of self.old) }
        ensures refused { IfErr result (λ e. e ≡ VolError.Memory) }
    {
        self.reserve_move(alloc, base, found)?;
        self.move_link(found);
        Ok(())
    }

    /// Moves a record to a directory, another or the same, where another inode's record has the name: that
    /// inode is gone, and its number is free.
    ///
    /// Refused by `Memory` alone; then nothing that shows has changed.
    pub(crate) fn rename_onto<B: Base>(
        &mut self,
        alloc: Global,
        base: &B,
        found: &PlannedRename,
        target: InodeNumber,
    ) -> Result<(), VolError>
        requires directories { (b : Holding) × (all others : List Record) × B.TreeRead.holds base.now b
            × AreDirectoriesOf found.now (holding_now self.old b) all others }
        requires counted { 1 ≤ self.old.names }
        ensures orderly { IsOrderly self.old → IsInodeNumber found.now.directory
            → IsInodeNumber found.now.target.directory → IsInodeNumber target → IsOrderly self.new }
        ensures moved { (b : Holding) (all others : List Record) → B.TreeRead.holds base.now b
            → AreDirectoriesOf found.now (holding_now self.old b) all others
            → OnOk result ((i : ℕ) → holding_now self.new b i ≡
            with_held target None (with_moved found.now all others (holding_now self.old b)) i) }
        ensures counts { (b : Holding) (all others : List Record) → B.TreeRead.holds base.now b
            → AreDirectoriesOf found.now (holding_now self.old b) all others
            → CountsFreeNow self.old b → limits.first_inode ≤ target → target ≤ limits.last_inode
            → OnOk result (CountsFreeNow self.new b) }
        ensures names { OnOk result (self.new.names + 1 ≡ self.old.names) }
        ensures same { OnErr result (current_of self.new ≡ current_of self.old) }
        ensures refused { IfErr result (λ e. e ≡ VolError.Memory) }
    {
        self.reserve_number(target)?;
        self.reserve(target)?;
        self.reserve_move(alloc, base, found)?;
        self.move_link(found);
        self.drop_inode(target);
        Ok(())
    }

    /// Keeps the places that a record's move needs. Nothing that shows changes.
    fn reserve_move<B: Base>(
        &mut self,
        alloc: Global,
        base: &B,
        found: &PlannedRename,
    ) -> Result<(), VolError>
        requires { (b : Holding) × (all others : List Record) × B.TreeRead.holds base.now b
            × AreDirectoriesOf found.now (holding_now self.old b) all others }
        ensures orderly { IsOrderly self.old → IsInodeNumber found.now.directory
            → IsInodeNumber found.now.target.directory → IsOrderly self.new }
        ensures same { current_of self.new ≡ current_of self.old }
        ensures rest { KeepsRest self.old self.new }
        ensures still { ShowTheSame self.old self.new }
        ensures places { (i : ℕ) → HasSlot self.old i → HasSlot self.new i }
        ensures names { (b : Holding) (all others : List Record) → B.TreeRead.holds base.now b
            → AreDirectoriesOf found.now (holding_now self.old b) all others
            → OnOk result (HasNamesOf found.now self.new all others) }
        ensures refused { IfErr result (λ e. e ≡ VolError.Memory) }
    {
        self.open_directory(alloc, base, found.directory)?;
        self.open_directory(alloc, base, found.target.directory)?;
        self.reserve_name(alloc, found.directory, found.name)?;
        self.reserve_name(alloc, found.target.directory, found.target.name)
    }

    /// Moves a record, where both names have places.
    fn move_link(&mut self, found: &PlannedRename)
        requires { (all others : List Record) × HasNamesOf found.now self.old all others }
        ensures orderly { IsOrderly self.old → IsOrderly self.new }
        ensures shown { (all others : List Record) → HasNamesOf found.now self.old all others
            → (b : Holding) (i : ℕ) → holding_now self.new b i ≡
            with_moved found.now all others (holding_now self.old b) i }
        ensures places { (i : ℕ) → HasSlot self.old i → HasSlot self.new i }
        ensures rest { KeepsRest self.old self.new }
    {
        self.unlink(found.directory, found.name);
        self.link(found.target.directory, found.target.name, found.link);
    }
}
