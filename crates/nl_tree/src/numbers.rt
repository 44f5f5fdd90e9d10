//! Which inode number is given next.
ghost use Rattle.std.specs.Prelude.{◌≡◌, ◌≢◌, ◌==◌, ◌+◌, ◌≤◌, ◌<◌, ℕ, true, cond, nat_le, if◌then◌else◌, Some, None, IsSome, MatchOption, IfErr, OnOk};
ghost use Rattle.std.specs.BTreeMap as map;
ghost use Rattle.std.specs.Ordering.{nat_cmp};
ghost use Rattle.nl_types.specs.Plain.Limits as limits;
ghost use Rattle.nl_types.specs.declared.error.VolError;
ghost use Rattle.nl_types.specs.Inodes.{AreInUseFrom, IsLowestFreeInode};
ghost use Rattle.nl_tree.specs.Held.{Holding};
ghost use Rattle.nl_tree.specs.Numbers.{CountsFreeNow, IsNumberFreed, lesser_option};
ghost use Rattle.nl_tree.specs.Steps.{IsFullOf};
ghost use Rattle.nl_tree.specs.Overlays.{IsOrderly, current_of, holding_now};

use crate::overlay::Overlay;
use crate::tree_read::Base;
use nl_types::limits::PATH_LIMIT;
use nl_types::{InodeNumber, VolError};

impl Overlay {
    /// The lowest number that is free and is to be given first.
    fn first_freed(&self) -> Option<InodeNumber>
        ensures { MatchOption result ((n : ℕ) → IsNumberFreed self.now n → ⊥)
            (λ n. IsNumberFreed self.now n × ((m : ℕ) → IsNumberFreed self.now m → n ≤ m)) }
    {
        for (number, is_free) in self.freed.iter() {
            if *is_free {
                return Some(*number);
            }
        }
        None
    }

    /// The lowest free number of an ordinary inode. It takes no memory.
    pub(crate) fn free_number<B: Base>(&self, base: &B) -> Option<InodeNumber>
        ensures { (b : Holding) → B.TreeRead.holds base.now b → CountsFreeNow self.now b
            → MatchOption result (AreInUseFrom (holding_now self.now b) limits.first_inode limits.inode_limit)
            (IsLowestFreeInode (holding_now self.now b) limits.first_inode) }
    {
        let first = self.first_freed();
        match first {
            Some(freed) if freed < self.mark => first,
            _ => lesser(first, base.free_from(self.mark)),
        }
    }

    /// The number of an inode that is to be new, or none where there is a name too many or no number is free.
    /// It takes no memory.
    pub(crate) fn number_for_new<B: Base>(&self, base: &B) -> Option<InodeNumber>
        ensures number { (b : Holding) → B.TreeRead.holds base.now b → CountsFreeNow self.now b
            → MatchOption result (IsFullOf self.now.names (holding_now self.now b))
            (IsLowestFreeInode (holding_now self.now b) limits.first_inode) }
        ensures limit { IsSome result → self.now.names < limits.path_limit }
    {
        if self.names < PATH_LIMIT as u64 {
            self.free_number(base)
        } else {
            None
        }
    }

    /// Makes a number one in use: it isn't given again, and the search for others begins behind it.
    pub(crate) fn take_number(&mut self, inode: InodeNumber)
        requires { inode < limits.inode_limit }
        ensures orderly { IsOrderly self.old → IsOrderly self.new }
        ensures freed { (n : ℕ) → map.get nat_cmp self.new.freed n ≡
            cond (n == inode) None (map.get nat_cmp self.old.freed n) }
        ensures mark { self.new.mark ≡ (if nat_le self.old.mark inode then inode + 1 else self.old.mark) }
        ensures changed { self.new.changed ≡ self.old.changed }
        ensures names { self.new.names ≡ self.old.names }
    {
        self.freed.remove(&inode);
        if self.mark <= inode {
            self.mark = InodeNumber::new(inode.get() + 1);
        }
    }

    /// Keeps a place for a number that is to be free. Nothing that shows changes.
    #[tactic(auto, using(crate::proofs::Shown::hidden))]
    pub(crate) fn reserve_number(&mut self, inode: InodeNumber) -> Result<(), VolError>
        ensures orderly { IsOrderly self.old → IsOrderly self.new }
        ensures same { current_of self.new ≡ current_of self.old }
        ensures changed { self.new.changed ≡ self.old.changed }
        ensures mark { self.new.mark ≡ self.old.mark }
        ensures names { self.new.names ≡ self.old.names }
        ensures place { OnOk result (IsSome (map.get nat_cmp self.new.freed inode)) }
        ensures freed { (n : ℕ) → n ≢ inode
            → map.get nat_cmp self.new.freed n ≡ map.get nat_cmp self.old.freed n }
        ensures refused { IfErr result (λ e. e ≡ VolError.Memory) }
    {
        if self.freed.get(&inode).is_none() {
            self.freed.insert(inode, false)?;
        }
        Ok(())
    }

    /// Makes a number one that is to be given first.
    pub(crate) fn give_back(&mut self, inode: InodeNumber)
        requires { IsSome (map.get nat_cmp self.old.freed inode) }
        ensures orderly { IsOrderly self.old → IsOrderly self.new }
        ensures freed { (n : ℕ) → map.get nat_cmp self.new.freed n ≡
            cond (n == inode) (Some true) (map.get nat_cmp self.old.freed n) }
        ensures changed { self.new.changed ≡ self.old.changed }
        ensures mark { self.new.mark ≡ self.old.mark }
        ensures names { self.new.names ≡ self.old.names }
    {
        if let Some(is_free) = self.freed.get_mut(&inode) {
            *is_free = true;
        }
    }
}

/// The lesser of the numbers that are there.
fn lesser(number: Option<InodeNumber>, other: Option<InodeNumber>) -> Option<InodeNumber>
    ensures { result ≡ lesser_option number other }
{
    match (number, other) {
        (None, other) => other,
        (Some(number), None) => Some(number),
        (Some(number), Some(other)) => {
            if other < number {
                Some(other)
            } else {
                Some(number)
            }
        }
    }
}
