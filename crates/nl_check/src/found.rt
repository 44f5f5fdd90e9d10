//! What was found in the checkpoint that was walked last.
ghost use Rattle.std.specs.Prelude.{◌≡◌, ◌<◌, ◌+◌, ◌^◌, ℕ, length, false, true, IfErr, IfOk};
ghost use Rattle.nl_types.specs.declared.error.VolError;
ghost use Rattle.nl_types.specs.Blocks.Roots.{Pages, Root as AnyRoot};
ghost use Rattle.nl_blocktree.specs.Walked.{is_met};
ghost use Rattle.nl_check.specs.Private.SoundInodes.{TellsInodes};

use crate::kinds::Kinds;
use nl_blocktree::Met;
use nl_types::VolError;
use std::alloc::Global;

/// What a walk over checkpoints carries on: which numbers were met, and the kinds of inodes.
#[derive(Drop)]
pub(crate) struct Found {
    pub(crate) met: Met,
    pub(crate) kinds: Kinds,
    ghost few: { length met < 2 ^ 40 },
}

impl Found {
    /// Nothing is found yet. There is a place for each number up to the last one. Refused by `Memory` alone.
    pub(crate) fn nothing(alloc: Global, last: u64) -> Result<Found, VolError>
        requires { last < 2 ^ 39 }
        ensures count { IfOk result (λ found. length found.met ≡ last + 1) }
        ensures refused { IfErr result (λ e. e ≡ VolError.Memory) }
    {
        let met = Met::none(alloc, last)?;
        let kinds = Kinds::none(alloc)?;
        Ok(Found { met, kinds })
    }

    /// Forgets what was found.
    pub(crate) fn clear(&mut self)
        ensures none_met { (v : ℕ) → is_met self.new.met v ≡ false }
        ensures none_told { (pages : Pages) (root : AnyRoot) →
            TellsInodes pages root 0 self.new.kinds true }
        ensures count { length self.new.met ≡ length self.old.met }
    {
        self.met.clear();
        self.kinds.clear();
    }
}
