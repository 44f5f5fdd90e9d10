//! Which numbers are needed: the rule, who answers it, who asks, and where needed blocks are counted.
//!
//! **The rule.** A virtual block number is needed if its period has not ended, or if a kept checkpoint lies in
//! it. The period begins with the checkpoint that wrote the number's block, and is over at the first one that
//! has another block in its place. `is_period_needed` says the rule of a period and the numbers of the kept
//! checkpoints, and `is_needed` the same of what a number stands for (`nl_types/specs/Blocks/Entries.antt`).
//! What checkpoints and their removal do to it is in `NeedLaws.antt` beside that.
//!
//! **Who answers.** A [`Keeping`]: it has kept checkpoints, and tells of a period whether they need it. Two
//! types of `nl_events` do, and both search the checkpoints of a volume by `nl_protect::needed`:
//!
//! - `Tables`: all checkpoints that a volume keeps.
//! - `Staying`: those that stay once the plain ones below a number are gone. It asks by `needed_from`, which
//!   is spared the search for periods that are over before the first one that stays.
//!
//! **Who asks.** Whoever has to know takes a [`Keeping`], and sees no checkpoint:
//!
//! - [`is_number_needed`], for one number of a store.
//! - `count_needed`, `first_needed` and `list_needed`, for a segment, block by block: a count made anew, and
//!   what a move takes.
//! - `NeededCounts`: for all numbers as a volume is opened, and for those that end where checkpoints go.
//!
//! **Where needed blocks are counted.** `NeededCounts` keeps, beside a volume, how many needed numbers have
//! their pages in each segment: `needed_counts` (`nl_vstore/specs/Counts.antt`), by `IsCounted`
//! (`nl_reclaim/specs/Counted.antt`). `Parts::needed` of `nl_events` looks a count up, and `Pen`, `Locked` and
//! `Shared` hand it on; a retirement is told it, so it asks no `Keeping`. `Parts::counts_after` reckons from
//! it the counts that a round is planned by.
ghost use Rattle.std.specs.Prelude.{◌≡◌, ℕ, List};
ghost use Rattle.nl_types.specs.Blocks.Entries.{is_needed, is_period_needed};
ghost use Rattle.nl_vstore.specs.Located.{needs};
ghost use Rattle.nl_vstore.specs.Stores.{content_in};

use nl_types::{Period, VirtualNumber};
use nl_vstore::Vstore;

/// Kept checkpoints, asked what they need.
pub trait Keeping {
    /// The numbers of the kept checkpoints.
    ghost kept: { Self → List ℕ };

    /// Whether a number of this period is needed: the period has not ended, or a kept checkpoint lies in it.
    fn is_needed(&self, period: Period) -> bool
        ensures { result ≡ is_period_needed (kept self.now) period };
}

/// Whether a number is in use, and needed.
pub fn is_number_needed<V: Vstore, K: Keeping>(
    store: &V,
    keeping: &K,
    number: VirtualNumber,
) -> bool
    ensures { result ≡ needs (is_needed (K.kept keeping.now)) (content_in (V.store store.now)) number }
{
    match store.period(number) {
        Some(period) => keeping.is_needed(period),
        None => false,
    }
}
