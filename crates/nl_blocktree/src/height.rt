//! The height of a tree that was written anew: it becomes as low as can be.
ghost use Rattle.std.specs.Prelude.{◌≡◌, ◌≢◌, ◌↔◌, ◌≤◌, ◌<◌, ◌+◌, ◌++◌, ◌∷◌, [], ℕ, List, Some, None, false, IsTrue, length, option_copied, IfOk, IfErr};
ghost use Rattle.std.specs.Option.{IsSome, option_and_then};
ghost use Rattle.nl_types.specs.Blocks.Entries.{Birth};
ghost use Rattle.nl_types.specs.Blocks.Roots.{slot};
ghost use Rattle.nl_layout.specs.Root.{root_of};
ghost use Rattle.nl_vstore.specs.Batches.{Changes, last_number};
ghost use Rattle.nl_vstore.specs.Stores.{capacity, content_in};
ghost use Rattle.nl_blocktree.specs.Putting.{GoesOn};
ghost use Rattle.nl_blocktree.specs.Private.Renewing.{IsLowered, TopDropped, TopPage};
ghost use Rattle.nl_blocktree.specs.Private.TreeLevels.{only};

use crate::read::slot_of;
use nl_layout::{Level, Root, SLOTS};
use nl_types::{Page, VirtualNumber, VolError};
use nl_vstore::{Batch, VRead, Vstore};

/// The root of a tree that was written anew, where `begun` births were there before. While the top names one
/// node alone, at its first slot, that node becomes the top.
pub(crate) fn lower<V: Vstore>(
    store: &V,
    batch: &mut Batch,
    begun: usize,
    height: u8,
    top: VirtualNumber,
) -> Result<Root, VolError>
    requires height { 1 ≤ height }
    requires most { height ≤ 3 }
    requires named { top ≢ 0 }
    ensures ok { IfOk result (λ new. IsLowered (capacity (V.store store.now)) (content_in (V.store store.now))
        begun height top (root_of new) batch.old batch.new) }
    ensures errors { IfErr result (λ e. e ≡ VolError.Memory) }
    ensures kept { (before : Changes) → begun ≡ length before.births →
        GoesOn before batch.old → GoesOn before batch.new }
{
    if height == 1 {
        return Ok(Root::Tree(Level::new(height), top));
    }
    match lone_child(store, batch, begun, top) {
        None => Ok(Root::Tree(Level::new(height), top)),
        Some(below) => {
            drop_top(batch, begun, top)?;
            lower(store, batch, begun, height - 1, below)
        }
    }
}

/// What the top names, where that is one node alone, at its first slot.
fn lone_child<V: Vstore>(
    store: &V,
    batch: &Batch,
    begun: usize,
    top: VirtualNumber,
) -> Option<VirtualNumber>
    ensures lone { (page : List ℕ) → TopPage (V.pages store.now) batch.now.births begun top page →
        (n : ℕ) → result ≡ Some n → (s : ℕ) → s < 128 → slot s page ≡ only n s }
    ensures named { (n : ℕ) → result ≡ Some n → n ≢ 0 }
    ensures more { (page : List ℕ) → TopPage (V.pages store.now) batch.now.births begun top page →
        result ≡ None → (s : ℕ) → s < 128 → IsSome (slot s page) →
        (t : ℕ) × (1 ≤ t) × (t < 128) × IsSome (slot t page) }
{
    if is_last_birth(batch, begun, top) {
        only_first(last_page(batch))
    } else {
        only_first(store.page(top))
    }
}

/// Takes back the birth of a top, or ends its number if it isn't the last one born.
fn drop_top(batch: &mut Batch, begun: usize, top: VirtualNumber) -> Result<(), VolError>
    ensures ok { IfOk result (λ _. TopDropped begun top batch.old batch.new) }
    ensures errors { IfErr result (λ e. e ≡ VolError.Memory) }
    ensures kept { (before : Changes) → begun ≡ length before.births →
        GoesOn before batch.old → GoesOn before batch.new }
{
    if is_last_birth(batch, begun, top) {
        let births = batch.birth_count() - 1;
        let ends = batch.end_count();
        batch.truncate(births, ends);
        Ok(())
    } else {
        batch.add_end(top)
    }
}

/// Whether a number is that of the last birth, and there are more births than so many.
fn is_last_birth(batch: &Batch, begun: usize, number: VirtualNumber) -> bool
    ensures { IsTrue result ↔ ((begun < length batch.now.births) × (last_number batch.now.births ≡ number)) }
{
    begun < batch.birth_count() && batch.last_number() == number
}

/// The page of the last birth.
fn last_page(batch: &Batch) -> Option<&Page>
    ensures { (init : List Birth) (b : Birth) → batch.now.births ≡ init ++ b ∷ [] →
        option_copied result ≡ Some b.page }
{
    match batch.births().last() {
        Some(birth) => Some(&birth.1),
        None => None,
    }
}

/// What the first slot of a node's page names, where no other names anything.
fn only_first(page: Option<&Page>) -> Option<VirtualNumber>
    ensures lone { (bytes : List ℕ) (n : ℕ) → option_copied page.entry ≡ Some bytes → result ≡ Some n →
        (s : ℕ) → s < 128 → slot s bytes ≡ only n s }
    ensures named { (n : ℕ) → result ≡ Some n → n ≢ 0 }
    ensures more { (bytes : List ℕ) → option_copied page.entry ≡ Some bytes → result ≡ None →
        (s : ℕ) → s < 128 → IsSome (slot s bytes) → (t : ℕ) × (1 ≤ t) × (t < 128) × IsSome (slot t bytes) }
{
    if names_later(page) {
        return None;
    }
    slot_of(page, 0)
}

/// Whether a slot behind the first one names something.
fn names_later(page: Option<&Page>) -> bool
    ensures some { IsTrue result → (t : ℕ) × (1 ≤ t) × (t < 128)
        × IsSome (option_and_then (λ bytes. slot t bytes) (option_copied page.entry)) }
    ensures none { result ≡ false → (t : ℕ) → 1 ≤ t → t < 128 →
        option_and_then (λ bytes. slot t bytes) (option_copied page.entry) ≡ None }
{
    for at in 1..SLOTS {
        if slot_of(page, at).is_some() {
            return true;
        }
    }
    false
}
