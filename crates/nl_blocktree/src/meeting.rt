//! Which numbers a walk has met, and what it may find wrong.
ghost use Rattle.std.specs.Prelude.{◌≡◌, ◌<◌, ◌+◌, ◌^◌, ℕ, length, slice_set, IfErr, IfOk, IsSome, OnErr, OnOk, Some, false};
ghost use Rattle.nl_types.specs.declared.error.VolError;
ghost use Rattle.nl_blocktree.specs.Walked.{CanNotMeet, Meets, is_met};

use nl_types::{BLOCK_SIZE, Page, VirtualNumber, VolError};
use nl_vstore::VRead;
use std::alloc::Global;
use std::marker::Model;

/// What is wrong with a file whose blocks can't be met.
#[derive(Clone, Copy)]
pub enum WalkError {
    /// The root isn't empty, and names no node.
    NoNode,
    /// The last node of a chain names no data.
    EmptyLastNode,
    /// A node of a tree names nothing.
    EmptyNode,
    /// A tree has no level of nodes, or a lower one has room for all its data.
    TooHigh,
    /// The number has a place, and is not in use.
    NotInUse(VirtualNumber),
    /// The number has a place, and was met before, or has another place too.
    MetTwice(VirtualNumber),
}

/// Which numbers were met. Contracts see for each number that has a place whether it was.
#[derive(Drop)]
pub struct Met {
    places: Vec<bool>,
}

impl Model for Met {
    ghost use Rattle.std.specs.Prelude.{Bool, List};

    ghost Value = { List Bool };

    ghost view = { λ met. met.places.items };
}

impl Met {
    /// A table with a place for each number up to the last one. None is met. Refused by `Memory` alone.
    pub fn none(alloc: Global, last: u64) -> Result<Met, VolError>
        requires { last < 2 ^ 39 }
        ensures count { IfOk result (λ met. length met ≡ last + 1) }
        ensures none { IfOk result (λ met. (v : ℕ) → is_met met v ≡ false) }
        ensures refused { IfErr result (λ e. e ≡ VolError.Memory) }
    {
        let places = vec![in alloc; false; last as usize + 1]?;
        Ok(Met { places })
    }

    /// How many numbers have a place.
    pub fn len(&self) -> usize
        ensures { result ≡ length self.now }
    {
        self.places.len()
    }

    /// Whether a number was met.
    pub fn has(&self, number: VirtualNumber) -> bool
        ensures { result ≡ is_met self.now number }
    {
        match self.places.get(number.get() as usize) {
            Some(is_met) => *is_met,
            None => false,
        }
    }

    /// Notes whether a number is met, which has a place.
    pub fn set(&mut self, number: VirtualNumber, is_met: bool)
        requires { number < length self.old }
        ensures { self.new ≡ slice_set self.old number is_met }
    {
        self.places[number.get() as usize] = is_met;
    }

    /// Forgets which numbers were met.
    pub fn clear(&mut self)
        ensures none { (v : ℕ) → is_met self.new v ≡ false }
        ensures count { length self.new ≡ length self.old }
    {
        self.places.fill(false);
    }
}

/// Meets a number, which needs a place in the table, and answers its page. Refused by `NotInUse` and
/// `MetTwice`; then nothing is met.
pub fn meet<'a, V: VRead>(
    store: &'a V,
    met: &mut Met,
    number: VirtualNumber,
) -> Result<&'a Page, WalkError>
    requires { (v : ℕ) → IsSome (V.pages store.now v) → v < length met.old }
    ensures page { IfOk result (λ page. V.pages store.now number ≡ Some page.now) }
    ensures yes { OnOk result (Meets (V.pages store.now) number met.old met.new) }
    ensures no { IfErr result (CanNotMeet (V.pages store.now) number met.old) }
    ensures kept { OnErr result (met.new ≡ met.old) }
    ensures count { length met.new ≡ length met.old }
{
    let Some(page) = store.page(number) else {
        return Err(WalkError::NotInUse(number));
    };
    let block = page.bytes();
    prove!(block[..].len() == BLOCK_SIZE);
    if met.has(number) {
        return Err(WalkError::MetTwice(number));
    }
    met.set(number, true);
    Ok(page)
}
