//! What one checkpoint changes.
ghost use Rattle.std.specs.Prelude.{◌≡◌, ℕ, ◌+◌, ◌≤◌, ◌<◌, true, [], ◌∷◌, ◌++◌, length, take, OnOk, OnErr};
ghost use Rattle.nl_vstore.specs.Batches.{births_of, with_page};

use crate::Payload;
use nl_layout::Tag;
use nl_types::{Page, VirtualNumber, VolError};
use std::alloc::Global;
use std::marker::Model;

/// The changes that one checkpoint makes: the pages that are born, in the order in which they are written,
/// and the numbers that end. `Vstore::fresh` gives the number for the next birth.
#[derive(Drop)]
pub struct Batch {
    births: Vec<Payload>,
    ends: Vec<VirtualNumber>,
}

impl Model for Batch {
    ghost use Rattle.nl_vstore.specs.Batches.{Changes, births_of};

    ghost Value = { Changes };

    ghost view = { λ b. record { births = births_of b.births.items; ends = b.ends.items } };
}

impl Batch {
    ghost use Rattle.nl_types.specs.Blocks.Entries.{Content};
    ghost use Rattle.nl_vstore.specs.Batches.{Changes, CanBeTaken, IsLowestFree, births_of, birth_of_item, last_number, is_live, with_page};

    /// No change.
    pub fn new(alloc: Global) -> Batch
        ensures births { result.births ≡ [] }
        ensures ends { result.ends ≡ [] }
        ensures fits { (capacity : ℕ) (content : Content) → CanBeTaken capacity content result }
    {
        let births = Vec::new(alloc);
        let ends = Vec::new(alloc);
        Batch { births, ends }
    }

    /// The pages that are born, each with what it is, in the order in which they are written.
    pub fn births(&self) -> &[Payload]
        ensures { births_of result.now ≡ self.now.births }
    {
        &self.births
    }

    /// The numbers that end.
    pub fn ends(&self) -> &[VirtualNumber]
        ensures { result.now ≡ self.now.ends }
    {
        &self.ends
    }

    /// How many pages are born.
    pub fn birth_count(&self) -> usize
        ensures { result ≡ length self.now.births }
    {
        self.births.len()
    }

    /// How many numbers end.
    pub fn end_count(&self) -> usize
        ensures { result ≡ length self.now.ends }
    {
        self.ends.len()
    }

    /// The number of the last birth, 0 where there is none.
    pub fn last_number(&self) -> VirtualNumber
        ensures { result ≡ last_number self.now.births }
    {
        match self.births.last() {
            Some(birth) => birth.0.number,
            None => VirtualNumber::new(0),
        }
    }

    /// Adds the birth of a page behind the others. A batch that fits a store still does where the number is
    /// the lowest free one. Refused by `Memory` alone.
    pub fn add_birth(&mut self, tag: Tag, page: Page) -> Result<(), VolError>
        ensures ok { OnOk result (self.new ≡
            record self.old { births = self.old.births ++ birth_of_item (tag, page) ∷ [] }) }
        ensures fits { OnOk result ((capacity : ℕ) (content : Content) → CanBeTaken capacity content self.old
            → IsLowestFree content self.old.births tag.number
            → tag.number ≤ capacity + length self.old.births + 1 → CanBeTaken capacity content self.new) }
        ensures err { OnErr result (self.new ≡ self.old) }
        ensures memory { OnErr result (result ≡ Err VolError.Memory) }
    {
        self.push_birth((tag, page))
    }

    fn push_birth(&mut self, birth: Payload) -> Result<(), VolError>
        ensures ok { OnOk result (self.new ≡
            record self.old { births = self.old.births ++ birth_of_item birth ∷ [] }) }
        ensures err { OnErr result (self.new ≡ self.old) }
        ensures memory { OnErr result (result ≡ Err VolError.Memory) }
    {
        match self.births.push(birth) {
            Ok(()) => Ok(()),
            Err(_) => Err(VolError::Memory),
        }
    }

    /// Adds the end of a number. A batch that fits a store still does where the number is in use and has not
    /// ended. Refused by `Memory` alone.
    pub fn add_end(&mut self, number: VirtualNumber) -> Result<(), VolError>
        ensures ok { OnOk result (self.new ≡ record self.old { ends = self.old.ends ++ number ∷ [] }) }
        ensures fits { OnOk result ((capacity : ℕ) (content : Content) → CanBeTaken capacity content self.old
            → is_live (content number) ≡ true → CanBeTaken capacity content self.new) }
        ensures err { OnErr result (self.new ≡ self.old) }
        ensures memory { OnErr result (result ≡ Err VolError.Memory) }
    {
        self.push_end(number)
    }

    /// Puts a page in the place of a birth's. A batch that fits a store still does.
    pub fn set_page(&mut self, index: usize, page: Page)
        requires { index < length self.old.births }
        ensures page { self.new ≡ record self.old { births = with_page index page self.old.births } }
        ensures fits { (capacity : ℕ) (content : Content) → CanBeTaken capacity content self.old
            → CanBeTaken capacity content self.new }
    {
        self.replace_page(index, page);
    }

    fn replace_page(&mut self, index: usize, page: Page)
        requires { index < length self.old.births }
        ensures { self.new ≡ record self.old { births = with_page index page self.old.births } }
    {
        set_page_of(&mut self.births, index, page);
    }

    /// Takes back all births and ends but the first so many.
    pub fn truncate(&mut self, births: usize, ends: usize)
        ensures births { self.new.births ≡ take births self.old.births }
        ensures ends { self.new.ends ≡ take ends self.old.ends }
    {
        self.births.truncate(births);
        self.ends.truncate(ends);
    }

    fn push_end(&mut self, number: VirtualNumber) -> Result<(), VolError>
        ensures ok { OnOk result (self.new ≡ record self.old { ends = self.old.ends ++ number ∷ [] }) }
        ensures err { OnErr result (self.new ≡ self.old) }
        ensures memory { OnErr result (result ≡ Err VolError.Memory) }
    {
        match self.ends.push(number) {
            Ok(()) => Ok(()),
            Err(_) => Err(VolError::Memory),
        }
    }
}

fn set_page_of(births: &mut [Payload], index: usize, page: Page)
    requires { index < length births.old }
    ensures { births_of births.new ≡ with_page index page (births_of births.old) }
{
    births[index].1 = page;
}
