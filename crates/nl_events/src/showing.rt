//! All that readers see of a pen.
ghost use Rattle.std.specs.Prelude.{◌≡◌, map, IfOk};
ghost use Rattle.std.specs.Option.{option_map};
ghost use Rattle.nl_vstore.specs.Stores.{numbered_in};
ghost use Rattle.nl_commit.specs.Notes.{shown_of, shown_page};
ghost use Rattle.nl_commit.specs.Shown.{MountsRise, whole_of};

use crate::parts::Parts;
use nl_commit::{ShownPage, Whole};
use nl_types::{Items, VirtualNumber};
use nl_vstore::Vstore;
use std::alloc::{AllocError, Global};

/// What readers see of a number, where it is in use.
fn shown<V: Vstore>(store: &V, number: VirtualNumber) -> Result<Option<ShownPage>, AllocError>
    ensures { IfOk result (λ page. page ≡ option_map shown_page (numbered_in (V.store store.now) number)) }
{
    let Some(page) = store.page(number) else {
        return Ok(None);
    };
    let Some(period) = store.period(number) else {
        return Ok(None);
    };
    let page = page.share()?;
    Ok(Some(ShownPage { page, period }))
}

/// What readers see of each number, from 0 on.
fn shown_numbers<V: Vstore>(
    alloc: Global,
    store: &V,
) -> Result<Items<Option<ShownPage>>, AllocError>
    ensures { IfOk result (λ numbers. numbers ≡ map (option_map shown_page) (V.store store.now).numbers) }
{
    let count = store.capacity() + 1;
    let mut numbers = Vec::with_capacity(alloc, count as usize)?;
    for number in 0..count {
        let page = shown(store, VirtualNumber::new(number))?;
        numbers.push(page)?;
    }
    Ok(Items::from_vec(numbers))
}

impl<V: Vstore> Parts<V> {
    /// All that readers see. Refused by `Memory` alone.
    pub fn whole(&self) -> Result<Whole, AllocError>
        ensures state { IfOk result (λ w. whole_of w ≡ shown_of self.now) }
        ensures mounts { IfOk result (λ w. MountsRise (whole_of w)) }
    {
        let numbers = shown_numbers(self.alloc, &self.store)?;
        self.tables.whole(self.alloc, numbers)
    }
}
