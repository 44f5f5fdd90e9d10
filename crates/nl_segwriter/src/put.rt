//! Pages put on the device, one after another.
ghost use Rattle.std.specs.Prelude.{◌≡◌, ◌+◌, ◌*◌, ◌<◌, ◌≤◌, ℕ, List, Some, length, OnOk, OnErr, IfErr};
ghost use Rattle.nl_types.specs.Plain.Limits as limits;
ghost use Rattle.nl_device.specs.Failures.{CountsWrites, FailsToWrite};
ghost use Rattle.nl_device.specs.Pages.{KeepsOthers};
ghost use Rattle.nl_segwriter.specs.Images.{page_in};
ghost use Rattle.nl_segwriter.specs.Writing.{HasPut, HasTried};

use nl_device::{Device, Fault};
use nl_types::{BlockNumber, Items, Page};

/// A put failed. Nothing is known of the block that it was for.
#[derive(Clone, Copy)]
pub struct PutFailed {
    /// How many puts were tried, the failed one included.
    pub tried: u32,
}

/// Puts the pages at the numbers from `first` on, in order.
pub fn put_row<D: Device>(device: &mut D, first: u32, pages: Items<Page>) -> Result<(), PutFailed>
    requires { first + length pages ≤ (D.shape device.old).segments * (D.shape device.old).blocks }
    ensures put { OnOk result (HasPut first pages (D.pages device.old) (D.pages device.new)) }
    ensures tried { IfErr result
        (λ e. HasTried first e.tried pages (D.pages device.old) (D.pages device.new)) }
    ensures failed { OnErr result (FailsToWrite (D.failed device.old) (D.failed device.new)) }
    ensures unfailed { OnOk result (D.failed device.new ≡ D.failed device.old) }
    ensures counted { CountsWrites (D.failed device.old) (D.failed device.new) }
    ensures shape { D.shape device.new ≡ D.shape device.old }
{
    let mut tried = 0;
    for page in pages.into_vec() {
        let number = BlockNumber::new(first + tried);
        tried += 1;
        if device.put(number, page).is_err() {
            return Err(PutFailed { tried });
        }
    }
    Ok(())
}

/// Puts the pages that there are, each at its number.
pub fn put_pages<D: Device>(device: &mut D, pages: Items<Option<Page>>) -> Result<(), Fault>
    requires inside { length pages ≤ (D.shape device.old).segments * (D.shape device.old).blocks }
    requires few { length pages ≤ limits.volume_block_limit }
    ensures put { OnOk result ((b : ℕ) (page : List ℕ) → page_in pages b ≡ Some page
        → D.pages device.new b ≡ Some page) }
    ensures failed { OnErr result (FailsToWrite (D.failed device.old) (D.failed device.new)) }
    ensures unfailed { OnOk result (D.failed device.new ≡ D.failed device.old) }
    ensures counted { CountsWrites (D.failed device.old) (D.failed device.new) }
    ensures shape { D.shape device.new ≡ D.shape device.old }
{
    let mut number = 0;
    for page in pages.into_vec() {
        put_page(device, BlockNumber::new(number), page)?;
        number += 1;
    }
    Ok(())
}

fn put_page<D: Device>(device: &mut D, number: BlockNumber, page: Option<Page>) -> Result<(), Fault>
    requires { number < (D.shape device.old).segments * (D.shape device.old).blocks }
    ensures put { OnOk result ((put : List ℕ) → page ≡ Some put → D.pages device.new number ≡ Some put) }
    ensures others { KeepsOthers number (D.pages device.old) (D.pages device.new) }
    ensures failed { OnErr result (FailsToWrite (D.failed device.old) (D.failed device.new)) }
    ensures unfailed { OnOk result (D.failed device.new ≡ D.failed device.old) }
    ensures counted { CountsWrites (D.failed device.old) (D.failed device.new) }
    ensures shape { D.shape device.new ≡ D.shape device.old }
{
    match page {
        Some(page) => device.put(number, page),
        None => Ok(()),
    }
}
