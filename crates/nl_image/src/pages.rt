//! The pages of an image under their virtual block numbers.
ghost use Rattle.std.specs.Prelude.{◌≡◌, option_copied};
ghost use Rattle.std.specs.Option.{option_map};
ghost use Rattle.nl_segwriter.specs.Images.{page_in};
ghost use Rattle.nl_dat.specs.Table.{addresses_of, entry_in};

use nl_dat::DatEntry;
use nl_types::{BlockNumber, Page, Period, VirtualNumber};
use nl_vstore::VRead;

/// What the table of an image has for each number, and the pages of the used blocks.
#[derive(Clone, Copy, Drop)]
pub(crate) struct ImagePages<'a> {
    pub(crate) numbers: &'a [Option<DatEntry>],
    pub(crate) pages: &'a [Option<Page>],
}

impl VRead for ImagePages<'_> {
    ghost use Rattle.nl_image.specs.ReadPages.{pages_under, periods_under};

    ghost pages = { λ i. pages_under i.numbers.now i.pages.now };

    ghost periods = { λ i. periods_under i.numbers.now };

    fn page(&self, number: VirtualNumber) -> Option<&Page> {
        page_at(self.pages, block_of(self.numbers, number)?)
    }

    fn period(&self, number: VirtualNumber) -> Option<Period> {
        let entry = entry_at(self.numbers, number)?;
        Some(entry.period())
    }
}

fn entry_at(numbers: &[Option<DatEntry>], number: VirtualNumber) -> Option<DatEntry>
    ensures { result ≡ entry_in numbers.now number }
{
    *numbers.get(number.get() as usize)?
}

/// The block of a number in use.
fn block_of(numbers: &[Option<DatEntry>], number: VirtualNumber) -> Option<BlockNumber>
    ensures { result ≡ addresses_of (entry_in numbers.now) number }
{
    let entry = entry_at(numbers, number)?;
    Some(entry.block)
}

/// The page of a used block.
fn page_at(pages: &[Option<Page>], block: BlockNumber) -> Option<&Page>
    ensures { option_copied result ≡ page_in pages.now block }
{
    match pages.get(block.get() as usize) {
        Some(Some(page)) => Some(page),
        _ => None,
    }
}
