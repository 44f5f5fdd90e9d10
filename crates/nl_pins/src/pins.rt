//! The file of pins: what is pinned, and what was noted of it.
ghost use Rattle.std.specs.Prelude.{◌≡◌, [], IfOk, option_map};
ghost use Rattle.nl_types.specs.Plain.Decimals.{decimal_in};
ghost use Rattle.nl_manifests.specs.Readings.{manifest_in};
ghost use Rattle.nl_pins.specs.Pins.{file_of, is_of, noted, pinned_at, text_in};

use nl_manifests::{Attributes, Line, LineKind, Manifest, Time, printed, read_manifest};
use nl_types::{CheckpointNumber, Items, decimal};
use std::alloc::{AllocError, Global};
use std::str;

/// The checkpoints that are pinned.
#[derive(Drop)]
pub struct Pins {
    /// A line of each, whose name is its number, and whose link leads to what was noted of it.
    pub lines: Items<Line>,
}

/// What a line has in the place of attributes: the moment at which its checkpoint was pinned.
pub(crate) fn pinned_at(moment: u64) -> Attributes
    ensures { result ≡ pinned_at moment }
{
    Attributes {
        mode: 0,
        owner: 0,
        group: 0,
        time: Time {
            is_negative: false,
            seconds: moment,
            nanoseconds: 0,
        },
    }
}

/// The checkpoint that a line is of, none where its name is no number.
pub(crate) fn number_of(line: &Line) -> Option<CheckpointNumber>
    ensures { result ≡ decimal_in line.now.name }
{
    match str::from_utf8(line.name.as_slice()) {
        Ok(word) => Some(CheckpointNumber::new(decimal(word)?)),
        Err(_) => None,
    }
}

pub(crate) fn is_of(line: &Line, number: CheckpointNumber) -> bool
    ensures { result ≡ is_of number line.now }
{
    match number_of(line) {
        Some(other) => other.get() == number.get(),
        None => false,
    }
}

fn noted(kind: &LineKind) -> &[u8]
    ensures { result.now ≡ noted kind.now }
{
    match kind {
        LineKind::File => &[],
        LineKind::Link(text) => text.as_slice(),
    }
}

/// What the lines note of a checkpoint.
fn text_in<'a>(lines: &'a [Line], number: CheckpointNumber) -> Option<&'a [u8]>
    ensures { option_map (λ t. t.now) result ≡ text_in lines.now number }
{
    for line in lines {
        if is_of(line, number) {
            return Some(noted(&line.kind));
        }
    }
    None
}

impl Pins {
    /// None at all.
    pub fn none(alloc: Global) -> Pins
        ensures { result.lines ≡ [] }
    {
        Pins {
            lines: Items::new(alloc),
        }
    }

    /// Those that stand in a file. None where that is no manifest, as another program may have written it.
    ///
    /// # Errors
    /// Memory.
    pub fn read(alloc: Global, bytes: &[u8]) -> Result<Option<Pins>, AllocError>
        ensures { IfOk result (λ pins.
            option_map (λ p. p.lines) pins ≡ option_map (λ m. m.lines) (manifest_in bytes.now)) }
    {
        match read_manifest(alloc, bytes)? {
            Some(manifest) => Ok(Some(Pins {
                lines: manifest.lines,
            })),
            None => Ok(None),
        }
    }

    /// The bytes of their file. None where nothing is pinned.
    ///
    /// # Errors
    /// Memory.
    pub fn printed(self, alloc: Global) -> Result<Option<Items<u8>>, AllocError>
        ensures { IfOk result (λ bytes. bytes ≡ file_of self.lines) }
    {
        if self.lines.is_empty() {
            return Ok(None);
        }
        let manifest = Manifest {
            own: pinned_at(0),
            lines: self.lines,
        };
        let bytes = printed(alloc, &manifest)?;
        Ok(Some(bytes))
    }

    /// What was noted of a checkpoint, which may be nothing. None where it isn't pinned.
    pub fn text(&self, number: CheckpointNumber) -> Option<&[u8]>
        ensures { option_map (λ t. t.now) result ≡ text_in self.now.lines number }
    {
        text_in(self.lines.as_slice(), number)
    }
}
