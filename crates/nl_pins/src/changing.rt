//! Pins that come and go.
ghost use Rattle.std.specs.Prelude.{◌≡◌, ◌++◌, ◌∷◌, [], not, IfOk, OnOk};
ghost use Rattle.std.specs.Fmt.{decimal};
ghost use Rattle.std.specs.List.{filter};
ghost use Rattle.nl_types.specs.Plain.Decimals.{decimal_in};
ghost use Rattle.nl_pins.specs.Pins.{has_row, is_among, is_before, is_other, kind_with, others, pin_line, with_line, with_pin};

use crate::pins::{Pins, is_of, number_of, pinned_at};
use nl_manifests::{Line, LineKind};
use nl_types::{CheckpointNumber, Items, Row, put_decimal};
use std::alloc::{AllocError, Global};

// ---- lines of others

/// Whether one of the rows is of a checkpoint.
fn has_row(rows: &[Row], number: u64) -> bool
    ensures { result ≡ has_row rows.now number }
{
    for row in rows {
        if row.number.get() == number {
            return true;
        }
    }
    false
}

/// The same of what may be none.
fn is_among(rows: &[Row], number: Option<CheckpointNumber>) -> bool
    ensures { result ≡ is_among rows.now number }
{
    match number {
        None => false,
        Some(number) => has_row(rows, number.get()),
    }
}

fn is_other(rows: &[Row], number: CheckpointNumber, line: &Line) -> bool
    ensures { result ≡ is_other rows.now number line.now }
{
    is_among(rows, number_of(line)) && !is_of(line, number)
}

fn add_other(
    rows: &[Row],
    number: CheckpointNumber,
    line: Line,
    rest: &mut Items<Line>,
) -> Result<(), AllocError>
    ensures { OnOk result (rest.new ≡ rest.old ++ others rows.now number (line ∷ [])) }
{
    if is_other(rows, number, &line) {
        rest.push(line)
    } else {
        Ok(())
    }
}

/// The lines of checkpoints among the rows, but for one.
fn others(
    alloc: Global,
    rows: &[Row],
    number: CheckpointNumber,
    lines: Items<Line>,
) -> Result<Items<Line>, AllocError>
    ensures { IfOk result (λ rest. rest ≡ others rows.now number lines) }
{
    let mut rest = Items::new(alloc);
    for line in lines.into_vec() {
        add_other(rows, number, line, &mut rest)?;
    }
    Ok(rest)
}

// ---- a line more

fn kind_with(alloc: Global, text: &[u8]) -> Result<LineKind, AllocError>
    ensures { IfOk result (λ kind. kind ≡ kind_with text.now) }
{
    match text {
        [] => Ok(LineKind::File),
        [_, ..] => Ok(LineKind::Link(Items::from_slice(alloc, text)?)),
    }
}

/// The digits of a number.
fn digits(alloc: Global, number: u64) -> Result<Items<u8>, AllocError>
    ensures { IfOk result (λ digits. digits ≡ decimal number) }
{
    let mut digits = Vec::new(alloc);
    put_decimal(alloc, &mut digits, number)?;
    Ok(Items::from_vec(digits))
}

/// The line of a checkpoint.
fn pin_line(
    alloc: Global,
    number: CheckpointNumber,
    text: &[u8],
    moment: u64,
) -> Result<Line, AllocError>
    ensures { IfOk result (λ line. line ≡ pin_line number text.now moment) }
{
    let name = digits(alloc, number.get())?;
    let kind = kind_with(alloc, text)?;
    Ok(Line {
        name,
        kind,
        attributes: pinned_at(moment),
    })
}

fn is_before(line: &Line, other: &Line) -> bool
    ensures { result ≡ is_before line.now other.now }
{
    other.name.as_slice().cmp(&line.name.as_slice()).is_lt()
}

/// Adds a line to those before another one, or to those behind it.
fn add_beside(
    other: Line,
    line: &Line,
    before: &mut Items<Line>,
    behind: &mut Items<Line>,
) -> Result<(), AllocError>
    ensures before { OnOk result (before.new ≡ before.old ++ filter (is_before line.now) (other ∷ [])) }
    ensures behind { OnOk result
        (behind.new ≡ behind.old ++ filter (λ l. not (is_before line.now l)) (other ∷ [])) }
{
    if is_before(line, &other) {
        before.push(other)
    } else {
        behind.push(other)
    }
}

/// The lines with one more, in the order of the names.
fn with_line(alloc: Global, line: Line, lines: Items<Line>) -> Result<Items<Line>, AllocError>
    ensures { IfOk result (λ all. all ≡ with_line line lines) }
{
    let mut before = Items::new(alloc);
    let mut behind = Items::new(alloc);
    for other in lines.into_vec() {
        add_beside(other, &line, &mut before, &mut behind)?;
    }
    before.push(line)?;
    before.append(behind.into_vec())?;
    Ok(before)
}

impl Pins {
    /// The same, without a checkpoint, and without those that are not among the rows, which are of all kept ones.
    ///
    /// # Errors
    /// Memory.
    pub fn without(
        self,
        alloc: Global,
        rows: &[Row],
        number: CheckpointNumber,
    ) -> Result<Pins, AllocError>
        ensures { IfOk result (λ pins. pins.lines ≡ others rows.now number self.lines) }
    {
        let lines = others(alloc, rows, number, self.lines)?;
        Ok(Pins { lines })
    }

    /// The same, and then with a checkpoint that is pinned at a moment, and what is noted of it.
    ///
    /// # Errors
    /// Memory.
    pub fn with(
        self,
        alloc: Global,
        rows: &[Row],
        number: CheckpointNumber,
        text: &[u8],
        moment: u64,
    ) -> Result<Pins, AllocError>
        ensures { IfOk result (λ pins. pins.lines
            ≡ with_pin rows.now number text.now moment self.lines) }
    {
        let lines = others(alloc, rows, number, self.lines)?;
        let line = pin_line(alloc, number, text, moment)?;
        let lines = with_line(alloc, line, lines)?;
        Ok(Pins { lines })
    }
}
