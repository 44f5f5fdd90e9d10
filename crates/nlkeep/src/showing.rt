//! `show`: a page of HTML that stands alone, on the checkpoints, the segments and the folders of a volume.
use crate::asking::{Clock, Outcome};
use crate::checkpoints::is_minor;
use crate::comparing::Comparing;
use crate::df::tell_segments;
use crate::faults::Fault;
use crate::json::object;
use crate::looking::{Counted, amount_behind, tell_object};
use crate::outline::tell_folders;
use crate::page::{BEFORE, BEHIND};
use crate::printing::Printer;
use crate::views::View;
use nl_pins::Pins;
use nl_types::Row;
use serde::Serialize;
use std::alloc::Global;
use std::io::Write;

/// The image that a page is on.
#[derive(Drop, Serialize)]
struct ImageObject<'a> {
    image: &'a str,
}

/// Tells a checkpoint, and what it changed of the one before. It answers which one the next is compared with,
/// and that is never a minor one.
fn tell_checkpoint<W: Write>(
    alloc: Global,
    clock: &Clock<'_>,
    view: &View<'_>,
    row: &Row,
    pins: Option<&Pins>,
    before: Option<Counted>,
    printer: &mut Printer<W>,
) -> Result<Option<Counted>, Fault> {
    let amount = amount_behind(alloc, view, before.as_ref(), row.number)?;
    let counted = Counted {
        number: row.number,
        amount,
    };
    let pin = pins.and_then(|pins| pins.text(row.number));
    tell_object(alloc, clock, row, pin, Some(&counted), printer)?;
    if let Some(before) = &before {
        let comparing = Comparing {
            view,
            old: before.number,
            new: row.number,
            top: &[],
            is_json: true,
        };
        comparing.tell(alloc, printer)?;
    }
    if is_minor(row) {
        return Ok(before);
    }
    Ok(Some(counted))
}

/// Writes a page of HTML on a volume of which these are pinned.
fn show_pinned<W: Write>(
    alloc: Global,
    clock: &Clock<'_>,
    view: &View<'_>,
    pins: Option<&Pins>,
    printer: &mut Printer<W>,
) -> Result<Outcome, Fault> {
    printer.out.write_all(BEFORE.as_bytes())?;
    object(alloc, &ImageObject { image: view.path }, printer)?;
    let mut before = None;
    for row in view.rows.as_slice() {
        before = tell_checkpoint(alloc, clock, view, row, pins, before, printer)?;
    }
    tell_segments(alloc, view.path, view.pen(), printer)?;
    tell_folders(alloc, view, view.pen().latest(), printer)?;
    printer.out.write_all(BEHIND.as_bytes())?;
    Ok(Outcome::Done)
}

/// Writes a page of HTML on a volume, with nothing from elsewhere.
pub fn show<W: Write>(
    alloc: Global,
    clock: &Clock<'_>,
    view: &View<'_>,
    printer: &mut Printer<W>,
) -> Result<Outcome, Fault> {
    let pins = view.pins(alloc)?;
    show_pinned(alloc, clock, view, pins.as_ref(), printer)
}
