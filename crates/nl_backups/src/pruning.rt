//! `prune`: the checkpoints of an image are removed that no rule of retention keeps.
ghost use Rattle.std.specs.Prelude.{◌≡◌, ◌++◌, ◌∷◌, [], IfErr, IfOk, OnErr, OnOk, is_some, unwrap_or};
ghost use Rattle.nl_types.specs.Plain.Worlds.{World};
ghost use Rattle.nl_commit.specs.Layout.{MeansWorld};
ghost use Rattle.nl_pins.specs.Pins.{text_in};
ghost use Rattle.nl_keep_pen.specs.Opened.{IsOpenedOf, RefusesForgetting};
ghost use Rattle.nl_backups.specs.Effects.{Has};
ghost use Rattle.nl_backups.specs.Hosts.{Becomes, Holds, Image};
ghost use Rattle.nl_backups.specs.Pruning.{AreExpired, Prunes, candidates_in, counted, removal};
ghost use Rattle.nl_backups.specs.Readings.{Ascend, HasRows};
ghost use Rattle.nl_backups.specs.Refusals.{RefusesAt, RefusesPins, RefusesPruning};

use crate::asking::opened_with_rows;
use crate::hosts::{Asker, Listener, Place, save_any};
use crate::reading::pins_in;
use crate::refusals::Refusal;
use nl_keep_pen::{Cleaning, OpenedVolume};
use nl_pins::{Dated, Periods, Pins, Rules, expired};
use nl_types::{CheckpointNumber, Items, Row, VolError};
use nl_words::is_plain_minor;
use std::alloc::{AllocError, Global};

/// What rules left to go.
#[derive(Drop)]
pub struct Pruned {
    /// What is told of the checkpoints that there were, the minor ones too, the oldest first.
    pub rows: Items<Row>,
    /// In which periods they lie.
    pub periods: Vec<Periods>,
    /// Those that went.
    pub numbers: Items<CheckpointNumber>,
    /// The image without them, none where none went.
    pub next: Option<Items<u8>>,
}

// ---- candidates

fn is_pinned(pins: &Pins, number: CheckpointNumber) -> bool
    ensures { result ≡ is_some (text_in pins.now.lines number) }
{
    pins.text(number).is_some()
}

/// Adds a checkpoint as rules see it, where they count it.
fn add_counted(
    pins: &Pins,
    row: &Row,
    periods: &Periods,
    all: &mut Vec<Dated>,
) -> Result<(), AllocError>
    ensures { OnOk result (all.new.items
        ≡ all.old.items ++ counted pins.now.lines ((row.now, periods.now) ∷ [])) }
{
    if is_plain_minor(row) {
        return Ok(());
    }
    all.push(Dated {
        number: row.number,
        is_pinned: is_pinned(pins, row.number),
        periods: *periods,
    })?;
    Ok(())
}

/// The checkpoints that rules count, the newest first, but for those that no periods are told of.
fn candidates(
    alloc: Global,
    pins: &Pins,
    rows: &[Row],
    periods: &[Periods],
) -> Result<Vec<Dated>, AllocError>
    ensures { IfOk result (λ all. all.items ≡ candidates_in pins.now.lines rows.now periods.now) }
{
    let mut all = Vec::new(alloc);
    for (row, periods) in rows.iter().zip(periods) {
        add_counted(pins, row, periods, &mut all)?;
    }
    all.reverse();
    Ok(all)
}

/// The checkpoints that go.
fn expired_in(
    alloc: Global,
    volume: &OpenedVolume,
    rows: &[Row],
    periods: &[Periods],
    rules: &Rules,
) -> Result<Items<CheckpointNumber>, Refusal>
    requires { Ascend rows.now }
    ensures expired { IfOk result (λ numbers. (image : Image) → IsOpenedOf image volume.now.volume.pen
        → HasRows rows.now image → AreExpired rules.now periods.now numbers image) }
    ensures refused { IfErr result (λ e. (image : Image) → IsOpenedOf image volume.now.volume.pen
        → RefusesPins image e) }
{
    let pins = pins_in(alloc, volume)?;
    let dated = candidates(alloc, &pins, rows, periods)?;
    let numbers = expired(alloc, rules, dated.as_slice())?;
    Ok(Items::from_vec(numbers))
}

// ---- removal

/// The image without checkpoints, none where there are none of these.
fn next_without(
    alloc: Global,
    volume: OpenedVolume,
    numbers: &[CheckpointNumber],
    moment: u64,
) -> Result<Option<Items<u8>>, VolError>
    ensures has { IfOk result (λ next. (image : Image) → IsOpenedOf image volume.volume.pen
        → Has (removal moment numbers.now) image (unwrap_or next image)) }
    ensures refused { IfErr result (λ e. (w : World) → MeansWorld volume.volume.pen w
        → RefusesForgetting numbers.now w e) }
{
    if numbers.is_empty() {
        return Ok(None);
    }
    let next = volume.forget(alloc, numbers, moment, Cleaning::Always)?;
    Ok(Some(Items::from_vec(next)))
}

/// What `prune` makes of an image: it isn't saved.
///
/// # Errors
/// `Host` where the asker doesn't go on; `BadPins` where the file of pins is none; `Volume` where the bytes
/// are no image, or one of the checkpoints stays.
pub fn prune_image<A: Asker<Vec<Periods>>>(
    alloc: Global,
    image: &[u8],
    asker: &mut A,
    rules: &Rules,
    moment: u64,
) -> Result<Pruned, Refusal>
    ensures prunes { IfOk result (λ done.
        Prunes rules.now moment done image.now (unwrap_or done.next image.now)) }
    ensures wished { IfOk result (λ done. Holds (A.wish asker.old) done.periods) }
    ensures refused { IfErr result (RefusesPruning image.now) }
{
    let (volume, rows, periods) = opened_with_rows(alloc, image, asker)?;
    let numbers = expired_in(alloc, &volume, rows.as_slice(), periods.as_slice(), rules)?;
    let next = next_without(alloc, volume, numbers.as_slice(), moment)?;
    Ok(Pruned {
        rows,
        periods,
        numbers,
        next,
    })
}

/// Removes the checkpoints of an image that no rule keeps, and tidies what they leave. The listener is asked in
/// which periods the moment of each row lies, in the order of the rows. Where all are kept, nothing is saved.
/// Refused, the image is as it was. The moment is in whole seconds.
///
/// # Errors
/// As `prune_image`; `Host` also where the host doesn't give the image or take the new one, and where the listener
/// doesn't go on.
pub fn prune<P: Place, L: Asker<Vec<Periods>> + Listener<Pruned>>(
    alloc: Global,
    place: &mut P,
    listener: &mut L,
    rules: &Rules,
    moment: u64,
) -> Result<Pruned, Refusal>
    ensures done { IfOk result (λ done.
        Becomes (Prunes rules.now moment done) (P.image place.old) (P.image place.new)) }
    ensures wished { IfOk result (λ done. Holds (L.wish listener.old) done.periods) }
    ensures stays { OnErr result (P.image place.new ≡ P.image place.old) }
    ensures refused { IfErr result (RefusesAt RefusesPruning (P.image place.old)) }
{
    let image = place.read(alloc)?;
    let done = prune_image(alloc, image.as_slice(), listener, rules, moment)?;
    listener.done(&done)?;
    save_any(place, &done.next)?;
    Ok(done)
}
