//! Images of volumes, closed, damaged and opened again where memory may be refused.
use crate::looks::look_at_pen;
use crate::rows::again::Tally;
use crate::rows::words::{byte_at, size_at, word_at};
use crate::volumes::{closed, opened};
use nl_core::Pen;
use nl_device::{Device, MemDevice};
use nl_types::VolError;
use std::alloc::Global;

/// Closes a pen, and once more where memory is refused.
pub(crate) fn closes<D: Device>(pen: &mut Pen<D>, tally: &mut Tally) -> Result<Vec<u8>, VolError> {
    let before = look_at_pen(pen);
    match closed(pen) {
        Err(VolError::Memory) => {
            tally.note(before, look_at_pen(pen));
            closed(pen)
        }
        image => image,
    }
}

/// Opens an image, and once more where memory is refused. Nothing was there before.
fn opens(alloc: Global, image: &[u8], tally: &mut Tally) -> Result<Pen<MemDevice>, VolError> {
    match opened(alloc, image) {
        Err(VolError::Memory) => {
            tally.note(0, 0);
            opened(alloc, image)
        }
        pen => pen,
    }
}

/// Puts a byte in the place of another one, and says whether that one was there.
fn has_put(image: &mut [u8], offset: usize, old: u8, new: u8) -> bool {
    match image.get_mut(offset) {
        Some(byte) if *byte == old => {
            *byte = new;
            true
        }
        _ => false,
    }
}

/// Changes an image by `cut`, which takes its last byte, by `OFFSET OLD NEW` of a byte, or not. Says whether
/// that byte was the old one.
fn has_changed(image: &mut Vec<u8>, change: &[&str]) -> bool {
    match word_at(change, 0) {
        "" => true,
        "cut" => image.pop().is_some(),
        _ => has_put(
            image.as_mut_slice(),
            size_at(change, 0),
            byte_at(change, 1),
            byte_at(change, 2),
        ),
    }
}

/// Whether the same is told of a pen, and it closes to the same bytes.
fn is_same(
    pen: &mut Pen<MemDevice>,
    image: &[u8],
    told: u64,
    tally: &mut Tally,
) -> Result<bool, VolError> {
    let same = look_at_pen(pen) == told;
    let again = closes(pen, tally)?;
    Ok(same && again.as_slice() == image)
}

/// Whether an image opens to a volume of which the same is told, and which closes to the same bytes.
fn comes_back(alloc: Global, image: &[u8], told: u64, tally: &mut Tally) -> Result<bool, VolError> {
    let mut pen = opens(alloc, image, tally)?;
    let same = is_same(&mut pen, image, told, tally);
    drop(pen);
    same
}

/// How many bytes the image of a pen has that comes back; None where it doesn't. Words may ask for a change
/// of the image.
pub(crate) fn image_size<D: Device>(
    alloc: Global,
    pen: &mut Pen<D>,
    change: &[&str],
    tally: &mut Tally,
) -> Result<Option<usize>, VolError> {
    let mut image = closes(pen, tally)?;
    if !has_changed(&mut image, change) {
        return Ok(None);
    }
    let told = look_at_pen(pen);
    let same = comes_back(alloc, image.as_slice(), told, tally)?;
    Ok(if same { Some(image.len()) } else { None })
}
