//! Lists of kept checkpoints.
ghost use Rattle.std.specs.Prelude.{◌≡◌, true, IfOk};
ghost use Rattle.std.specs.Option.{option_copied, option_map};
ghost use Rattle.std.specs.Ordering.{nat_cmp};
ghost use Rattle.std.specs.FinMap.{find};
ghost use Rattle.nl_types.specs.declared.event.Mode.TheVariants.{Plain};
ghost use Rattle.nl_types.specs.Plain.NumberLists.{is_one_of};
ghost use Rattle.nl_types.specs.Plain.Worlds.{Copy, greatest, greatest_stamp, numbers, copies_with_mode, copies_without};

use crate::tree::{self, Tree};
use nl_types::{CheckpointNumber, Items, Mode};
use std::alloc::{AllocError, Global};
use std::marker::Model;

/// The kept checkpoints with their numbers, ascending.
pub type Copies = Items<(CheckpointNumber, Kept)>;

/// A kept checkpoint, plain or a snapshot, as nilfs2.rst tells them apart.
#[derive(Drop)]
pub struct Kept {
    /// The whole tree as it was.
    pub tree: Tree,
    pub mode: Mode,
    /// Whether the volume made it by itself.
    pub minor: bool,
    /// In whole seconds. It never falls from one checkpoint to the next.
    pub stamp: u64,
}

impl Model for Kept {
    ghost use Rattle.nl_types.specs.Plain.Worlds.{Copy};

    ghost Value = { Copy };

    ghost view = { λ k. record { tree = k.tree; mode = k.mode; minor = k.minor; stamp = k.stamp } };
}

/// The latest checkpoint's number, or 0 where none is kept.
pub fn greatest_number(copies: &[(CheckpointNumber, Kept)]) -> u64
    ensures { result ≡ greatest (numbers copies.now) }
{
    match copies {
        [] => 0,
        [first, rest @ ..] => first.0.get().max(greatest_number(rest)),
    }
}

/// The stamp of the latest checkpoint, or 0 where none is kept.
pub fn stamp_of_latest(copies: &[(CheckpointNumber, Kept)]) -> u64
    ensures { result ≡ greatest_stamp copies.now }
{
    match find_copy(copies, CheckpointNumber::new(greatest_number(copies))) {
        Some(kept) => kept.stamp,
        None => 0,
    }
}

pub fn find_copy(copies: &[(CheckpointNumber, Kept)], n: CheckpointNumber) -> Option<&Kept>
    ensures { option_copied result ≡ find nat_cmp n copies.now }
{
    match copies {
        [] => None,
        [first, rest @ ..] => {
            if n.get().cmp(&first.0.get()).is_eq() {
                Some(&first.1)
            } else {
                find_copy(rest, n)
            }
        }
    }
}

fn copy_kept(alloc: Global, kept: &Kept) -> Result<Kept, AllocError>
    ensures { IfOk result (λ copy. copy ≡ kept.now) }
{
    Ok(Kept {
        tree: tree::copy(alloc, kept.tree.as_slice())?,
        mode: kept.mode,
        minor: kept.minor,
        stamp: kept.stamp,
    })
}

/// The copy of a number once more, as the volume makes it by itself, with a stamp, if it is kept.
pub fn minor_copy(
    alloc: Global,
    copies: &[(CheckpointNumber, Kept)],
    n: CheckpointNumber,
    stamp: u64,
) -> Result<Option<Kept>, AllocError>
    ensures { IfOk result (λ made. made ≡ option_map
        (λ (c : Copy). record c { mode = Plain; minor = true; stamp = stamp }) (find nat_cmp n copies.now)) }
{
    match find_copy(copies, n) {
        None => Ok(None),
        Some(kept) => Ok(Some(Kept {
            tree: tree::copy(alloc, kept.tree.as_slice())?,
            mode: Mode::Plain,
            minor: true,
            stamp,
        })),
    }
}

/// The copies, with this mode at a number.
pub fn with_mode(
    alloc: Global,
    copies: &[(CheckpointNumber, Kept)],
    n: CheckpointNumber,
    mode: Mode,
) -> Result<Copies, AllocError>
    ensures { IfOk result (λ new. new ≡ copies_with_mode n mode copies.now) }
{
    match copies {
        [] => Ok(Items::new(alloc)),
        [first, rest @ ..] => {
            let mut new = with_mode(alloc, rest, n, mode)?;
            let mut kept = copy_kept(alloc, &first.1)?;
            if first.0.get() == n.get() {
                kept.mode = mode;
            }
            new.push_front((first.0, kept))?;
            Ok(new)
        }
    }
}

fn is_one_of(numbers: &[CheckpointNumber], n: CheckpointNumber) -> bool
    ensures { result ≡ is_one_of numbers.now n }
{
    match numbers {
        [] => false,
        [first, rest @ ..] => n.get() == first.get() || is_one_of(rest, n),
    }
}

/// The copies without those of some numbers.
pub fn without(
    alloc: Global,
    copies: &[(CheckpointNumber, Kept)],
    gone: &[CheckpointNumber],
) -> Result<Copies, AllocError>
    ensures { IfOk result (λ new. new ≡ copies_without gone.now copies.now) }
{
    match copies {
        [] => Ok(Items::new(alloc)),
        [first, rest @ ..] => {
            let mut new = without(alloc, rest, gone)?;
            if !is_one_of(gone, first.0) {
                new.push_front((first.0, copy_kept(alloc, &first.1)?))?;
            }
            Ok(new)
        }
    }
}
