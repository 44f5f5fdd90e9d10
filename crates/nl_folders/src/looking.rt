//! The entry of a path in a tree in order, looked for near a place. Who goes through two trees side by side
//! finds each entry beside another one a step or two further on.
ghost use Rattle.std.specs.Prelude.{◌≡◌, ◌-◌, ◌<◌, ◌≤◌, IsTrue, drop, length};
ghost use Rattle.std.specs.FinMap.{find, is_sorted};
ghost use Rattle.std.specs.Option.{option_copied};
ghost use Rattle.std.specs.Ordering.{is_lt};
ghost use Rattle.nl_types.specs.Plain.Paths.{path_cmp};
ghost use Rattle.nl_types.specs.Plain.Trees.{lookup};
ghost use Rattle.nl_folders.specs.Private.Looking.{BeginsNotBelow, IsBetween, first_at};

use crate::paths::{Path, compare, shared_names};
use nl_names::Name;
use nl_types::Object;

/// Where a look ended, and what it found.
#[derive(Clone, Copy, Drop)]
pub(crate) struct Found<'a> {
    pub(crate) place: usize,
    pub(crate) object: Option<&'a Object>,
}

fn is_below<T>(entry: &(Path, T), path: &[Name]) -> bool
    ensures { result ≡ is_lt (path_cmp entry.now.0 path.now) }
{
    compare(entry.0.as_slice(), path).is_lt()
}

/// The first place from one on whose entry isn't below the path.
fn risen(entries: &[(Path, Object)], from: usize, path: &[Name]) -> usize
    requires { from ≤ length entries.now }
    ensures within { result ≤ length entries.now }
    ensures ended { BeginsNotBelow path.now (drop result entries.now) }
{
    for place in from..entries.len() {
        if !is_below(&entries[place], path) {
            return place;
        }
    }
    entries.len()
}

/// The last place up to one before which no entry is at the path or behind it.
fn sunk(entries: &[(Path, Object)], from: usize, path: &[Name]) -> usize
    requires within { from ≤ length entries.now }
    requires begins { BeginsNotBelow path.now (drop from entries.now) }
    ensures within { result ≤ length entries.now }
    ensures ended { BeginsNotBelow path.now (drop result entries.now) }
    ensures passed { IsTrue (is_sorted path_cmp entries.now)
        → lookup entries.now path.now ≡ lookup (drop result entries.now) path.now }
{
    let mut place = from;
    while place > 0 {
        if is_below(&entries[place - 1], path) {
            return place;
        }
        place -= 1;
    }
    0
}

/// What the first entry has, if it is at the path.
fn first_at<'a, T>(entries: &'a [(Path, T)], path: &[Name]) -> Option<&'a T>
    ensures { option_copied result ≡ first_at entries.now path.now }
{
    match entries {
        [] => None,
        [first, ..] => {
            if compare(path, first.0.as_slice()).is_eq() {
                Some(&first.1)
            } else {
                None
            }
        }
    }
}

/// What stands at a path of entries in order. The look begins at a place, and goes up or down from there.
pub(crate) fn find_near<'a>(entries: &'a [(Path, Object)], near: usize, path: &[Name]) -> Found<'a>
    ensures { IsTrue (is_sorted path_cmp entries.now)
        → option_copied result.object ≡ lookup entries.now path.now }
{
    let above = risen(entries, near.min(entries.len()), path);
    let place = sunk(entries, above, path);
    Found {
        place,
        object: first_at(&entries[place..], path),
    }
}

// ---- a look by halves

/// Where an entry is looked for, and how many names the path has in common with each entry there that is below
/// it, and with each that is above it. So no look compares those names again, however deep the path is.
#[derive(Clone, Copy)]
struct Span {
    low: usize,
    high: usize,
    below: usize,
    above: usize,
}

fn halved<T>(entries: &[(Path, T)], span: Span, path: &[Name]) -> Span
    requires between { IsBetween entries.now path.now span }
    requires open { span.low < span.high }
    ensures between { IsBetween entries.now path.now result }
    ensures shorter { result.high - result.low < span.high - span.low }
{
    let Span {
        low,
        high,
        below,
        above,
    } = span;
    let middle = low + (high - low) / 2;
    let found = entries[middle].0.as_slice();
    let shared = shared_names(found, path, below.min(above));
    if compare(&found[shared..], &path[shared..]).is_lt() {
        Span {
            low: middle + 1,
            high,
            below: shared,
            above,
        }
    } else {
        Span {
            low,
            high: middle,
            below,
            above: shared,
        }
    }
}

/// The place of a path among entries in order: before it all are below the path.
pub(crate) fn place_in<T>(entries: &[(Path, T)], path: &[Name]) -> usize
    ensures within { result ≤ length entries.now }
    ensures found { IsTrue (is_sorted path_cmp entries.now)
        → find path_cmp path.now entries.now ≡ first_at (drop result entries.now) path.now }
{
    let mut span = Span {
        low: 0,
        high: entries.len(),
        below: 0,
        above: 0,
    };
    while span.low < span.high {
        span = halved(entries, span, path);
    }
    span.low
}

/// What stands at a path of entries in order. It looks at few of them.
pub fn find_in<'a, T>(entries: &'a [(Path, T)], path: &[Name]) -> Option<&'a T>
    ensures { IsTrue (is_sorted path_cmp entries.now)
        → option_copied result ≡ find path_cmp path.now entries.now }
{
    first_at(&entries[place_in(entries, path)..], path)
}
