//! What stands at a path, and the line of a name.
ghost use Rattle.std.specs.Prelude.{◌≡◌, ◌-◌, ◌<◌, ◌≤◌, drop, length, true};
ghost use Rattle.std.specs.FinMap.{find, is_sorted};
ghost use Rattle.std.specs.Option.{option_copied};
ghost use Rattle.std.specs.Ordering.{is_lt};
ghost use Rattle.nl_types.specs.Plain.Paths.{name_cmp, path_cmp};
ghost use Rattle.nl_manifests.specs.HostTrees.{line_named};
ghost use Rattle.nl_manifests.specs.Private.Looking.{IsLineSpan, first_named, rising};
ghost use Rattle.nl_manifests.specs.Manifests.{IsManifest, ascend};

use crate::attributes::Attributes;
use crate::manifest::{Line, Manifest};
use nl_folders::{Path, compare, find_in};
use nl_names::Name;
use std::marker::Model;

// ---- entries

/// Whether each path comes behind the one before it.
fn are_rising<T>(entries: &[(Path, T)]) -> bool
    ensures { result ≡ rising entries.now }
{
    for at in 1..entries.len() {
        let earlier = &entries[at - 1];
        let later = &entries[at];
        if !compare(earlier.0.as_slice(), later.0.as_slice()).is_lt() {
            return false;
        }
    }
    true
}

/// What stands at a path. It looks at one entry after another.
fn found_in<'a, T>(entries: &'a [(Path, T)], path: &[Name]) -> Option<&'a T>
    ensures { option_copied result ≡ find path_cmp path.now entries.now }
{
    for entry in entries {
        if compare(path, entry.0.as_slice()).is_eq() {
            return Some(&entry.1);
        }
    }
    None
}

/// Entries, and whether they are in the order of their paths. They are looked for by halves then.
#[derive(Drop)]
pub(crate) struct Entries<'a, T> {
    pub(crate) all: &'a [(Path, T)],
    is_ordered: bool,
    ghost ordered: { is_ordered ≡ is_sorted path_cmp all.now },
}

impl<'a, T> Entries<'a, T> {
    pub(crate) fn of(all: &'a [(Path, T)]) -> Entries<'a, T>
        ensures { result.all.now ≡ all.entry.now }
    {
        let is_ordered = are_rising(all);
        Entries { all, is_ordered }
    }

    pub(crate) fn is_ordered(&self) -> bool
        ensures { result ≡ is_sorted path_cmp self.now.all.now }
    {
        self.is_ordered
    }

    /// What stands at a path.
    pub(crate) fn found(&self, path: &[Name]) -> Option<&'a T>
        ensures { option_copied result ≡ find path_cmp path.now self.now.all.now }
    {
        if self.is_ordered {
            find_in(self.all, path)
        } else {
            found_in(self.all, path)
        }
    }
}

// ---- lines

/// Where a line is looked for.
#[derive(Clone, Copy)]
struct Span {
    low: usize,
    high: usize,
}

fn is_below(line: &Line, name: &[u8]) -> bool
    ensures { result ≡ is_lt (name_cmp line.now.name name.now) }
{
    line.name.as_slice().cmp(&name).is_lt()
}

fn halved(lines: &[Line], span: Span, name: &[u8]) -> Span
    requires ascend { ascend lines.now ≡ true }
    requires between { IsLineSpan lines.now name.now span.low span.high }
    requires open { span.low < span.high }
    ensures between { IsLineSpan lines.now name.now result.low result.high }
    ensures shorter { result.high - result.low < span.high - span.low }
{
    let Span { low, high } = span;
    let middle = low + (high - low) / 2;
    if is_below(&lines[middle], name) {
        Span {
            low: middle + 1,
            high,
        }
    } else {
        Span { low, high: middle }
    }
}

/// The place of a name among lines that ascend: before it all are below the name.
fn place_of(lines: &[Line], name: &[u8]) -> usize
    requires { ascend lines.now ≡ true }
    ensures within { result ≤ length lines.now }
    ensures found { line_named lines.now name.now ≡ first_named (drop result lines.now) name.now }
{
    let mut span = Span {
        low: 0,
        high: lines.len(),
    };
    while span.low < span.high {
        span = halved(lines, span, name);
    }
    span.low
}

/// The first line, if it has the name.
fn first_named<'a>(lines: &'a [Line], name: &[u8]) -> Option<&'a Line>
    ensures { option_copied result ≡ first_named lines.now name.now }
{
    match lines {
        [] => None,
        [line, ..] => {
            if name.cmp(&line.name.as_slice()).is_eq() {
                Some(line)
            } else {
                None
            }
        }
    }
}

/// A manifest that was read. So its lines ascend.
#[derive(Drop)]
pub(crate) struct Known {
    manifest: Manifest,
}

impl Model for Known {
    ghost use Rattle.std.specs.Prelude.{◌≡◌, true};
    ghost use Rattle.nl_manifests.specs.declared.manifest.Manifest.{Manifest};
    ghost use Rattle.nl_manifests.specs.Manifests.{ascend};

    ghost Value = { Manifest };

    ghost view = { λ k. k.manifest };

    ghost invariant = { λ k. ascend k.manifest.lines ≡ true };
}

impl Known {
    pub(crate) fn new(manifest: Manifest) -> Known
        requires { IsManifest manifest }
        ensures { result ≡ manifest }
    {
        Known { manifest }
    }

    /// The attributes of the directory.
    pub(crate) fn own(&self) -> Attributes
        ensures { result ≡ self.now.own }
    {
        self.manifest.own
    }

    pub(crate) fn lines(&self) -> &[Line]
        ensures { result.now ≡ self.now.lines }
    {
        self.manifest.lines.as_slice()
    }

    /// The line of a name.
    pub(crate) fn line_named(&self, name: &[u8]) -> Option<&Line>
        ensures { option_copied result ≡ line_named self.now.lines name.now }
    {
        let lines = self.manifest.lines.as_slice();
        let place = place_of(lines, name);
        first_named(&lines[place..], name)
    }
}
