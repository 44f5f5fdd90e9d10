//! The file of a directory that has the attributes of what is in it.
ghost use Rattle.std.specs.Prelude.{◌≡◌};
ghost use Rattle.std.specs.List.{list_all};
ghost use Rattle.nl_manifests.specs.Manifests.{are_lines, ascend, is_kind, is_line, is_manifest, is_text};

use crate::attributes::{Attributes, are_attributes};
use nl_types::Items;

/// What a line is of.
#[derive(Drop)]
pub enum LineKind {
    File,
    /// A symbolic link with its target: some bytes without NUL.
    Link(Items<u8>),
}

/// A file or a link in a directory.
#[derive(Drop)]
pub struct Line {
    pub name: Items<u8>,
    pub kind: LineKind,
    pub attributes: Attributes,
}

/// The attributes of a directory, and those of the files and links right in it.
#[derive(Drop)]
pub struct Manifest {
    pub own: Attributes,
    /// Ascending by their names, none twice.
    pub lines: Items<Line>,
}

/// Whether a file may have this name, or a link may lead there.
#[tactic(auto, unfolding(crate::specs::Manifests::is_text))]
pub(crate) fn is_text(bytes: &[u8]) -> bool
    ensures { result ≡ is_text bytes.now }
{
    !bytes.is_empty() && !bytes.contains(&0)
}

fn is_kind(kind: &LineKind) -> bool
    ensures { result ≡ is_kind kind.now }
{
    match kind {
        LineKind::File => true,
        LineKind::Link(target) => is_text(target.as_slice()),
    }
}

#[tactic(auto, unfolding(crate::specs::Manifests::is_line))]
fn is_line(line: &Line) -> bool
    ensures { result ≡ is_line line.now }
{
    let is_named = is_text(line.name.as_slice());
    let is_told = are_attributes(line.attributes);
    is_kind(&line.kind) && (is_named && is_told)
}

fn ascend(lines: &[Line]) -> bool
    ensures { result ≡ ascend lines.now }
{
    for at in 1..lines.len() {
        let earlier = lines[at - 1].name.as_slice();
        let later = lines[at].name.as_slice();
        if !earlier.cmp(&later).is_lt() {
            return false;
        }
    }
    true
}

fn each_is_line(lines: &[Line]) -> bool
    ensures { result ≡ list_all is_line lines.now }
{
    lines.iter().all(|line| is_line(line))
}

#[tactic(auto, unfolding(crate::specs::Manifests::are_lines))]
fn are_lines(lines: &[Line]) -> bool
    ensures { result ≡ are_lines lines.now }
{
    each_is_line(lines) && ascend(lines)
}

/// Whether the manifest can be printed: its lines ascend, and each has a name, attributes and a target.
#[tactic(auto, unfolding(crate::specs::Manifests::is_manifest))]
pub(crate) fn is_manifest(manifest: &Manifest) -> bool
    ensures { result ≡ is_manifest manifest.now }
{
    are_attributes(manifest.own) && are_lines(manifest.lines.as_slice())
}
