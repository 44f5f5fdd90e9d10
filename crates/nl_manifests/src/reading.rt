//! Manifests, read from the bytes that they are printed as.
ghost use Rattle.std.specs.Prelude.{◌≡◌, IfOk, IfSome, Some};
ghost use Rattle.nl_manifests.specs.Manifests.{IsManifest, printed};
ghost use Rattle.nl_manifests.specs.Readings.{is_spelled, manifest_in};
ghost use Rattle.nl_manifests.specs.Private.Reading.{Gives, all_at, file_at, kind_at, line_at, lines_at, link_at, next_line_at};
ghost use Rattle.std.specs.Option.{option_map};
ghost use Rattle.nl_manifests.specs.declared.manifest.Manifest.{Manifest};

use crate::attributes::Attributes;
use crate::fields::{ReadError, attributes_of, behind, name_of, rest_behind};
use crate::manifest::{Line, LineKind, Manifest, is_manifest};
use crate::printing::printed;
use nl_types::Items;
use std::alloc::{AllocError, Global};

type Told = (LineKind, Attributes);

#[tactic(auto, unfolding(crate::specs::Private::Reading::file_at))]
fn file_of(bytes: &[u8]) -> Result<(Told, &[u8]), ReadError>
    ensures { Gives (λ x. (x.0, x.1.now)) result (file_at bytes.now) }
{
    let (attributes, rest) = attributes_of(bytes)?;
    Ok(((LineKind::File, attributes), rest))
}

#[tactic(auto, unfolding(crate::specs::Private::Reading::link_at))]
fn link_of(alloc: Global, bytes: &[u8]) -> Result<(Told, &[u8]), ReadError>
    ensures { Gives (λ x. (x.0, x.1.now)) result (link_at bytes.now) }
{
    let (attributes, rest) = attributes_of(bytes)?;
    let rest = behind(b" link=", rest)?;
    let (target, rest) = name_of(alloc, rest)?;
    Ok(((LineKind::Link(target), attributes), rest))
}

/// What stands behind the name of a line.
#[tactic(auto, unfolding(crate::specs::Private::Reading::kind_at))]
fn kind_of(alloc: Global, bytes: &[u8]) -> Result<(Told, &[u8]), ReadError>
    ensures { Gives (λ x. (x.0, x.1.now)) result (kind_at bytes.now) }
{
    match rest_behind(b" type=file", bytes) {
        Some(rest) => file_of(rest),
        None => {
            let rest = behind(b" type=link", bytes)?;
            link_of(alloc, rest)
        }
    }
}

#[tactic(auto, unfolding(crate::specs::Private::Reading::line_at))]
fn line_of(alloc: Global, bytes: &[u8]) -> Result<(Line, &[u8]), ReadError>
    ensures { Gives (λ x. (x.0, x.1.now)) result (line_at bytes.now) }
{
    let rest = behind(b"./", bytes)?;
    let (name, rest) = name_of(alloc, rest)?;
    let ((kind, attributes), rest) = kind_of(alloc, rest)?;
    let rest = behind(b"\n", rest)?;
    let line = Line {
        name,
        kind,
        attributes,
    };
    Ok((line, rest))
}

/// The next line, none at the end.
#[tactic(auto, unfolding(crate::specs::Private::Reading::next_line_at))]
fn next_line_of(alloc: Global, bytes: &[u8]) -> Result<Option<(Line, &[u8])>, ReadError>
    ensures { Gives (option_map (λ x. (x.0, x.1.now))) result (next_line_at bytes.now) }
{
    if bytes.is_empty() {
        return Ok(None);
    }
    let line = line_of(alloc, bytes)?;
    Ok(Some(line))
}

/// All lines, which are fewer than `limit`.
fn lines_of(alloc: Global, limit: usize, bytes: &[u8]) -> Result<Items<Line>, ReadError>
    ensures { Gives (λ x. x) result (lines_at limit bytes.now) }
{
    let mut lines = Items::new(alloc);
    let mut left = bytes;
    for _ in 0..limit {
        match next_line_of(alloc, left)? {
            None => return Ok(lines),
            Some((line, rest)) => {
                lines.push(line)?;
                left = rest;
            }
        }
    }
    Err(ReadError::NoManifest)
}

/// A manifest by the fields that stand in the bytes. Others may have the same fields.
#[tactic(auto, unfolding(crate::specs::Private::Reading::all_at))]
fn all_of(alloc: Global, bytes: &[u8]) -> Result<Manifest, ReadError>
    ensures { Gives (λ x. x) result (all_at bytes.now) }
{
    let rest = behind(b"#mtree\n. type=dir", bytes)?;
    let (own, rest) = attributes_of(rest)?;
    let rest = behind(b"\n", rest)?;
    let lines = lines_of(alloc, bytes.len(), rest)?;
    Ok(Manifest { own, lines })
}

#[tactic(auto, unfolding(crate::specs::Readings::is_spelled))]
fn is_spelled(alloc: Global, manifest: &Manifest, bytes: &[u8]) -> Result<bool, AllocError>
    ensures { IfOk result (λ is. is ≡ is_spelled manifest.now bytes.now) }
{
    if !is_manifest(manifest) {
        return Ok(false);
    }
    let text = printed(alloc, manifest)?;
    Ok(text.as_slice() == bytes)
}

#[tactic(auto, unfolding(crate::specs::Readings::manifest_in))]
fn manifest_in(alloc: Global, bytes: &[u8]) -> Result<Option<Manifest>, AllocError>
    ensures { IfOk result (λ read. read ≡ manifest_in bytes.now) }
{
    let manifest = match all_of(alloc, bytes) {
        Ok(manifest) => manifest,
        Err(ReadError::Memory) => return Err(AllocError),
        Err(ReadError::NoManifest) => return Ok(None),
    };
    if is_spelled(alloc, &manifest, bytes)? {
        Ok(Some(manifest))
    } else {
        Ok(None)
    }
}

/// The manifest that is printed as these bytes. None where there is none.
///
/// # Errors
/// Memory.
pub fn read_manifest(alloc: Global, bytes: &[u8]) -> Result<Option<Manifest>, AllocError>
    ensures found { IfOk result (λ read. IfSome read
        (λ m. IsManifest m × (printed m ≡ bytes.now))) }
    ensures only { IfOk result (λ read. (m : Manifest) → IsManifest m → printed m ≡ bytes.now
        → read ≡ Some m) }
    ensures exact { IfOk result (λ read. read ≡ manifest_in bytes.now) }
{
    manifest_in(alloc, bytes)
}
