//! Manifests: the modes, times, owners and symbolic links of a directory, as nlkeep keeps them in a file. A
//! manifest is read, or made line by line, and is in the handle meanwhile; the volume isn't asked.
ghost use Rattle.std.specs.Prelude.{◌≡◌, slice_get, IfErr, IfOk};
ghost use Rattle.nl_manifests.specs.Readings.{manifest_in};
ghost use Rattle.nl_c.specs.Manifests.{HasLine, IsAdded, IsBegun, IsLineOf, IsLineTold, IsManifestLeft, IsManifestRead, IsPrintedIn, attributes_in, attributes_told, kind_in, target_in};
ghost use Rattle.nl_c.specs.Statuses.{memory};

use crate::calls::copied;
use crate::copying::copy_bytes;
use crate::status::{CLOSED, DONE, MEMORY, WRONG_ARGUMENT};
use crate::volume::Volume;
use nl_manifests::{Attributes, Line, LineKind, Manifest, Time, printed, read_manifest};
use nl_types::Items;
use std::alloc::Global;

/// The twelve bits that chmod(2) sets, the owners, and the time of the last change: seconds that count from
/// 1970, or back from it if `is_negative` is 1, and what comes to them.
#[repr(C)]
#[derive(Clone, Copy)]
pub struct AttributesTold {
    pub mode: u64,
    pub owner: u64,
    pub group: u64,
    pub is_negative: u64,
    pub seconds: u64,
    pub nanoseconds: u64,
}

/// A line of a manifest. A file has a target of 0 bytes, and a link one of some.
#[repr(C)]
#[derive(Clone, Copy)]
pub struct LineTold {
    pub name_size: u64,
    pub target_size: u64,
    pub attributes: AttributesTold,
}

// ---- attributes

pub(crate) fn attributes_told(attributes: Attributes) -> AttributesTold
    ensures { result ≡ attributes_told attributes }
{
    AttributesTold {
        mode: u64::from(attributes.mode),
        owner: u64::from(attributes.owner),
        group: u64::from(attributes.group),
        is_negative: if attributes.time.is_negative { 1 } else { 0 },
        seconds: attributes.time.seconds,
        nanoseconds: u64::from(attributes.time.nanoseconds),
    }
}

/// The attributes that are told; none where a number is none of its kind.
fn attributes_in(told: AttributesTold) -> Option<Attributes>
    ensures { result ≡ attributes_in told }
{
    let fits = told.mode < 4096 && told.owner < 4_294_967_296 && told.group < 4_294_967_296;
    let is_time = told.is_negative < 2 && told.nanoseconds < 1_000_000_000;
    if !fits || !is_time {
        return None;
    }
    Some(Attributes {
        mode: told.mode as u16,
        owner: told.owner as u32,
        group: told.group as u32,
        time: Time {
            is_negative: told.is_negative == 1,
            seconds: told.seconds,
            nanoseconds: told.nanoseconds as u32,
        },
    })
}

// ---- lines

/// The target of a link; no bytes of a file.
fn target_in(kind: &LineKind) -> &[u8]
    ensures { result.now ≡ target_in kind.now }
{
    match kind {
        LineKind::File => &[],
        LineKind::Link(target) => target.as_slice(),
    }
}

/// What a target says: with no bytes, that it is a file.
fn kind_in(target: Items<u8>) -> LineKind
    ensures { result ≡ kind_in target }
{
    if target.is_empty() {
        LineKind::File
    } else {
        LineKind::Link(target)
    }
}

/// Tells a line by its place.
fn tell_line(
    lines: &[Line],
    index: u64,
    name: &mut [u8],
    target: &mut [u8],
    told: &mut LineTold,
) -> u32
    ensures { IsLineTold (slice_get lines.now index) name.old target.old told.old
        result name.new target.new told.new }
{
    match lines.get(index as usize) {
        None => WRONG_ARGUMENT,
        Some(line) => {
            let whole_name = line.name.as_slice();
            let whole_target = target_in(&line.kind);
            told.name_size = whole_name.len() as u64;
            told.target_size = whole_target.len() as u64;
            told.attributes = attributes_told(line.attributes);
            copy_bytes(whole_name, name);
            copy_bytes(whole_target, target);
            DONE
        }
    }
}

/// A line with copies of what the caller lends.
fn line_of(alloc: Global, name: &[u8], target: &[u8], attributes: Attributes) -> Result<Line, u32>
    ensures made { IfOk result (λ line. HasLine name.now target.now attributes line) }
    ensures refused { IfErr result (λ status. status ≡ memory) }
{
    match (copied(alloc, name), copied(alloc, target)) {
        (Ok(name), Ok(target)) => Ok(Line {
            name,
            kind: kind_in(target),
            attributes,
        }),
        _ => Err(MEMORY),
    }
}

// ---- bytes

/// The bytes of a manifest; refused by 65 where it is none.
fn bytes_of(alloc: Global, manifest: &Manifest) -> Result<Items<u8>, u32>
    ensures { IsPrintedIn manifest.now result }
{
    let Ok(bytes) = printed(alloc, manifest) else {
        return Err(MEMORY);
    };
    match read_manifest(alloc, bytes.as_slice()) {
        Ok(Some(_)) => Ok(bytes),
        Ok(None) => Err(WRONG_ARGUMENT),
        Err(_) => Err(MEMORY),
    }
}

// ---- calls

/// Reads a manifest, and leaves it in the handle. `own` gets the attributes of the directory, and `count` how
/// many lines there are. Refused by 65 where the bytes are none.
#[unsafe(no_mangle)]
pub extern "C" fn nlvol_manifest_read(
    alloc: Global,
    volume: &mut Volume,
    bytes: &[u8],
    own: &mut AttributesTold,
    count: &mut u64,
) -> u32
    ensures { IsManifestRead volume.old.place.held (manifest_in bytes.now) own.old count.old
        result volume.new.place.held own.new count.new }
{
    match volume.take(alloc) {
        None => CLOSED,
        Some(mut held) => match read_manifest(alloc, bytes) {
            Ok(Some(manifest)) => {
                *own = attributes_told(manifest.own);
                *count = manifest.lines.len() as u64;
                held.manifest = manifest;
                volume.put(held);
                DONE
            }
            Ok(None) => {
                volume.put(held);
                WRONG_ARGUMENT
            }
            Err(_) => {
                volume.put(held);
                MEMORY
            }
        },
    }
}

/// The line at a place of the manifest that is in the handle, from 0. The arrays get as many bytes of its name
/// and of its target as they have places for. Refused by 65 where there is no such place.
#[unsafe(no_mangle)]
pub extern "C" fn nlvol_manifest_line(
    alloc: Global,
    volume: &mut Volume,
    index: u64,
    name: &mut [u8],
    target: &mut [u8],
    line: &mut LineTold,
) -> u32
    ensures told { IsLineOf volume.old.place.held index name.old target.old line.old
        result name.new target.new line.new }
    ensures same { volume.new.place.held ≡ volume.old.place.held }
{
    match volume.take(alloc) {
        None => CLOSED,
        Some(held) => {
            let status = tell_line(held.manifest.lines.as_slice(), index, name, target, line);
            volume.put(held);
            status
        }
    }
}

/// Begins a manifest of a directory with these attributes, in the place of what was in the handle. Refused by
/// 65 where a number is none of its kind.
#[unsafe(no_mangle)]
pub extern "C" fn nlvol_manifest_begin(
    alloc: Global,
    volume: &mut Volume,
    own: &AttributesTold,
) -> u32
    ensures { IsBegun volume.old.place.held (attributes_in own.now) result volume.new.place.held }
{
    match (volume.take(alloc), attributes_in(*own)) {
        (None, _) => CLOSED,
        (Some(held), None) => {
            volume.put(held);
            WRONG_ARGUMENT
        }
        (Some(mut held), Some(own)) => {
            held.manifest = Manifest {
                own,
                lines: Items::new(alloc),
            };
            volume.put(held);
            DONE
        }
    }
}

/// Adds a line to the manifest that is in the handle: of a file, or of a link if there is a target. The names
/// have to ascend by bytes.
#[unsafe(no_mangle)]
pub extern "C" fn nlvol_manifest_add(
    alloc: Global,
    volume: &mut Volume,
    name: &[u8],
    target: &[u8],
    attributes: &AttributesTold,
) -> u32
    ensures { IsAdded volume.old.place.held name.now target.now (attributes_in attributes.now)
        result volume.new.place.held }
{
    let Some(attributes) = attributes_in(*attributes) else {
        return WRONG_ARGUMENT;
    };
    let line = match line_of(alloc, name, target, attributes) {
        Ok(line) => line,
        Err(status) => return status,
    };
    match volume.take(alloc) {
        None => CLOSED,
        Some(mut held) => {
            let pushed = held.manifest.lines.push(line);
            volume.put(held);
            match pushed {
                Ok(()) => DONE,
                Err(_) => MEMORY,
            }
        }
    }
}

/// Leaves the bytes of the manifest that is in the handle for `nlvol_image_read`. `size` gets how many there
/// are. Refused by 65 where it is none: its names don't ascend, or a name or a target can't be one.
#[unsafe(no_mangle)]
pub extern "C" fn nlvol_manifest_bytes(alloc: Global, volume: &mut Volume, size: &mut u64) -> u32
    ensures { IsManifestLeft volume.old.place.held size.old result volume.new.place.held size.new }
{
    match volume.take(alloc) {
        None => CLOSED,
        Some(mut held) => match bytes_of(alloc, &held.manifest) {
            Ok(bytes) => {
                *size = bytes.len() as u64;
                held.image = bytes;
                volume.put(held);
                DONE
            }
            Err(status) => {
                volume.put(held);
                status
            }
        },
    }
}
