//! A tree laid out in a folder of the host.
ghost use Rattle.std.specs.Prelude.{◌≡◌, ◌+◌, ◌==◌, ◌<◌, ◌++◌, [], IsTrue, OnOk, length, map, not, string_bytes, vec_len};
ghost use Rattle.std.specs.List.{flat_map};
ghost use Rattle.std.specs.Str.{is_utf8};
ghost use Rattle.nl_host.specs.HostPaths.{all_left_out, link_left_out, object_left_out, target_left_out, told_if, told_of};
ghost use Rattle.nl_host.specs.Puts.{AsksAll, AsksOnly, is_walk};
ghost use Rattle.nl_host.specs.declared.left_out.Reason.TheVariants.{NameNoText, TargetNoText};

use crate::host_paths::{host_path, text_of};
use crate::laying::Laying;
use crate::left_out::{LeftOut, Reason};
use crate::putting::Putting;
use crate::refusals::Laid;
use crate::system_folder::{Manner, SystemFolder};
use nl_folders::Path;
use nl_manifests::{HostEntry, HostObject};
use nl_names::Name;
use std::alloc::Global;
use std::fs::File;
use std::io;
use std::rt::{Env, Files};

// ---- what no path of the host may have

/// Notes what is left out at a path of the host, if it is.
fn note(
    path: String,
    reason: Reason,
    is_left_out: bool,
    left_out: &mut Vec<LeftOut>,
) -> io::Result<()>
    ensures { OnOk result (map told_of left_out.new.items
        ≡ map told_of left_out.old.items ++ told_if is_left_out (string_bytes path, reason)) }
{
    if is_left_out {
        left_out.push(LeftOut { path, reason })?;
    }
    Ok(())
}

/// Notes the folder of a name that may not stand there, where that is the last one of a path.
fn note_name(
    folder: String,
    names: &[Name],
    count: usize,
    left_out: &mut Vec<LeftOut>,
) -> io::Result<()>
    requires { count < length names.now }
    ensures { OnOk result (map told_of left_out.new.items
        ≡ map told_of left_out.old.items
        ++ told_if (count + 1 == length names.now) (string_bytes folder, NameNoText)) }
{
    note(
        folder,
        Reason::NameNoText,
        count + 1 == names.len(),
        left_out,
    )
}

/// Notes a directory or a file of which a name may not stand on the host.
fn note_object(
    alloc: Global,
    folder: &str,
    path: &[Name],
    entry: &HostEntry,
    left_out: &mut Vec<LeftOut>,
) -> io::Result<()>
    ensures { OnOk result (map told_of left_out.new.items
        ≡ map told_of left_out.old.items ++ object_left_out folder.now path.now entry.now.object) }
{
    if matches!(entry.object, HostObject::Link(_)) {
        return Ok(());
    }
    let (place, count) = host_path(alloc, folder, path)?;
    if count < path.len() {
        return note_name(place, path, count, left_out);
    }
    Ok(())
}

fn note_objects(
    alloc: Global,
    folder: &str,
    entries: &[(Path, HostEntry)],
    left_out: &mut Vec<LeftOut>,
) -> io::Result<()>
    ensures { OnOk result (map told_of left_out.new.items
        ≡ map told_of left_out.old.items
        ++ flat_map (λ e. object_left_out folder.now e.0 e.1.object) entries.now) }
{
    for entry in entries {
        note_object(alloc, folder, entry.0.as_slice(), &entry.1, left_out)?;
    }
    Ok(())
}

// ---- links

/// Notes a link whose target is no text.
fn note_target(place: String, target: &[u8], left_out: &mut Vec<LeftOut>) -> io::Result<()>
    ensures { OnOk result (map told_of left_out.new.items
        ≡ map told_of left_out.old.items
        ++ told_if (not (is_utf8 target.now)) (string_bytes place, TargetNoText)) }
{
    match text_of(target) {
        None => note(place, Reason::TargetNoText, true, left_out),
        Some(_) => Ok(()),
    }
}

/// Notes a link of which a name may not stand on the host, or whose target is no text.
fn note_link(
    alloc: Global,
    folder: &str,
    path: &[Name],
    target: &[u8],
    left_out: &mut Vec<LeftOut>,
) -> io::Result<()>
    ensures { OnOk result (map told_of left_out.new.items
        ≡ map told_of left_out.old.items ++ target_left_out folder.now path.now target.now) }
{
    let (place, count) = host_path(alloc, folder, path)?;
    if count < path.len() {
        return note_name(place, path, count, left_out);
    }
    note_target(place, target, left_out)
}

fn note_if_link(
    alloc: Global,
    folder: &str,
    path: &[Name],
    object: &HostObject,
    left_out: &mut Vec<LeftOut>,
) -> io::Result<()>
    ensures { OnOk result (map told_of left_out.new.items
        ≡ map told_of left_out.old.items ++ link_left_out folder.now path.now object.now) }
{
    match object {
        HostObject::Directory => Ok(()),
        HostObject::File(_) => Ok(()),
        HostObject::Link(target) => note_link(alloc, folder, path, target.as_slice(), left_out),
    }
}

fn note_links(
    alloc: Global,
    folder: &str,
    entries: &[(Path, HostEntry)],
    left_out: &mut Vec<LeftOut>,
) -> io::Result<()>
    ensures { OnOk result (map told_of left_out.new.items
        ≡ map told_of left_out.old.items
        ++ flat_map (λ e. link_left_out folder.now e.0 e.1.object) entries.now) }
{
    for entry in entries {
        note_if_link(alloc, folder, entry.0.as_slice(), &entry.1.object, left_out)?;
    }
    Ok(())
}

// ---- all of it

/// Lays a tree out in the folder of a host in which we stand: makes what may stand there, and sets its
/// attributes, also where that ends amid. The tree's root is that folder, and `folder` the path that is told of it.
///
/// The tree may hold anything. It is in order if each entry stands in the folder of the one before it or in one
/// above that, as in any tree that is sorted and has the folders of all its paths.
///
/// # Errors
/// Those by which the host would refuse each further file. What it refuses of one entry alone is noted by
/// `laid`, and nothing below that is tried.
pub fn lay_below<L: Laying>(
    alloc: Global,
    site: &mut L,
    folder: &str,
    entries: &[(Path, HostEntry)],
    laid: &mut Laid,
) -> io::Result<()>
    requires { L.trail site.old ≡ [] }
    ensures only { AsksOnly entries.now (L.asked site.old) (L.asked site.new) }
    ensures all { OnOk result (vec_len laid.new.refused ≡ vec_len laid.old.refused
        → IsTrue (is_walk [] entries.now) → AsksAll entries.now (L.asked site.old) (L.asked site.new)) }
{
    let mut putting = Putting::new(alloc, folder, entries);
    let put = putting.lay_all(site, laid);
    let left = putting.leave_all(site, laid);
    put?;
    left
}

/// Makes in a folder of the system what may stand there.
fn put_all<R: AllocGlobal + Files<File = File> + Env>(
    rt: &R,
    folder: &str,
    entries: &[(Path, HostEntry)],
    manner: Manner,
    laid: &mut Laid,
) -> io::Result<()> {
    // A link to the folder itself is followed.
    let root = format!(in rt.alloc(); "{folder}/.")?;
    let mut site = SystemFolder::at(rt, root.as_str(), manner)?;
    let put = lay_below(rt.alloc(), &mut site, folder, entries, laid);
    let closed = site.close();
    put?;
    closed
}

/// Lays a tree out in a folder that is there and empty, in the order of the paths. The tree's root is that folder.
/// Nothing outside of it is written, and no link below it is followed: each folder is made anew and then opened
/// from the one above it, each file and link is made anew in an open folder, and what is made gets its attributes
/// by the handle that it was made or opened with. What has attributes is its owner's alone until they are set. An
/// entry of which a name isn't UTF-8 is left out, and noted by the folder of that name; so is a link whose target
/// isn't, by its path. What the system refuses of one entry alone is noted too, by `laid`.
///
/// # Errors
/// Those by which the system would refuse each further file; and where relative paths would lead elsewhere now than
/// before. What was laid out before stays, and has its attributes.
pub fn lay_out<R: AllocGlobal + Files<File = File> + Env>(
    rt: &R,
    folder: &str,
    entries: &[(Path, HostEntry)],
    manner: Manner,
    laid: &mut Laid,
    left_out: &mut Vec<LeftOut>,
) -> io::Result<()>
    ensures { OnOk result (map told_of left_out.new.items
        ≡ map told_of left_out.old.items ++ all_left_out folder.now entries.now) }
{
    note_objects(rt.alloc(), folder, entries, left_out)?;
    note_links(rt.alloc(), folder, entries, left_out)?;
    put_all(rt, folder, entries, manner, laid)
}
