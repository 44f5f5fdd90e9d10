//! Lines of manifests that show nothing.
ghost use Rattle.std.specs.Prelude.{◌≡◌, ◌++◌, IfOk, OnOk};
ghost use Rattle.std.specs.List.{flat_map};
ghost use Rattle.std.specs.Option.{option_copied};
ghost use Rattle.nl_types.specs.Plain.Trees.{lookup};
ghost use Rattle.nl_manifests.specs.HostTrees.{fault_at, fault_of, one_if, refused_line};
ghost use Rattle.nl_manifests.specs.Private.Opening.{refused_lines};

use crate::host_tree::LineFault;
use crate::looking::{Entries, Known};
use crate::manifest::{Line, LineKind};
use nl_folders::{Path, with_name};
use nl_names::Name;
use nl_types::{Items, Object, is_name};
use std::alloc::{AllocError, Global};

type Refused = Items<(Path, LineFault)>;

/// Why a line shows nothing, by what stands in its place.
fn fault_at(kind: &LineKind, object: Option<&Object>) -> Option<LineFault>
    ensures { result ≡ fault_at kind.now (option_copied object.entry) }
{
    match (kind, object) {
        (LineKind::File, Some(Object::File(_))) => None,
        (LineKind::File, Some(Object::Dir)) => Some(LineFault::NoFile),
        (LineKind::File, None) => Some(LineFault::NoFile),
        (LineKind::Link(_), None) => None,
        (LineKind::Link(_), Some(_)) => Some(LineFault::Taken),
    }
}

/// The same of a line, where its path is there.
fn fault_of(tree: &Entries<'_, Object>, path: &[Name], line: &Line) -> Option<LineFault>
    ensures { result ≡ fault_of line.now (lookup tree.now.all.now path.now) }
{
    if is_name(line.name.as_slice()) {
        fault_at(&line.kind, tree.found(path))
    } else {
        Some(LineFault::BadName)
    }
}

fn add_if(path: Path, fault: Option<LineFault>, refused: &mut Refused) -> Result<(), AllocError>
    ensures { OnOk result (refused.new ≡ refused.old ++ one_if path fault) }
{
    match fault {
        None => Ok(()),
        Some(fault) => refused.push((path, fault)),
    }
}

fn add_line(
    alloc: Global,
    tree: &Entries<'_, Object>,
    directory: &[Name],
    line: &Line,
    refused: &mut Refused,
) -> Result<(), AllocError>
    ensures { OnOk result (refused.new
        ≡ refused.old ++ refused_line tree.now.all.now directory.now line.now) }
{
    let path = with_name(alloc, directory, line.name.as_slice())?;
    let fault = fault_of(tree, path.as_slice(), line);
    add_if(path, fault, refused)
}

fn add_lines(
    alloc: Global,
    tree: &Entries<'_, Object>,
    directory: &[Name],
    lines: &[Line],
    refused: &mut Refused,
) -> Result<(), AllocError>
    ensures { OnOk result (refused.new
        ≡ refused.old ++ flat_map (refused_line tree.now.all.now directory.now) lines.now) }
{
    for line in lines {
        add_line(alloc, tree, directory, line, refused)?;
    }
    Ok(())
}

/// The lines of manifests that show nothing.
pub(crate) fn refused_lines(
    alloc: Global,
    tree: &Entries<'_, Object>,
    all: &Entries<'_, Known>,
) -> Result<Refused, AllocError>
    ensures { IfOk result (λ refused. refused ≡ refused_lines tree.now.all.now all.now.all.now) }
{
    let mut refused = Items::new(alloc);
    for entry in all.all {
        let (directory, lines) = (entry.0.as_slice(), entry.1.lines());
        add_lines(alloc, tree, directory, lines, &mut refused)?;
    }
    Ok(refused)
}
