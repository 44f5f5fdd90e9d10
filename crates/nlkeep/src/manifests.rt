//! Folders that have a manifest which is none, as damage leaves it.
use crate::printing::{Printer, errors};
use nl_folders::Path;
use nl_manifests::HostEntry;
use nl_names::Name;
use nl_shown::{has_folder, is_bad_manifest};
use std::io::{self, Write};

impl<W: Write> Printer<W> {
    fn bad_manifest(&mut self, path: &[Name], checkpoint: Option<u64>) -> io::Result<()> {
        self.out.write_all(b"nlkeep: ")?;
        if let Some(number) = checkpoint {
            write!(self.out, "checkpoint {number}: ")?;
        }
        self.path(path, false)?;
        writeln!(
            self.out,
            ": is no manifest: the modes, times, owners and links of its folder are not known"
        )
    }
}

/// Tells on standard error, a line each, which folders have a manifest that is none, as far as these have to
/// do with what stands at and below a path. `shown` is what a tree shows, and `checkpoint` its number, where
/// that is to be told. Answers whether there are none.
pub fn tell_bad_manifests(
    rt: &HostRuntime,
    shown: &[(Path, HostEntry)],
    top: &[Name],
    checkpoint: Option<u64>,
) -> bool {
    let mut printer = errors(rt);
    let top_is_folder = has_folder(shown, top);
    let mut are_good = true;
    for (path, _) in shown {
        let path = path.as_slice();
        if is_bad_manifest(path, top, top_is_folder) {
            let _ = printer.bad_manifest(path, checkpoint);
            are_good = false;
        }
    }
    are_good
}
