//! The kinds of all inodes, and of those that changed.
ghost use Rattle.std.specs.Prelude.{◌≡◌, ◌<◌, ℕ, Option, length, true, IfErr, IsTrue};
ghost use Rattle.nl_types.specs.Plain.Limits as limits;
ghost use Rattle.nl_types.specs.declared.error.VolError;
ghost use Rattle.nl_types.specs.Blocks.Roots.{Pages, Root as AnyRoot};
ghost use Rattle.nl_layout.specs.declared.inode.InodeKind.TheVariants as kind;
ghost use Rattle.nl_check.specs.Private.AlikeNames.{AreFiles};
ghost use Rattle.nl_check.specs.Private.ChangedFiles.{AreFilesStill, AreNoted, HaveLater};
ghost use Rattle.nl_check.specs.Private.SoundInodes.{TellsInodes, kind_in, kind_told};

use crate::differing::ChangedFile;
use crate::inodes::kind_of;
use nl_layout::{Inode, InodeKind};
use nl_types::limits::INODE_LIMIT;
use nl_types::{InodeNumber, Kind, VolError};
use std::alloc::Global;
use std::marker::Model;

/// What each inode is for, where it is in use, for a file or a directory. Contracts see it by number.
#[derive(Drop)]
pub(crate) struct Kinds {
    places: Vec<Option<Kind>>,
}

impl Model for Kinds {
    ghost use Rattle.std.specs.Prelude.{◌≡◌, List, Option, length};
    ghost use Rattle.nl_types.specs.declared.kind.Kind.{Kind};
    ghost use Rattle.nl_types.specs.Plain.Limits as limits;

    ghost Value = { List (Option Kind) };

    ghost view = { λ kinds. kinds.places.items };

    ghost invariant = { λ kinds. length kinds.places.items ≡ limits.inode_limit };
}

impl Kinds {
    /// Those of no inode. Refused by `Memory` alone.
    pub(crate) fn none(alloc: Global) -> Result<Kinds, VolError>
        ensures { IfErr result (λ e. e ≡ VolError.Memory) }
    {
        let places = vec![in alloc; None; INODE_LIMIT]?;
        Ok(Kinds { places })
    }

    pub(crate) fn as_slice(&self) -> &[Option<Kind>]
        ensures kinds { result.now ≡ self.now }
        ensures count { length self.now ≡ limits.inode_limit }
    {
        self.places.as_slice()
    }

    /// Notes the kind of an inode, where its number may be one.
    pub(crate) fn note(&mut self, number: InodeNumber, kind: Option<Kind>)
        ensures count { length self.new ≡ limits.inode_limit }
        ensures same { length self.new ≡ length self.old }
        ensures here { number < limits.inode_limit → kind_in self.new number ≡ kind }
        ensures others { (i : ℕ) → (i ≡ number → ⊥) → kind_in self.new i ≡ kind_in self.old i }
    {
        let place = number.get();
        if place < INODE_LIMIT as u64 {
            self.places[place as usize] = kind;
        }
    }

    /// Forgets the kinds of all inodes.
    pub(crate) fn clear(&mut self)
        ensures { (pages : Pages) (root : AnyRoot) → TellsInodes pages root 0 self.new true }
    {
        self.places.fill(None);
    }
}

/// What the inode of a number is for, where it is in use, for a file or a directory.
fn kind_of_file(inode: &Option<Inode>) -> Option<Kind>
    ensures { result ≡ kind_told inode.now }
{
    match inode {
        Some(inode) => kind_of(inode.kind),
        None => None,
    }
}

/// Notes the kinds that the inodes of changed files have now.
pub(crate) fn note_kinds(kinds: &mut Kinds, files: &[ChangedFile])
    ensures noted { (now : ℕ → Option Inode) → HaveLater files.now now
        → AreNoted now files.now (length files.now) kinds.old kinds.new }
    ensures count { length kinds.new ≡ length kinds.old }
{
    for file in files {
        kinds.note(file.number, kind_of_file(&file.later));
    }
}

/// Whether the inode is that of a file.
fn is_file(inode: &Inode) -> bool
    ensures { IsTrue result → inode.now.kind ≡ kind.File }
{
    match inode.kind {
        InodeKind::File => true,
        InodeKind::Directory => false,
        InodeKind::InodeFile => false,
    }
}

/// Whether an inode was that of a file, and is.
fn is_file_still(file: &ChangedFile) -> bool
    ensures { IsTrue result → AreFiles file.now.earlier file.now.later }
{
    match (&file.earlier, &file.later) {
        (Some(earlier), Some(later)) => is_file(earlier) && is_file(later),
        _ => false,
    }
}

/// Whether all inodes that changed were those of files, and are: no directory changed, and no inode came or
/// went.
pub(crate) fn are_files_still(files: &[ChangedFile]) -> bool
    ensures { IsTrue result → AreFilesStill files.now (length files.now) }
{
    for file in files {
        if !is_file_still(file) {
            return false;
        }
    }
    true
}
