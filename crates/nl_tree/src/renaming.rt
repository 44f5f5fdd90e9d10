//! Renames by paths.
ghost use Rattle.std.specs.Prelude.{◌≡◌, ℕ, IsTrue, List, MatchOption, MatchResult, Ok, Err, OnErr, OnOk, Some};
ghost use Rattle.nl_types.specs.Plain.Calls.{and_then, rename};
ghost use Rattle.nl_types.specs.Judging.{may_take};
ghost use Rattle.nl_types.specs.Plain.Paths.{Path, is_name, path_of};
ghost use Rattle.nl_types.specs.Plain.Trees.{Tree};
ghost use Rattle.nl_dirs.specs.declared.record.Record.{Record};
ghost use Rattle.nl_tree.specs.Became.{holding_over};
ghost use Rattle.nl_tree.specs.CurrentTrees.{AltersAs, AnswersAs, AnswersCall, CanCall, HasRenamed, StandsOver, without_replaced};
ghost use Rattle.nl_tree.specs.Held.{Holding};
ghost use Rattle.nl_tree.specs.Private.Moving.{AreDirectoriesOf, FindsMove, IsRenameRefused, IsSource, MovesNothing, with_moved};
ghost use Rattle.nl_tree.specs.Naming.{listing_of};
ghost use Rattle.nl_tree.specs.Private.PathParts.{parts_of};

use crate::current::CurrentTree;
use crate::paths::{Place, find_place, is_above, names_behind};
use crate::renames::PlannedRename;
use crate::tree_read::{Base, Link, TreeRead};
use nl_types::{Answer, Kind, VolError};
use std::alloc::Global;

/// The names of two paths, of which neither is the root.
fn both_names<'p>(from: &'p [u8], to: &'p [u8]) -> Result<(&'p [u8], &'p [u8]), VolError>
    ensures { MatchResult result
        (λ both. (path_of from.now ≡ Ok (parts_of both.0.now)) × (path_of to.now ≡ Ok (parts_of both.1.now)))
        (λ e. (tree : Tree)
        → and_then (path_of from.now) (λ names. and_then (path_of to.now) (rename tree names)) ≡ Err e) }
{
    let names = names_behind(from)?;
    let target_names = names_behind(to)?;
    if names.is_empty() || target_names.is_empty() {
        return Err(VolError::BadPath);
    }
    Ok((names, target_names))
}

/// Whether what has one kind may take the place of what a record names: a file that of a file, a directory
/// that of an empty directory.
fn may_replace<T: TreeRead>(tree: &T, kind: Kind, target: Option<Link>) -> Result<(), VolError>
    ensures { (held : Holding) → T.holds tree.now held → result ≡ may_take (listing_of held) kind target }
{
    match (kind, target) {
        (_, None) | (Kind::File, Some((_, Kind::File))) => Ok(()),
        (Kind::File, Some((_, Kind::Directory))) => Err(VolError::IsDir),
        (Kind::Directory, Some((_, Kind::File))) => Err(VolError::NotDir),
        (Kind::Directory, Some((inode, Kind::Directory))) => {
            if tree.name_count(inode) > 0 {
                Err(VolError::NotEmpty)
            } else {
                Ok(())
            }
        }
    }
}

/// The record that a path has, which may not go below itself.
fn find_source<'p, T: TreeRead>(
    tree: &T,
    names: &'p [u8],
    target_names: &[u8],
) -> Result<(Place<'p>, Link), VolError>
    ensures { (held : Holding) → T.holds tree.now held → MatchResult result
        (λ source. IsSource held (parts_of names.now) (parts_of target_names.now)
        source.0.directory source.0.name.now source.1)
        (IsRenameRefused held (parts_of names.now) (parts_of target_names.now)) }
{
    // `match`, as `?` has no proof yet where a struct holds a reference beside a modelled number
    match find_place(tree, names) {
        Err(e) => Err(e),
        Ok(place) => match (place.link, is_above(names, target_names)) {
            (None, _) => Err(VolError::NotFound),
            (Some((_, Kind::Directory)), true) => Err(VolError::IntoItself),
            (Some(link), _) => Ok((place, link)),
        },
    }
}

/// What a rename moves, if its paths differ.
fn find_move<'p, T: TreeRead>(
    tree: &T,
    names: &'p [u8],
    target_names: &'p [u8],
) -> Result<Option<PlannedRename<'p>>, VolError>
    ensures { (held : Holding) → T.holds tree.now held → MatchResult result
        (λ found. MatchOption found (MovesNothing held (parts_of names.now) (parts_of target_names.now))
        (FindsMove held (parts_of names.now) (parts_of target_names.now)))
        (IsRenameRefused held (parts_of names.now) (parts_of target_names.now)) }
{
    // `match` here too, for what these hold
    let (place, link) = match find_source(tree, names, target_names) {
        Ok(source) => source,
        Err(e) => return Err(e),
    };
    let target = match find_place(tree, target_names) {
        Ok(target) => target,
        Err(e) => return Err(e),
    };
    if names == target_names {
        return Ok(None);
    }
    may_replace(tree, link.1, target.link)?;
    Ok(Some(PlannedRename {
        directory: place.directory,
        name: place.name,
        link,
        target,
    }))
}

impl CurrentTree {
    /// Moves a record to its new place, in the place of what stands there.
    fn move_to_place<B: Base>(
        &mut self,
        alloc: Global,
        base: &B,
        found: &PlannedRename,
    ) -> Result<(), VolError>
        requires found { (b : Holding) × (tree : Tree) × (from to : Path) × B.TreeRead.holds base.now b
            × StandsOver self.old b tree × FindsMove (holding_over self.old.became b) from to found.now }
        requires name { IsTrue (is_name found.now.target.name.now) }
        ensures done { (b : Holding) (tree : Tree) (from to : Path) → B.TreeRead.holds base.now b
            → StandsOver self.old b tree → FindsMove (holding_over self.old.became b) from to found.now
            → AnswersCall (λ _. Answer.Done) result self.new b (rename tree from to) }
        ensures moved { (b : Holding) (all others : List Record) → B.TreeRead.holds base.now b
            → AreDirectoriesOf found.now (holding_over self.old.became b) all others
            → OnOk result ((i : ℕ) → holding_over self.new.became b i ≡ without_replaced found.now.target.link
            (with_moved found.now all others (holding_over self.old.became b)) i) }
        ensures same { OnErr result (self.new ≡ self.old) }
    {
        match found.target.link {
            None => self.overlay.rename(alloc, base, found),
            Some((replaced, _)) => { self.overlay.rename_onto(alloc, base, found, replaced) }
        }
    }

    /// Gives what stands at a path another path, with all that lies below it (rename(2)). A file takes the
    /// place of a file that stands there, and a directory that of an empty directory. Nothing changes where
    /// both paths are the same.
    ///
    /// Refused by `BadPath` and `BadName` as the syntax of the paths is, `from` first; by `BadPath` where one
    /// is the root; by `NotDir` and `NotFound` as the walk by `from` is; by `IntoItself` where a directory
    /// would come to lie below itself; by `NotDir` and `NotFound` as the walk to the directory of `to` is; by
    /// `IsDir`, `NotDir` and `NotEmpty` where it can't take the place of what stands there; and by `Memory`.
    /// Then the tree is as before.
    pub fn rename<B: Base>(
        &mut self,
        alloc: Global,
        base: &B,
        from: &[u8],
        to: &[u8],
    ) -> Result<(), VolError>
        requires { CanCall (B.TreeRead.holds base.now) self.old }
        ensures done { AnswersAs (B.TreeRead.holds base.now) (λ _. Answer.Done) result self.old self.new
            (λ tree. and_then (path_of from.now) (λ names. and_then (path_of to.now) (rename tree names))) }
        ensures changes { AltersAs (B.TreeRead.holds base.now) result self.old self.new
            (HasRenamed from.now to.now) }
        ensures same { OnErr result (self.new ≡ self.old) }
    {
        let (names, target_names) = both_names(from, to)?;
        // `match` here too, for what a move holds
        match find_move(&self.view(base), names, target_names) {
            Err(e) => Err(e),
            Ok(None) => Ok(()),
            Ok(Some(found)) => self.move_to_place(alloc, base, &found),
        }
    }
}
