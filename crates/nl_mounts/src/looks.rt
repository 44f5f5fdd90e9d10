//! Looks for a mount at a state that a port has entered.
ghost use Rattle.std.specs.Prelude.{◌≡◌, IfSome, IfNone};
ghost use Rattle.nl_publish.specs.Histories.{IsBegun};
ghost use Rattle.nl_publish.specs.States.{IsWhole};
ghost use Rattle.nl_publish.specs.Mounts.{IsClaim};
ghost use Rattle.nl_publish.specs.Reading.{IsLater};
ghost use Rattle.nl_mounts.specs.Ports.{Finds, HasTreeIn, IsOlder, mounted_tree};

use crate::enters::Enters;
use nl_layout::Root;
use nl_publish::{Front, Mount, ReaderState, Volumes, laws};
use nl_types::{CheckpointNumber, MountNumber};
use std::marker::Model;

/// The tree of a checkpoint that a mount shows.
#[derive(Clone, Copy)]
pub struct MountedTree {
    pub checkpoint: CheckpointNumber,
    pub root: Root,
}

/// The tree that a mount shows.
fn tree_of_mount(state: &ReaderState, mount: MountNumber) -> Option<MountedTree>
    ensures { result ≡ mounted_tree state.now.tables mount }
{
    let checkpoint = state.tables.mounted(mount)?;
    let kept = state.tables.kept(checkpoint)?;
    Some(MountedTree {
        checkpoint,
        root: kept.root,
    })
}

/// The tree that a mount has in a state, whose history is `front`. It has none where that ends before the
/// mount's own commit.
fn tree_from<J: Volumes>(
    state: &ReaderState,
    front: &Front<J>,
    mount: &Mount<J>,
) -> Option<MountedTree>
    requires { mount.now.told.volume ≡ front.now.volume }
    ensures { HasTreeIn mount.now front.now state.now.tables result }
{
    if !front.covers(mount.told()) {
        return None;
    }
    tree_of_mount(state, mount.number())
}

/// The history that made a state, where the state is as new as what was seen.
pub(crate) fn front_at<J: Volumes>(state: &ReaderState, seen: &Front<J>) -> Option<Front<J>>
    requires whole { IsWhole state.now }
    requires book { state.now.seen.book ≡ J.book seen.now.volume }
    ensures later { IfSome result (λ front. IsLater seen.now front) }
    ensures log { IfSome result (λ front. front.commits ≡ state.now.seen.log) }
    ensures older { IfNone result (IsOlder state.now seen.now) }
{
    let front = Front::of(state, seen.volume());
    if !front.covers(seen) {
        return None;
    }
    Some(front)
}

/// What has been seen once a port has looked at a state, and the tree that a mount of its volume has there;
/// None where the state is older than what was seen.
pub(crate) fn find<J: Volumes>(
    state: &ReaderState,
    seen: &Front<J>,
    mount: &Mount<J>,
) -> Option<(Front<J>, Option<MountedTree>)>
    requires whole { IsWhole state.now }
    requires book { state.now.seen.book ≡ J.book seen.now.volume }
    requires claim { IsClaim mount.now }
    requires begun { IsBegun mount.now.told.commits }
    requires volume { mount.now.told.volume ≡ seen.now.volume }
    ensures finds { IfSome result (λ found. Finds mount.now seen.now found.0 state.now.tables found.1) }
    ensures older { IfNone result (IsOlder state.now seen.now) }
{
    laws::histories_show_states();
    laws::mounts_stay();
    laws::mounts_begin();
    match front_at(state, seen) {
        None => None,
        Some(front) => {
            let tree = tree_from(state, &front, mount);
            Some((front, tree))
        }
    }
}

/// A port's look at the state that is published, and what it found. It is not `Drop`: `Port::come_back` takes
/// it.
pub(crate) struct Look<J: Volumes, E: Enters> {
    pub(crate) inside: E::Inside,
    pub(crate) front: Front<J>,
    pub(crate) tree: Option<MountedTree>,
}

impl<J: Volumes, E: Enters> Model for Look<J, E> {
    ghost use Rattle.std.specs.Prelude.{◌≡◌};
    ghost use Rattle.nl_publish.specs.States.{name_of};
    ghost use Rattle.nl_mounts.specs.Ports.{LookView};

    ghost Value = { LookView };

    ghost view = { λ l. record { shown = (E.shown l.inside).tables; front = l.front; tree = l.tree } };

    ghost invariant = { λ l. E.names_inside l.inside ≡ name_of (J.book l.front.volume) };
}

impl<J: Volumes, E: Enters> Look<J, E> {
    pub(crate) fn state(&self) -> &ReaderState
        ensures { result.now.tables ≡ self.now.shown }
    {
        E::state(&self.inside)
    }

    pub(crate) fn tree(&self) -> Option<MountedTree>
        ensures { result ≡ self.now.tree }
    {
        self.tree
    }
}
