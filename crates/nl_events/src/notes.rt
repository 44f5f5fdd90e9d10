//! Where the commits of events go: to readers, or to nobody.
ghost use Rattle.std.specs.Prelude.{◌≡◌, ◌<◌, ◌∷◌, ◌++◌, [], Bool, true, false, List, OnErr, OnOk, vec_capacity, vec_len};
ghost use Rattle.nl_commit.specs.Notes.{made, told_where};

use nl_commit::Commit;
use std::alloc::AllocError;

/// Where the commits of events go. Room for one is made before its event changes anything.
pub trait Notes {
    ghost use Rattle.nl_commit.specs.declared.commit.Commit.{Commit};

    /// Whether readers are told.
    ghost told: { Bool };

    /// The commits that went there.
    ghost commits: { Self → List Commit };

    /// Whether there is room for one more.
    ghost has_room: { Self → Type 0 };

    /// Whether readers are told: a commit that takes memory is made for them alone.
    fn is_told(&self) -> bool
        ensures { result ≡ told };

    /// Makes room for one commit. Refused only where readers are told.
    fn reserve(&mut self) -> Result<(), AllocError>
        ensures same { commits self.new ≡ commits self.old }
        ensures room { OnOk result (has_room self.new) }
        ensures refused { OnErr result (told ≡ true) };

    /// Puts a commit behind the others, where there is one and readers are told.
    fn note(&mut self, commit: Option<Commit>)
        requires { has_room self.old }
        ensures { commits self.new ≡ commits self.old ++ told_where told (made commit) };
}

/// The commits of a pen that no reader shares go nowhere. It takes no memory.
#[derive(Drop)]
pub struct NoNotes;

impl Notes for NoNotes {
    ghost told = { false };

    ghost commits = { λ _. [] };

    ghost has_room = { λ _. Unit {0} };

    fn is_told(&self) -> bool {
        false
    }

    fn reserve(&mut self) -> Result<(), AllocError> {
        Ok(())
    }

    fn note(&mut self, commit: Option<Commit>) {
        drop(commit);
    }
}

/// Puts a commit behind the others, where there is room.
fn push_commit(notes: &mut Vec<Commit>, commit: Commit)
    requires { vec_len notes.old < vec_capacity notes.old }
    ensures { notes.new.items ≡ notes.old.items ++ commit ∷ [] }
{
    if notes.push(commit).is_err() {
        unreachable!();
    }
}

impl Notes for Vec<Commit> {
    ghost told = { true };

    ghost commits = { λ v. v.items };

    ghost has_room = { λ v. vec_len v < vec_capacity v };

    fn is_told(&self) -> bool {
        true
    }

    fn reserve(&mut self) -> Result<(), AllocError> {
        Vec::reserve(self, 1)
    }

    fn note(&mut self, commit: Option<Commit>) {
        if let Some(commit) = commit {
            push_commit(self, commit);
        }
    }
}
