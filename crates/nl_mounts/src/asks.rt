//! Questions of all kinds, which a port answers.
ghost use Rattle.std.specs.Prelude.{◌≡◌, Err};
ghost use Rattle.nl_commit.specs.Shown.{pages_shown};
ghost use Rattle.nl_publish.specs.Reading.{IsLater, Looked, Told};
ghost use Rattle.nl_mounts.specs.Ports.{IsOfTree, IsReplyOf, IsUngiven, seeing};

use crate::enters::Enters;
use crate::looks::MountedTree;
use crate::port::Port;
use nl_files::ReadTree;
use nl_publish::{Mount, ReaderState, Volumes};
use nl_tree::answer;
use nl_types::{Ask, Reply, VolError};
use std::alloc::Global;

/// What a tree that was found replies; `BadMount` where there is none.
fn reply_in(alloc: Global, state: &ReaderState, tree: Option<MountedTree>, ask: &Ask) -> Reply
    ensures { IsOfTree (pages_shown state.now.tables) tree (result ≡ Err VolError.BadMount)
        (λ t. IsReplyOf t ask.now result) }
{
    match tree {
        Some(tree) => answer(alloc, &ReadTree::new(&state.tables, tree.root), ask),
        None => Err(VolError::BadMount),
    }
}

impl<J: Volumes, E: Enters> Port<J, E> {
    /// What the mount's tree replies to a question of any kind: `read`, `list` and `stat` answer one kind each.
    /// It never waits.
    ///
    /// # Errors
    /// Those of the call that answers such a question.
    pub fn ask(&mut self, alloc: Global, mount: &Mount<J>, ask: &Ask) -> Reply
        ensures later { IsLater self.old.known self.new.known }
        ensures looked { Looked mount.now self.old.known self.new.known
            (IsUngiven E.gives self.old.known self.old.seated)
            (result ≡ Err VolError.BadMount)
            (λ t. IsReplyOf t ask.now result) }
        ensures told { Told mount.now (result ≡ Err VolError.BadMount)
            (λ t. IsReplyOf t ask.now result) }
        ensures kept { self.new ≡ seeing self.old self.new.known }
    {
        match self.look(mount) {
            Err(refusal) => Err(refusal),
            Ok(look) => {
                let reply = reply_in(alloc, look.state(), look.tree(), ask);
                self.come_back(look);
                reply
            }
        }
    }
}
