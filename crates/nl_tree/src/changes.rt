//! All calls that change the tree, as one.
ghost use Rattle.std.specs.Prelude.{◌≡◌, Err, MatchResult, Ok, OnErr};
ghost use Rattle.nl_types.specs.declared.reply.Answer;
ghost use Rattle.nl_types.specs.Plain.Calls.{change};
ghost use Rattle.nl_tree.specs.Changing.{HasChangedHolding};
ghost use Rattle.nl_tree.specs.CurrentTrees.{AltersAs, AnswersAs, CanCall};

use crate::current::CurrentTree;
use crate::tree_read::Base;
use nl_types::{Answer, Change, Kind, Reply, VolError};
use std::alloc::Global;

impl CurrentTree {
    /// A file call that changes the tree. Refused as the call is; then the tree is as before.
    pub fn change<B: Base>(&mut self, alloc: Global, base: &B, call: &Change) -> Reply
        requires { CanCall (B.TreeRead.holds base.now) self.old }
        ensures done { AnswersAs (B.TreeRead.holds base.now) (λ answer. answer) result self.old self.new
            (λ tree. change tree call.now) }
        ensures changes { AltersAs (B.TreeRead.holds base.now) result self.old self.new
            (HasChangedHolding call.now) }
        ensures same { OnErr result (self.new ≡ self.old) }
    {
        match call {
            Change::Create { path } => {
                done(self.create(alloc, base, path.as_slice(), Kind::File))
            }
            Change::Mkdir { path } => {
                done(self.create(alloc, base, path.as_slice(), Kind::Directory))
            }
            Change::Write {
                path,
                offset,
                bytes,
            } => written(self.write(alloc, base, path.as_slice(), *offset, bytes.as_slice())),
            Change::Truncate { path, size } => {
                done(self.truncate(alloc, base, path.as_slice(), *size))
            }
            Change::Unlink { path } => done(self.unlink(alloc, base, path.as_slice())),
            Change::Rmdir { path } => done(self.rmdir(alloc, base, path.as_slice())),
            Change::Rename { from, to } => {
                done(self.rename(alloc, base, from.as_slice(), to.as_slice()))
            }
        }
    }
}

/// What a call that tells nothing answers.
fn done(outcome: Result<(), VolError>) -> Reply
    ensures { MatchResult outcome (λ _. result ≡ Ok Answer.Done) (λ e. result ≡ Err e) }
{
    outcome?;
    Ok(Answer::Done)
}

/// What a write answers.
fn written(outcome: Result<u64, VolError>) -> Reply
    ensures { MatchResult outcome (λ count. result ≡ Ok (Answer.Written count)) (λ e. result ≡ Err e) }
{
    let count = outcome?;
    Ok(Answer::Written(count))
}
