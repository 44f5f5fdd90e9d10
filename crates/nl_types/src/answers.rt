//! Answers, taken out of replies. Whoever asks knows of which kind the answer is.
ghost use Rattle.std.specs.Prelude.{◌≡◌, Ok, Err, MatchResult};
ghost use Rattle.nl_types.specs.declared.reply.Answer.{Answer};
ghost use Rattle.nl_types.specs.declared.reply.Answer.TheVariants as answer;
ghost use Rattle.nl_types.specs.Replies.{IsReplyWith};

use crate::{
    Answer, CheckpointNumber, Items, MountNumber, Named, Range, Reply, Row, Stat, VolError,
};

/// Whether an event was done, without its answer.
pub fn without_answer(reply: Reply) -> Result<(), VolError>
    ensures { MatchResult result (λ _. (found : Answer) × (reply ≡ Ok found)) (λ e. reply ≡ Err e) }
{
    reply?;
    Ok(())
}

pub fn written(reply: Reply) -> Result<u64, VolError>
    requires { IsReplyWith answer.Written reply }
    ensures { MatchResult result (λ count. reply ≡ Ok (answer.Written count)) (λ e. reply ≡ Err e) }
{
    match reply? {
        Answer::Written(count) => Ok(count),
        _ => unreachable!(),
    }
}

pub fn checkpoint_made(reply: Reply) -> Result<CheckpointNumber, VolError>
    requires { IsReplyWith answer.Checkpoint reply }
    ensures { MatchResult result (λ number. reply ≡ Ok (answer.Checkpoint number)) (λ e. reply ≡ Err e) }
{
    match reply? {
        Answer::Checkpoint(number) => Ok(number),
        _ => unreachable!(),
    }
}

pub fn mount_made(reply: Reply) -> Result<MountNumber, VolError>
    requires { IsReplyWith answer.Mount reply }
    ensures { MatchResult result (λ number. reply ≡ Ok (answer.Mount number)) (λ e. reply ≡ Err e) }
{
    match reply? {
        Answer::Mount(number) => Ok(number),
        _ => unreachable!(),
    }
}

pub fn range_removed(reply: Reply) -> Result<Range, VolError>
    requires { IsReplyWith answer.Removed reply }
    ensures { MatchResult result (λ range. reply ≡ Ok (answer.Removed range)) (λ e. reply ≡ Err e) }
{
    match reply? {
        Answer::Removed(range) => Ok(range),
        _ => unreachable!(),
    }
}

pub fn rows_listed(reply: Reply) -> Result<Items<Row>, VolError>
    requires { IsReplyWith answer.Rows reply }
    ensures { MatchResult result (λ rows. reply ≡ Ok (answer.Rows rows)) (λ e. reply ≡ Err e) }
{
    match reply? {
        Answer::Rows(rows) => Ok(rows),
        _ => unreachable!(),
    }
}

pub fn bytes_read(reply: Reply) -> Result<Items<u8>, VolError>
    requires { IsReplyWith answer.Bytes reply }
    ensures { MatchResult result (λ bytes. reply ≡ Ok (answer.Bytes bytes)) (λ e. reply ≡ Err e) }
{
    match reply? {
        Answer::Bytes(bytes) => Ok(bytes),
        _ => unreachable!(),
    }
}

pub fn names_listed(reply: Reply) -> Result<Items<Named>, VolError>
    requires { IsReplyWith answer.Names reply }
    ensures { MatchResult result (λ names. reply ≡ Ok (answer.Names names)) (λ e. reply ≡ Err e) }
{
    match reply? {
        Answer::Names(names) => Ok(names),
        _ => unreachable!(),
    }
}

pub fn stat_told(reply: Reply) -> Result<Stat, VolError>
    requires { IsReplyWith answer.Stat reply }
    ensures { MatchResult result (λ told. reply ≡ Ok (answer.Stat told)) (λ e. reply ≡ Err e) }
{
    match reply? {
        Answer::Stat(told) => Ok(told),
        _ => unreachable!(),
    }
}
