//! What a volume is asked to read whole trees, and its answers.
ghost use Rattle.std.specs.Prelude.{◌≡◌, ℕ, List, Err, IfErr, IfOk, IsOk, Ok, OnErr, true};
ghost use Rattle.std.specs.List.{list_all};
ghost use Rattle.nl_types.specs.Plain.Paths.{is_name};
ghost use Rattle.nl_types.specs.declared.reply.Answer.TheVariants as answer;
ghost use Rattle.nl_types.specs.declared.event.Ask.TheVariants as ask;
ghost use Rattle.nl_types.specs.declared.error.VolError.{VolError};
ghost use Rattle.nl_types.specs.declared.reply.Named.{Named};
ghost use Rattle.nl_folders.specs.declared.folder.FolderError.TheVariants.{Refused};
ghost use Rattle.nl_folders.specs.Spelled.{spelling};
ghost use Rattle.nl_keep.specs.Private.Refused.{RefusesQuestion};

use nl_folders::{FolderError, spelled};
use nl_names::Name;
use nl_types::{Answer, Ask, Items, Named, Reply, VolError, is_name};
use std::alloc::Global;

// ---- answers

/// The names that were asked for. No volume answers a listing by anything else.
pub(crate) fn names_of(reply: Reply) -> Result<Items<Named>, FolderError>
    ensures names { IfOk result (λ names. reply ≡ Ok (answer.Names names)) }
    ensures other { OnErr result ((names : List Named) → reply ≡ Ok (answer.Names names) → ⊥) }
    ensures refused { IfErr result (λ e. (error : VolError) → reply ≡ Err error → e ≡ Refused error) }
{
    match reply {
        Ok(Answer::Names(names)) => Ok(names),
        Ok(_) => Err(FolderError::Disordered),
        Err(error) => Err(FolderError::Refused(error)),
    }
}

/// The bytes that were asked for. No volume answers a read by anything else.
pub(crate) fn bytes_of(reply: Reply) -> Result<Items<u8>, FolderError>
    ensures bytes { IfOk result (λ bytes. reply ≡ Ok (answer.Bytes bytes)) }
    ensures other { OnErr result ((bytes : List ℕ) → reply ≡ Ok (answer.Bytes bytes) → ⊥) }
    ensures refused { IfErr result (λ e. (error : VolError) → reply ≡ Err error → e ≡ Refused error) }
{
    match reply {
        Ok(Answer::Bytes(bytes)) => Ok(bytes),
        Ok(_) => Err(FolderError::Disordered),
        Err(error) => Err(FolderError::Refused(error)),
    }
}

// ---- questions

/// Whether all names may stand in a path.
pub(crate) fn are_names(path: &[Name]) -> bool
    ensures { result ≡ list_all is_name path.now }
{
    match path {
        [] => true,
        [name, rest @ ..] => is_name(name.as_slice()) && are_names(rest),
    }
}

/// The bytes of a path whose names may stand in one. Refused by `BadName` where they may not, since a slash in
/// a name would spell another path, and by `Memory`.
fn path_bytes(alloc: Global, path: &[Name]) -> Result<Items<u8>, FolderError>
    ensures bytes { IfOk result (λ bytes. bytes ≡ spelling path.now) }
    ensures names { IsOk result → list_all is_name path.now ≡ true }
    ensures refused { IfErr result (RefusesQuestion path.now) }
{
    if !are_names(path) {
        return Err(FolderError::Refused(VolError::BadName));
    }
    let bytes = spelled(alloc, path)?;
    Ok(bytes)
}

/// The question for the names in a directory.
pub(crate) fn listing_of(alloc: Global, path: &[Name]) -> Result<Ask, FolderError>
    ensures asked { IfOk result (λ asked. asked ≡ ask.List (spelling path.now)) }
    ensures names { IsOk result → list_all is_name path.now ≡ true }
    ensures refused { IfErr result (RefusesQuestion path.now) }
{
    let path = path_bytes(alloc, path)?;
    Ok(Ask::List { path })
}

/// The question for the first bytes of a file, which tells too that one stands there.
pub(crate) fn first_bytes(alloc: Global, path: &[Name], len: u64) -> Result<Ask, FolderError>
    ensures asked { IfOk result (λ asked. asked ≡ ask.Bytes (spelling path.now) 0 len) }
    ensures names { IsOk result → list_all is_name path.now ≡ true }
    ensures refused { IfErr result (RefusesQuestion path.now) }
{
    let path = path_bytes(alloc, path)?;
    Ok(Ask::Bytes {
        path,
        offset: 0,
        len,
    })
}

/// The question for all bytes of a file.
pub(crate) fn whole_file(alloc: Global, path: &[Name]) -> Result<Ask, FolderError>
    ensures asked { IfOk result (λ asked.
        asked ≡ ask.Bytes (spelling path.now) 0 18446744073709551615) }
    ensures names { IsOk result → list_all is_name path.now ≡ true }
    ensures refused { IfErr result (RefusesQuestion path.now) }
{
    first_bytes(alloc, path, u64::MAX)
}
