//! What answers questions about a tree, to be read by paths.
ghost use Rattle.std.specs.Prelude.{◌≡◌, ℕ, true, List, Err, IfErr, IfOk, Ok};
ghost use Rattle.std.specs.List.{list_all};
ghost use Rattle.nl_types.specs.declared.error.VolError.{VolError};
ghost use Rattle.nl_types.specs.declared.reply.Named.{Named};
ghost use Rattle.nl_types.specs.Plain.Calls.{IsReadReply, file_at, list, reply_to};
ghost use Rattle.nl_types.specs.Plain.Paths.{is_name};
ghost use Rattle.nl_types.specs.Plain.Trees.{Tree, IsTree};
ghost use Rattle.nl_folders.specs.Refusals.{RefusesPath};
ghost use Rattle.nl_keep.specs.Refusals.{RefusesFile};

use crate::asking::{bytes_of, listing_of, names_of, whole_file};
use nl_folders::FolderError;
use nl_names::Name;
use nl_types::{Ask, Items, Named, Reply};
use std::alloc::Global;

/// What answers questions about a tree: a checkpoint of a volume, or blocks that hold one.
pub trait Answering {
    /// That it is known to answer for a tree.
    ghost answers: { Self → Tree → Type 0 };

    /// What the tree answers. Refused as the tree says, and by `Memory`, where the question takes any.
    fn answer(&self, ask: &Ask) -> Reply
        ensures { (tree : Tree) → answers self.now tree
            → IsReadReply ask.now result (reply_to tree ask.now) };

    ghost sound: { (a : Self) (tree : Tree) → answers a tree → IsTree tree };
}

/// The names in a directory of the tree, with their kinds, ascending by bytes.
///
/// # Errors
/// As the answer, and by `BadName` where a name of the path may not stand in one. Of a directory of the tree
/// by `Memory` alone, or by `BadPath` where no call can name it.
pub fn names_answered<A: Answering>(
    alloc: Global,
    answering: &A,
    path: &[Name],
) -> Result<Items<Named>, FolderError>
    ensures listed { IfOk result (λ names. (tree : Tree) → A.answers answering.now tree
        → list tree path.now ≡ Ok names) }
    ensures refused { IfErr result (λ e. (tree : Tree) (names : List Named) → A.answers answering.now tree
        → list tree path.now ≡ Ok names → RefusesPath path.now e) }
{
    let ask = listing_of(alloc, path)?;
    let reply = answering.answer(&ask);
    names_of(reply)
}

/// All bytes of a file of the tree.
///
/// # Errors
/// As those of `names_answered`. Where no file stands at a path of such names, as the tree says, too.
pub fn bytes_answered<A: Answering>(
    alloc: Global,
    answering: &A,
    path: &[Name],
) -> Result<Items<u8>, FolderError>
    ensures read { IfOk result (λ bytes. (tree : Tree) → A.answers answering.now tree
        → file_at tree path.now ≡ Ok bytes) }
    ensures refused { IfErr result (λ e. (tree : Tree) (bytes : List ℕ) → A.answers answering.now tree
        → file_at tree path.now ≡ Ok bytes → RefusesPath path.now e) }
    ensures missing { IfErr result (λ e. (tree : Tree) (error : VolError) → A.answers answering.now tree
        → list_all is_name path.now ≡ true → file_at tree path.now ≡ Err error
        → RefusesFile path.now error e) }
{
    let ask = whole_file(alloc, path)?;
    let reply = answering.answer(&ask);
    bytes_of(reply)
}
