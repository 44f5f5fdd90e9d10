//! What the definitions mean, as a contract of a function that does nothing.
ghost use Rattle.nl_shown.specs.Kept.{KeptFoldersAreShown, RootsHaveAll};

/// What is shown of a tree that keeps a folder is that folder, whatever is pinned: each entry but what has the
/// name of the file of pins, with its mode, owner, time and target.
pub fn kept_folders_are_shown()
    ensures { KeptFoldersAreShown }
{
    nl_manifests::laws::trees_show_one();
}

/// What a tree shows at and below the root is all that it shows.
pub fn roots_have_all()
    ensures { RootsHaveAll }
{}
