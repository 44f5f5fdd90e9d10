//! What the definitions mean, as contracts of functions that do nothing.
ghost use Rattle.nl_manifests.specs.Folders.{FoldersAreHostTrees};
ghost use Rattle.nl_manifests.specs.HostDifferences.{HostDifferencesAreExact};
ghost use Rattle.nl_manifests.specs.HostTrees.{TreesShowOne};
ghost use Rattle.nl_manifests.specs.Readings.{ManifestsArePrinted};
ghost use Rattle.nl_manifests.specs.Sealed.{SealedTreesOpen};
ghost use Rattle.nl_manifests.specs.Unread.{DifferencesNeedNoBytes};

use nl_folders::laws;

/// A file has a manifest exactly where its bytes are those that this manifest is printed as. So there is one
/// at most.
pub fn manifests_are_printed()
    ensures { ManifestsArePrinted }
{}

/// A tree shows one tree of the host. So where a tree was made to show one, that is what `open` answers.
pub fn trees_show_one()
    ensures { TreesShowOne }
{}

/// What is sealed is opened as it was: for the tree that `seal` answers, `open` answers what was sealed.
pub fn sealed_trees_open()
    ensures { SealedTreesOpen }
{
    trees_show_one();
}

/// A difference is told at a path exactly where two trees of the host differ there.
pub fn host_differences_are_exact()
    ensures { HostDifferencesAreExact }
{}

/// Each folder of the host, as a system has one, is a tree of the host that a tree of a volume shows. So of
/// the folders that are within the limits none is refused.
pub fn folders_are_host_trees()
    ensures { FoldersAreHostTrees }
{}

/// What differs between what two trees show is told without the bytes of their files, by what differs between
/// the two.
pub fn differences_need_no_bytes()
    ensures { DifferencesNeedNoBytes }
{
    laws::differences_are_exact();
    trees_show_one();
}
