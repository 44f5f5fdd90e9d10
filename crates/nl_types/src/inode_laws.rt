//! What inodes and the tree that they stand for have to do with one another, as contracts of functions that
//! do nothing.
ghost use Rattle.nl_types.specs.InodeLaws.{CreatesInsert, RewritesInsert, RemovesRemove, RenamesMove, ReplacesMove, ChildrenAreRecords, FullVolumesAreTooBig, WalksFind, ObjectsByInodes, ParentsByInodes, ChildrenByRecords, DirectoriesHoldRecords, FilesHoldBytes, InodesMeanOneTree, NewInodesMeanTheRoot, LimitedInodesMeanTrees};
ghost use Rattle.nl_types.specs.InodeCallLaws.{FilesAreJudged, CreatesAreJudged, RmdirsAreJudged, RenamesAreJudged, ListsAreJudged, StatsAreJudged, RootIsThere, RootStays, CreatesLead, WritesLead, TruncatesLead, UnlinksLead, RmdirsLead, RenamesLead, RenamesOntoLead};

/// A walk by directories finds what the tree has.
pub fn walks_find_objects()
    ensures { WalksFind }
{}

/// A walk over inodes finds what the tree has, and is refused as the tree refuses.
pub fn walks_over_inodes_are_walks()
    ensures objects { ObjectsByInodes }
    ensures parents { ParentsByInodes }
    ensures children { ChildrenByRecords }
    ensures directories { DirectoriesHoldRecords }
    ensures files { FilesHoldBytes }
{}

/// An empty directory alone stands for the root alone.
pub fn new_inodes_mean_the_root()
    ensures { NewInodesMeanTheRoot }
{}

/// Inodes stand for one tree at most.
pub fn inodes_mean_one_tree()
    ensures { InodesMeanOneTree }
{}

/// Inodes whose numbers, names and sizes are within the limits stand for a tree within the limits.
pub fn limited_inodes_mean_trees()
    ensures { LimitedInodesMeanTrees }
{}

/// The children of a directory in the tree are the records of its inode.
pub fn children_are_records()
    ensures { ChildrenAreRecords }
{}

/// Where every inode number is in use, the tree has more paths than it may have beside the root.
pub fn full_volumes_are_too_big()
    ensures { FullVolumesAreTooBig }
{}

/// Changes of inodes are changes of the tree that they stand for, and of the number of its paths.
pub fn changes_of_inodes_change_paths()
    ensures creates { CreatesInsert }
    ensures rewrites { RewritesInsert }
    ensures removes { RemovesRemove }
    ensures renames { RenamesMove }
    ensures replaces { ReplacesMove }
{}

/// Calls are judged by inodes as by the tree that they stand for.
pub fn calls_are_judged_by_inodes()
    ensures files { FilesAreJudged }
    ensures creates { CreatesAreJudged }
    ensures rmdirs { RmdirsAreJudged }
    ensures renames { RenamesAreJudged }
    ensures lists { ListsAreJudged }
    ensures stats { StatsAreJudged }
{}

/// What a call does to inodes is what it does to the tree that they stand for.
pub fn calls_change_trees_by_inodes()
    ensures creates { CreatesLead }
    ensures writes { WritesLead }
    ensures truncates { TruncatesLead }
    ensures unlinks { UnlinksLead }
    ensures rmdirs { RmdirsLead }
    ensures renames { RenamesLead }
    ensures renames_onto { RenamesOntoLead }
{}

/// Nothing is made at the root, and nothing is renamed to it.
pub fn roots_stay()
    ensures there { RootIsThere }
    ensures stays { RootStays }
{}
