//! What blocks mean for a file, as contracts of functions that do nothing.
ghost use Rattle.nl_tree.specs.Contents.{FilesHoldOneList};

/// The blocks and the size of a file are those of one list of bytes.
pub fn files_hold_one_list()
    ensures { FilesHoldOneList }
{}
