//! What packing means for a directory as a map, as contracts of functions that do nothing.
ghost use Rattle.nl_dirs.specs.Laws.{
  BlocksHoldTheirRecords,
  BytesHoldAList,
  BytesHoldOneList,
  DirectoriesHoldOneList,
  EarlierNamesAreAbsent,
  NamesStandInOneBlock,
  PackingsAreOne,
};

/// Two packings of one map are the same blocks, byte for byte.
pub fn packings_are_one()
    ensures { PackingsAreOne }
{}

/// Any bytes hold one list of records, and a block holds the records that it is made of.
pub fn blocks_hold_one_list()
    ensures some { BytesHoldAList }
    ensures one { BytesHoldOneList }
    ensures own { BlocksHoldTheirRecords }
{}

/// The blocks of a directory are those of one list of records.
pub fn directories_hold_one_list()
    ensures { DirectoriesHoldOneList }
{}

/// Where the first names of a directory's blocks are known, one block is read to find a name: the last one
/// whose first name isn't behind it. A name before all of them is not there.
pub fn names_stand_in_one_block()
    ensures one { NamesStandInOneBlock }
    ensures none { EarlierNamesAreAbsent }
{}
