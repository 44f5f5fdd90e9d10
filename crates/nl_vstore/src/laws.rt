//! What the definitions mean, as contracts of functions that do nothing.
ghost use Rattle.nl_vstore.specs.Counts.{NeededAreStanding, NeededStandOnce};
ghost use Rattle.nl_vstore.specs.Summaries.{RowsAreOfLogs, SummariesAreOne};

/// What the device has in the used part of a segment is whole logs, in one way only, and memory has what
/// their summaries say. So each payload block has one record, be its number in use or not.
pub fn summaries_are_one()
    ensures one { SummariesAreOne }
    ensures rows { RowsAreOfLogs }
{}

/// The needed numbers of a segment are as many by number as by block: each stands at one block, and a block
/// is one number's. So a count of them can be kept one number at a time.
pub fn needed_numbers_are_counted()
    ensures { NeededAreStanding }
{}

/// The needed numbers of a segment, as they are found block by block, are each found once.
pub fn needed_numbers_stand_once()
    ensures { NeededStandOnce }
{}
