//! What the definitions mean, as contracts of functions that do nothing.
ghost use Rattle.nl_commands.specs.SplittingLaws.{OpenTextsHaveNoWords, WordsAreOneList};

/// A text has one list of words, or an open word and no list.
pub fn words_are_one_list()
    ensures one { WordsAreOneList }
    ensures open { OpenTextsHaveNoWords }
{}
