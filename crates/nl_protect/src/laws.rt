//! What the language of configurations means, as contracts of functions that do nothing.
ghost use Rattle.nl_protect.specs.Laws.{FirstBadLineIsTold, LastSettingCounts, OnlyBadLinesAreTold};

/// A configuration is refused exactly where a line of it can't be read, by the number of the first such line.
pub fn the_first_bad_line_is_told()
    ensures told { FirstBadLineIsTold }
    ensures alone { OnlyBadLinesAreTold }
{}

/// Where a keyword is given twice, the last counts, and where it isn't given, the standard value does.
pub fn the_last_setting_counts()
    ensures { LastSettingCounts }
{}
