//! What the definitions of spellings mean, as contracts of functions that do nothing.
ghost use Rattle.nl_layout.specs.Laws.{SpellOne};
ghost use Rattle.nl_dat.specs.EntryBytes.{Spells};

/// What the table of an image has for a number is told by its bytes: they spell one entry, or that there is
/// none.
pub fn bytes_spell_one_entry()
    ensures { SpellOne Spells }
{}
