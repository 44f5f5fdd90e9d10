//! What the definitions mean, as contracts of functions that do nothing.
ghost use Rattle.std.specs.Prelude.{codes};
ghost use Rattle.nl_commands.specs.Meanings.{AsksFor, help, version};

/// A letter asks for its text as the long name does.
pub fn letters_ask_as_long_names()
    ensures help { AsksFor (codes "--help") help × AsksFor (codes "-h") help }
    ensures version { AsksFor (codes "--version") version × AsksFor (codes "-V") version }
{}
