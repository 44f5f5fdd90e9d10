//! What the definitions mean, as contracts of functions that do nothing.
ghost use Rattle.nl_pins.specs.Pins.{PinsAreReadAgain, PinsStayPrintable, ReadPinsArePrintable};
ghost use Rattle.nl_pins.specs.Trees.{PinsAreApart, PinsAreFound};

/// Whatever pins come to a tree in order, all else in it stays.
pub fn pins_are_apart()
    ensures { PinsAreApart }
{}

/// What comes as pins to a tree that had none is read of it: the same bytes, or none.
pub fn pins_are_found()
    ensures { PinsAreFound }
{}

/// Pins that are printed are read again as they were. That is so of what was read of a file, and where pins come
/// to it and go, as long as what is noted of one has no NUL.
pub fn pins_are_read_again()
    ensures again { PinsAreReadAgain }
    ensures read { ReadPinsArePrintable }
    ensures stay { PinsStayPrintable }
{
    nl_manifests::laws::manifests_are_printed();
}
