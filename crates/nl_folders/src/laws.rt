//! What the definitions mean, as contracts of functions that do nothing.
ghost use Rattle.nl_folders.specs.Differences.{DifferencesAreExact};
ghost use Rattle.nl_folders.specs.Parts.{PartsAreExact};
ghost use Rattle.nl_folders.specs.Passing.{DifferencesPassOver};
ghost use Rattle.nl_folders.specs.Plans.{CallsGoOn, MovedIsKept, OneTreeNeedsNoCall};

/// A difference is told at a path exactly where two trees differ there.
pub fn differences_are_exact()
    ensures { DifferencesAreExact }
{}

/// Where files are known to be one in both trees, the same is told whether their bytes are read or not.
pub fn differences_pass_over()
    ensures { DifferencesPassOver }
{}

/// What lies below a path is found there under what is left of its paths, and nothing else is.
pub fn parts_are_exact()
    ensures { PartsAreExact }
{}

/// Of one tree a plan has no calls, calls go on from the tree that those before them have made, and none
/// writes what another one renames.
pub fn plans_are_of_what_differs()
    ensures no_call { OneTreeNeedsNoCall }
    ensures calls { CallsGoOn }
    ensures kept { MovedIsKept }
{}
