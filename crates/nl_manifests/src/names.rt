//! Names and paths in a directory.
ghost use Rattle.std.specs.Prelude.{◌≡◌, ◌≤◌, true, length};
ghost use Rattle.std.specs.Option.{option_copied};
ghost use Rattle.nl_types.specs.Plain.Paths.{is_within, same_name};
ghost use Rattle.nl_types.specs.Plain.Trees.{name_below};
ghost use Rattle.nl_manifests.specs.HostTrees.{manifest_name};
ghost use Rattle.nl_manifests.specs.Private.Sealing.{only_name};

use nl_names::Name;

pub(crate) fn is_manifest_name(name: &[u8]) -> bool
    ensures { result ≡ same_name name.now manifest_name }
{
    name.cmp(&b".nlkeep".as_slice()).is_eq()
}

/// A name that is alone.
pub(crate) fn only_name(names: &[Name]) -> Option<&Name>
    ensures { option_copied result ≡ only_name names.now }
{
    match names {
        [] => None,
        [name] => Some(name),
        [_, _, ..] => None,
    }
}

/// The name that a path below a directory has in it, if it lies right below that.
pub(crate) fn name_below<'a>(directory: &[Name], path: &'a [Name]) -> Option<&'a Name>
    requires shorter { length directory.now ≤ length path.now }
    requires within { is_within directory.now path.now ≡ true }
    ensures { option_copied result ≡ name_below directory.now path.now }
{
    only_name(&path[directory.len()..])
}
