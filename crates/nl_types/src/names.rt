//! Names that may stand in paths.
ghost use Rattle.std.specs.Prelude.{◌≡◌, ◌==◌, ◌&&◌, ◌∷◌, [], not};
ghost use Rattle.std.specs.List.{list_any};
ghost use Rattle.nl_types.specs.Plain.Characters.{dot};
ghost use Rattle.nl_types.specs.Plain.Paths.{is_name, same_name};

use crate::limits::NAME_LIMIT;

/// Whether a name is neither `.` nor `..`.
fn is_not_dots(name: &[u8]) -> bool
    ensures { result
        ≡ (not (same_name name.now (dot ∷ [])) && not (same_name name.now (dot ∷ dot ∷ []))) }
{
    name != b".".as_slice() && name != b"..".as_slice()
}

fn has_byte(name: &[u8], byte: u8) -> bool
    ensures { result ≡ list_any (λ b. b == byte) name.now }
{
    name.contains(&byte)
}

/// Whether a name may stand in a path: 1 to 255 bytes, without NUL and slash, and neither `.` nor `..`.
pub fn is_name(name: &[u8]) -> bool
    ensures { result ≡ is_name name.now }
{
    let has_others = has_byte(name, 0) || has_byte(name, b'/');
    !name.is_empty() && name.len() <= NAME_LIMIT && !has_others && is_not_dots(name)
}
