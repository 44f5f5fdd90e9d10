//! Paths of the host below a folder.
ghost use Rattle.std.specs.Prelude.{◌≡◌, ◌≤◌, ◌++◌, ◌∷◌, IfOk, IfSome, is_some, length, string_bytes};
ghost use Rattle.std.specs.Str.{is_utf8};
ghost use Rattle.nl_types.specs.Plain.Characters.{slash};
ghost use Rattle.nl_host.specs.HostPaths.{host_names, host_path, is_host_name};

use nl_names::Name;
use nl_types::is_name;
use std::alloc::{AllocError, Global};
use std::str;

/// Bytes as text, if they are UTF-8.
pub(crate) fn text_of(bytes: &[u8]) -> Option<&str>
    ensures may { is_some result ≡ is_utf8 bytes.now }
    ensures text { IfSome result (λ text. text.now ≡ bytes.now) }
{
    match str::from_utf8(bytes) {
        Ok(text) => Some(text),
        Err(_) => None,
    }
}

/// A name as text, where a path of the host may have it.
pub(crate) fn name_text(name: &[u8]) -> Option<&str>
    ensures may { is_some result ≡ is_host_name name.now }
    ensures text { IfSome result (λ text. text.now ≡ name.now) }
{
    if !is_name(name) {
        return None;
    }
    text_of(name)
}

/// The path of what has a name in the folder at a path.
pub(crate) fn path_below(alloc: Global, folder: &str, name: &str) -> Result<String, AllocError>
    ensures { IfOk result (λ path. string_bytes path ≡ folder.now ++ slash ∷ name.now) }
{
    let mut path = String::from_str(alloc, folder)?;
    path.push('/')?;
    path.push_str(name)?;
    Ok(path)
}

/// The path of the host that has a folder's path in front, and then the names of a path up to the first one
/// that no path of the host may have; and how many names these are.
pub fn host_path(alloc: Global, folder: &str, path: &[Name]) -> Result<(String, usize), AllocError>
    ensures text { IfOk result (λ found. string_bytes found.0 ≡ host_path folder.now path.now) }
    ensures names { IfOk result (λ found. found.1 ≡ host_names path.now) }
    ensures within { IfOk result (λ found. found.1 ≤ length path.now) }
{
    let mut text = String::from_str(alloc, folder)?;
    for (count, name) in path.iter().enumerate() {
        let Some(name) = name_text(name.as_slice()) else {
            return Ok((text, count));
        };
        text.push('/')?;
        text.push_str(name)?;
    }
    Ok((text, path.len()))
}
