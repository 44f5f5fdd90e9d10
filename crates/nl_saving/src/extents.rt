//! Which bytes of a file are written where its zeros are left out.
ghost use Rattle.std.specs.Prelude.{◌≡◌, ◌⊎◌, ◌↔◌, ◌+◌, ◌<◌, ◌≤◌, IsTrue, MatchOption, length, replicate};
ghost use Rattle.nl_saving.specs.Extents.{AreZeros, HasHole, HasNoHole, IsBound, IsNextExtent};

/// The bytes of a hole, and what its place is a multiple of: a block of most file systems of hosts.
const UNIT: usize = 4096;

/// The bytes of a file from one place up to another. They are written.
#[derive(Clone, Copy)]
pub struct Extent {
    pub start: usize,
    pub end: usize,
}

/// Whether bytes are a whole unit of zeros.
fn is_hole(bytes: &[u8]) -> bool
    ensures { IsTrue result ↔ (bytes.now ≡ replicate 4096 0) }
{
    bytes == [0; UNIT].as_slice()
}

/// Whether a hole begins at a place. A last part of a unit is none.
fn has_hole(bytes: &[u8], start: usize) -> bool
    requires { start ≤ length bytes.now }
    ensures hole { IsTrue result ↔ HasHole bytes.now start }
    ensures whole { IsTrue result → start + 4096 ≤ length bytes.now }
{
    let rest = &bytes[start..];
    is_hole(&rest[..UNIT.min(rest.len())])
}

/// Where the first unit from a place on begins that is no hole, or the end.
fn behind_holes(bytes: &[u8], from: usize) -> usize
    requires { IsBound (length bytes.now) from }
    ensures ascends { from ≤ result }
    ensures zeros { AreZeros bytes.now from result }
    ensures bound { IsBound (length bytes.now) result }
    ensures full { result < length bytes.now → HasHole bytes.now result → ⊥ }
{
    let mut at = from;
    while at < bytes.len() && has_hole(bytes, at) {
        at += UNIT;
    }
    at
}

/// Where the first hole from a place on begins, or the end.
fn before_hole(bytes: &[u8], from: usize) -> usize
    requires { IsBound (length bytes.now) from }
    ensures ascends { from ≤ result }
    ensures full { HasNoHole bytes.now from result }
    ensures bound { IsBound (length bytes.now) result }
    ensures hole { (result ≡ length bytes.now) ⊎ HasHole bytes.now result }
{
    let mut at = from;
    while at < bytes.len() && !has_hole(bytes, at) {
        at += UNIT.min(bytes.len() - at);
    }
    at
}

/// The next bytes from a place on that are to be written, if there are any. A unit begins there, or it is the
/// end.
pub fn next_extent(bytes: &[u8], from: usize) -> Option<Extent>
    requires { IsBound (length bytes.now) from }
    ensures { MatchOption result
        (AreZeros bytes.now from (length bytes.now))
        (IsNextExtent bytes.now from) }
{
    let start = behind_holes(bytes, from);
    if start == bytes.len() {
        return None;
    }
    let end = before_hole(bytes, start);
    Some(Extent { start, end })
}
