//! Entries of the segment usage file.
ghost use Rattle.std.specs.Prelude.{◌≡◌, length, IfSome, Some};
ghost use Rattle.nl_layout.specs.Segment.{Spells, segment_at, segment_flags, segment_state_at};

use byteorder::{ByteOrder, LittleEndian};
use nl_types::{SegmentInfo, SegmentState};

/// The bytes of an entry of the segment usage file.
pub const SEGMENT_SIZE: usize = 16;

/// What is known of the segment whose entry the bytes spell, as one of the sufile of nilfs2.rst. None where
/// they spell none: not 16 of them, or flags that no segment has.
///
/// An entry has numbers in little endian: the stamp in 8 bytes at 0, the number of used blocks in 4 bytes at
/// 8, and the flags in 4 bytes at 12, which are 0 for a clean segment, 2 for a dirty one, 3 for the active
/// one and 6 for one in error.
pub fn read_segment(bytes: &[u8]) -> Option<SegmentInfo>
    ensures found { IfSome result (Spells bytes.now) }
    ensures only { (info : SegmentInfo) → Spells bytes.now info → result ≡ Some info }
{
    if bytes.len() != SEGMENT_SIZE {
        return None;
    }
    let info = from_bytes(bytes)?;
    // An entry has one spelling, so whatever the fields don't tell is judged here.
    let mut again = [0; SEGMENT_SIZE];
    write_segment(info, &mut again);
    if again.as_slice() == bytes {
        Some(info)
    } else {
        None
    }
}

/// Fills the place with the one spelling of the entry, from which `read_segment` gives it back.
pub fn write_segment(info: SegmentInfo, out: &mut [u8])
    requires { length out.old ≡ 16 }
    ensures { Spells out.new info }
{
    out.copy_from_slice(&to_bytes(info));
}

fn to_bytes(info: SegmentInfo) -> [u8; SEGMENT_SIZE]
    ensures { Spells result info }
{
    let mut bytes = [0; SEGMENT_SIZE];
    LittleEndian::write_u64(&mut bytes, info.stamp);
    LittleEndian::write_u32(&mut bytes[8..], info.used);
    LittleEndian::write_u32(&mut bytes[12..], flags_of(info.state));
    bytes
}

/// What stands in the fields of an entry. None where the flags are none.
fn from_bytes(bytes: &[u8]) -> Option<SegmentInfo>
    requires { length bytes.now ≡ 16 }
    ensures { result ≡ segment_at bytes.now }
{
    let state = state_of(LittleEndian::read_u32(&bytes[12..]))?;
    Some(SegmentInfo {
        state,
        stamp: LittleEndian::read_u64(bytes),
        used: LittleEndian::read_u32(&bytes[8..]),
    })
}

fn flags_of(state: SegmentState) -> u32
    ensures { result ≡ segment_flags state }
{
    match state {
        SegmentState::Clean => 0,
        SegmentState::Dirty => 2,
        SegmentState::Active => 3,
        SegmentState::Error => 6,
    }
}

fn state_of(flags: u32) -> Option<SegmentState>
    ensures { result ≡ segment_state_at flags }
{
    match flags {
        0 => Some(SegmentState::Clean),
        2 => Some(SegmentState::Dirty),
        3 => Some(SegmentState::Active),
        6 => Some(SegmentState::Error),
        _ => None,
    }
}
