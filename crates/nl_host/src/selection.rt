//! What below a folder is to be kept.
ghost use Rattle.std.specs.Prelude.{◌≡◌, codes};
ghost use Rattle.std.specs.Str.{all_ascii_digits, bytes_eq};
ghost use Rattle.nl_host.specs.Selections.{IsSideOf, is_among, is_begun, is_end, is_numbered, is_side};

use crate::identity::Identity;
use crate::left_out::Reason;
use crate::patterns::Pattern;

/// What stands between some of the image's name and its number in the name of a side file: of one that a save
/// fills, or left.
const SAVED: &[u8] = b".nlvol-save-";

/// The same of one that is kept on purpose.
const KEPT: &[u8] = b".nlvol-kept-";

/// How many bytes of the image's name the name of a side file has at most.
const MOST_BYTES: usize = 240;

/// The name that nlkeep keeps for itself.
const RESERVED: &str = ".nlkeep";

/// What is passed over below a folder of the host.
#[derive(Clone, Copy)]
pub struct Selection<'a> {
    /// What a person left out.
    pub excluded: &'a [Pattern<'a>],
    /// The files that are the image and its sum.
    pub image: &'a [Identity],
    /// The files that saves left or kept beside these.
    pub sides: &'a [Identity],
    /// Whether other file systems than the folder's are passed over.
    pub is_one_system: bool,
    /// The devices of the file systems that are passed over in any case.
    pub systems: &'a [u64],
}

// ---- names of side files

fn are_digits(text: &[u8]) -> bool
    ensures { result ≡ all_ascii_digits text.now }
{
    match text {
        [] => true,
        [byte, rest @ ..] => byte.is_ascii_digit() && are_digits(rest),
    }
}

/// Whether a text is a word and a number.
fn is_numbered(word: &[u8], text: &[u8]) -> bool
    ensures { result ≡ is_numbered word.now text.now }
{
    match text.strip_prefix(word) {
        Some(number) => !number.is_empty() && are_digits(number),
        None => false,
    }
}

/// Whether a text is `.nlvol-save-` or `.nlvol-kept-` and a number.
fn is_end(text: &[u8]) -> bool
    ensures { result ≡ is_end text.now }
{
    is_numbered(SAVED, text) || is_numbered(KEPT, text)
}

/// Whether a text is this beginning and then such an end.
#[tactic(auto, using(crate::proofs::Words::ends))]
fn is_begun(begin: &[u8], text: &[u8]) -> bool
    ensures { result ≡ is_begun begin.now text.now }
{
    match (begin, text) {
        ([], _) => is_end(text),
        ([_, ..], []) => false,
        ([c, begin @ ..], [d, rest @ ..]) => *c == *d && is_begun(begin, rest),
    }
}

/// Whether a text is a dot, this beginning of an image's name and such an end.
fn is_side(begin: &[u8], text: &[u8]) -> bool
    ensures { result ≡ is_side begin.now text.now }
{
    match text {
        [b'.', rest @ ..] => is_begun(begin, rest),
        _ => false,
    }
}

/// Whether this is the name of a file that saves have beside the file of this name: a dot, that name, which
/// is cut where it is long, `.nlvol-save-` or `.nlvol-kept-`, and a number.
pub fn is_side_name(name: &str, text: &str) -> bool
    ensures { IsSideOf name.now text.now result }
{
    let begin = &name[..name.floor_char_boundary(MOST_BYTES)];
    is_side(begin.as_bytes(), text.as_bytes())
}

// ---- what is passed over

/// Whether a file is one of these.
fn is_among(all: &[Identity], one: Identity) -> bool
    ensures { result ≡ is_among all.now one }
{
    for other in all {
        if other.is_same(one) {
            return true;
        }
    }
    false
}

impl Selection<'_> {
    ghost use Rattle.nl_host.specs.Selections.{mean};

    /// Whether a person left out what stands at a path below the folder, under this name.
    pub fn excludes(&self, path: &str, name: &str) -> bool
        ensures { result ≡ mean self.now.excluded.now path.now name.now }
    {
        let excluded = self.excluded;
        for pattern in excluded {
            if pattern.means(path, name) {
                return true;
            }
        }
        false
    }

    /// Whether a file is the image or its sum, by whatever name: it has the device and the inode of one of
    /// them.
    pub fn is_image(&self, file: Identity) -> bool
        ensures { result ≡ is_among self.now.image.now file }
    {
        is_among(self.image, file)
    }

    /// Whether a file is one that a save left or kept beside the image or its sum, in the same way.
    pub fn is_side(&self, file: Identity) -> bool
        ensures { result ≡ is_among self.now.sides.now file }
    {
        is_among(self.sides, file)
    }

    /// Why a folder on a device is passed over below one on another device, if it is.
    pub fn passed_over(&self, device: u64, above: u64) -> Option<Reason> {
        if device == above {
            None
        } else if self.is_one_system {
            Some(Reason::OtherFileSystem)
        } else if self.systems.iter().any(|system| *system == device) {
            Some(Reason::System)
        } else {
            None
        }
    }
}

/// Whether nlkeep keeps a name for itself.
pub fn is_reserved(name: &str) -> bool
    ensures { result ≡ bytes_eq name.now (codes ".nlkeep") }
{
    name == RESERVED
}
