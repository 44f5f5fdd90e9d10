//! Digests of bytes.
ghost use Rattle.std.specs.Prelude.{◌≡◌};
ghost use Rattle.hex.specs.Hex.{encode_lower};
ghost use Rattle.sha2.specs.Sha256.{sha256};

use sha2::{Digest as _, Sha256};

/// How many digits a digest has.
pub(crate) const DIGITS: usize = 64;

/// The SHA-256 digest of some bytes.
#[derive(Clone, Copy)]
pub struct Digest {
    /// In hexadecimal, with small letters, as sha256sum(1) writes it.
    pub digits: [u8; DIGITS],
}

impl Digest {
    /// The digest of these bytes.
    pub fn of(bytes: &[u8]) -> Digest
        ensures { result.digits ≡ encode_lower (sha256 bytes.now) }
    {
        let mut digits = [0; DIGITS];
        let _ = hex::encode_to_slice(Sha256::digest(bytes), &mut digits);
        Digest { digits }
    }
}
