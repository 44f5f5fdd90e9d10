//! What the program is given.
ghost use Rattle.std.specs.Prelude.{◌≡◌, ◌↔◌, IfOk, IsOk, OnErr};

use nl_types::{Geometry, Items, VolError};

/// How the device of a new volume is to be divided, and where the cleaner's configuration and the volume's
/// images stand. Nothing is judged yet.
#[derive(Drop)]
pub struct Arguments {
    /// Unused where `open` is given, as `blocks` is; both are read as numbers even so.
    pub segments: u32,
    /// Blocks in each segment.
    pub blocks: u32,
    /// The path of a file.
    pub configuration: Option<Items<u8>>,
    /// The path of the image of the volume that is opened in place of a new one.
    pub open: Option<Items<u8>>,
    /// The path of the file where the image of the volume is saved in the end.
    pub save: Option<Items<u8>>,
}

impl Arguments {
    ghost use Rattle.nl_types.specs.Plain.Limits.{IsGeometry};

    /// # Errors
    /// `BadGeometry` where the numbers are outside the limits of a volume.
    pub fn geometry(&self) -> Result<Geometry, VolError>
        ensures within { IsOk result ↔ IsGeometry self.now.segments self.now.blocks }
        ensures made { IfOk result
            (λ g. (g.segments ≡ self.now.segments) × (g.blocks ≡ self.now.blocks)) }
        ensures refused { OnErr result (result ≡ Err VolError.BadGeometry) }
    {
        Geometry::new(self.segments, self.blocks)
    }
}
