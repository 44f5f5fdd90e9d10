//! A folder of the host in which a tree is laid out, as what is asked of it is known.
ghost use Rattle.std.specs.Prelude.{◌≡◌, ◌++◌, ◌∷◌, [], List, OnErr, OnOk, Option, take};
ghost use Rattle.nl_types.specs.Plain.Paths.{Path};
ghost use Rattle.nl_manifests.specs.declared.host_tree.HostObject.TheVariants.{File, Link};
ghost use Rattle.nl_host.specs.Puts.{Given, Made, Put, asked_also, directory};

use crate::left_out::Reason;
use nl_manifests::Attributes;
use std::io;

/// A folder of the host in which a tree is laid out, and those that are made below it. We stand in one of them,
/// and what is made has a name in that. What is asked counts also where the host refuses it: of a file that is
/// refused some bytes may be there.
pub trait Laying {
    /// The names of the folders from below the first one to ours.
    ghost trail: { Self → Path };

    /// What was asked, each with its path below the first folder, where that is known.
    ghost asked: { Self → Option (List Put) };

    /// A new folder. Its attributes are set later, from within. We stay where we are.
    fn make_folder(&mut self, name: &[u8], attributes: Option<Attributes>) -> io::Result<()>
        ensures stays { trail self.new ≡ trail self.old }
        ensures asked { asked self.new ≡ asked_also (asked self.old)
            (Made (trail self.old ++ name.now ∷ []) (directory attributes) ∷ []) };

    /// Goes down to a folder in ours.
    fn enter(&mut self, name: &[u8]) -> io::Result<()>
        ensures down { OnOk result (trail self.new ≡ trail self.old ++ name.now ∷ []) }
        ensures stays { OnErr result (trail self.new ≡ trail self.old) }
        ensures asked { asked self.new ≡ asked self.old };

    /// A new file of these bytes, with its attributes. What isn't set of these is answered.
    fn make_file(
        &mut self,
        name: &[u8],
        bytes: &[u8],
        attributes: Option<Attributes>,
    ) -> io::Result<Option<Reason>>
        ensures stays { trail self.new ≡ trail self.old }
        ensures asked { asked self.new ≡ asked_also (asked self.old)
            (Made (trail self.old ++ name.now ∷ [])
            (record { object = File bytes.now; attributes = attributes }) ∷ []) };

    /// A new link, with its owners. What isn't set of it is answered.
    fn make_link(
        &mut self,
        name: &[u8],
        target: &str,
        attributes: Option<Attributes>,
    ) -> io::Result<Option<Reason>>
        ensures stays { trail self.new ≡ trail self.old }
        ensures asked { asked self.new ≡ asked_also (asked self.old)
            (Made (trail self.old ++ name.now ∷ [])
            (record { object = Link target.now; attributes = attributes }) ∷ []) };

    /// Sets the attributes of our folder. What isn't set of them is answered.
    fn set_ours(&mut self, attributes: Attributes) -> Option<Reason>
        ensures stays { trail self.new ≡ trail self.old }
        ensures asked { asked self.new ≡ asked_also (asked self.old)
            (Given (trail self.old) attributes ∷ []) };

    /// Goes up until our folder lies so many folders below the first one.
    ///
    /// # Errors
    /// Where that folder can't be reached any more. We stand there all the same.
    fn climb_to(&mut self, depth: usize) -> io::Result<()>
        ensures up { trail self.new ≡ take depth (trail self.old) }
        ensures asked { asked self.new ≡ asked self.old };
}
