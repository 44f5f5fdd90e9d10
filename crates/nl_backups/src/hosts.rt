//! What a host gives and takes: an image, a folder that is read, one in which a tree is laid out, and whoever
//! asked for the command.
ghost use Rattle.std.specs.Prelude.{◌≡◌, IfOk, IsOk, OnErr, None, Option};
ghost use Rattle.nl_manifests.specs.HostTrees.{HostTree};
ghost use Rattle.nl_backups.specs.Hosts.{Holds, Image, IsPut};

use nl_folders::Path;
use nl_keep_pen::OpenedVolume;
use nl_manifests::{HostTree, LineFault, Opened};
use nl_types::{Items, Object, Row};
use std::alloc::Global;

/// The host doesn't give or take something. It knows why.
#[derive(Clone, Copy)]
pub struct HostFault;

/// Where an image stands. It is read, and replaced whole or not at all; nobody else replaces it meanwhile.
pub trait Place {
    /// The image, where it is known which one stands there.
    ghost image: { Self → Option Image };

    fn read(&mut self, alloc: Global) -> Result<Vec<u8>, HostFault>
        ensures read { IfOk result (λ bytes. Holds (image self.old) bytes.items) }
        ensures stays { image self.new ≡ image self.old };

    fn save(&mut self, bytes: &[u8]) -> Result<(), HostFault>
        ensures saved { IsOk result → Holds (image self.new) bytes.now }
        ensures refused { OnErr result (image self.new ≡ image self.old) };
}

/// A folder that is kept.
pub trait Source {
    /// All of it but what is left out, where that is known.
    ghost folder: { Self → Option HostTree };

    fn read(&mut self, alloc: Global) -> Result<HostTree, HostFault>
        ensures { IfOk result (λ tree. Holds (folder self.old) tree) };
}

/// A folder in which a tree is laid out.
pub trait Target {
    /// What was laid out in it, where that is known.
    ghost laid: { Self → Option HostTree };

    /// What a checkpoint shows, of which a part is laid out next. Nothing is laid out yet.
    fn look(&mut self, shown: &Opened) -> Result<(), HostFault>
        ensures { laid self.new ≡ laid self.old };

    fn lay_out(&mut self, tree: HostTree) -> Result<(), HostFault>
        ensures { IsOk result → Holds (laid self.new) tree };
}

/// Who asked for a command. What it wishes may rest on the volume: which checkpoints words mean, by their
/// rows.
pub trait Asker<W> {
    /// What it wishes, where that is known before.
    ghost wish: { Self → Option W } = { λ _. None };

    /// The volume is open, and nothing is done yet. `rows` are of all checkpoints, the minor ones too, the
    /// oldest first.
    fn asked(&mut self, volume: &OpenedVolume, rows: &[Row]) -> Result<W, HostFault>
        ensures { IfOk result (λ wished. Holds (wish self.old) wished) };
}

/// Who is told what a command comes to.
pub trait Listener<N> {
    /// It is done, and comes to this, and is saved next: behind that nothing may be refused.
    fn done(&mut self, news: &N) -> Result<(), HostFault>;

    /// No effort made room in the volume of an image for a tree.
    fn full(&mut self, image: &[u8], wanted: &[(Path, Object)]);
}

/// Who is shown the two trees that a revert makes one of.
pub trait Reviewer {
    /// What a checkpoint shows of which a part is to come back, and what the current tree shows. Nothing is done
    /// yet.
    fn look(&mut self, earlier: &Opened, later: &Opened);

    /// A tree is made of them, and is stored next. These lines of their manifests show nothing.
    fn drop_lines(&mut self, earlier: &[(Path, LineFault)], later: &[(Path, LineFault)]);
}

/// Puts an image in its place, where there is another one.
pub(crate) fn save_any<P: Place>(place: &mut P, next: &Option<Items<u8>>) -> Result<(), HostFault>
    ensures put { IsOk result → IsPut next.now (P.image place.old) (P.image place.new) }
    ensures refused { OnErr result (P.image place.new ≡ P.image place.old) }
{
    match next {
        Some(next) => place.save(next.as_slice()),
        None => Ok(()),
    }
}
