//! What lanes need of a reader.
ghost use Rattle.std.specs.Prelude.{◌≡◌, ◌≢◌, Err};
ghost use Rattle.nl_types.specs.declared.error.VolError.TheVariants.{BadMount};
ghost use Rattle.nl_publish.specs.Reading.{HasLearned, IsBytesOf, IsLater, Looked, Told};

use crate::{Mount, Volumes};
use nl_types::{Items, VolError};
use std::alloc::Global;

/// The right to take readers out of their places, and to put them back. `read_many` alone has it, so nobody else
/// leaves a place without its reader.
#[derive(Clone, Copy)]
pub struct PlaceKey(());

impl PlaceKey {
    pub(crate) fn new() -> PlaceKey {
        PlaceKey(())
    }
}

/// A reader's end of a shared volume, which reads files of mounts and never waits.
pub trait FileReader<J: Volumes>: Drop {
    ghost use Rattle.nl_publish.specs.Histories.{Known};

    /// What it has seen of its volume's history.
    ghost known: { Self → Known };

    /// The same reader, but for what it has seen.
    ghost with_known: { Self → Known → Self };

    /// Why it may be given no state that is as new as what it has seen.
    ghost ungiven: { Self → Type 0 };

    /// The reader out of its place.
    ghost taken: { Self → Self };

    /// The place without its reader.
    ghost left: { Self → Self };

    /// A place with a reader.
    ghost joined: { Self → Self → Self };

    /// Takes the reader out of its place, where one stays that finds nothing. It takes no memory.
    fn take(&mut self, key: &PlaceKey) -> Self
        ensures taken { result ≡ taken self.old }
        ensures left { self.new ≡ left self.old };

    /// Puts a reader back into the place that it was taken from. What it has seen meanwhile is seen.
    fn put_back(&mut self, reader: Self, key: &PlaceKey)
        requires { IsLater (known self.old) (known reader) }
        ensures { self.new ≡ joined self.old reader };

    /// Tells the reader of a mount of its volume. It takes no memory.
    fn learn(&mut self, mount: &Mount<J>)
        ensures later { IsLater (known self.old) (known self.new) }
        ensures told { HasLearned mount.now (known self.new) }
        ensures others { mount.now.told.volume ≢ (known self.old).volume → self.new ≡ self.old }
        ensures kept { self.new ≡ with_known self.old (known self.new) };

    /// The bytes of the file at a path of the mount's tree, as many as there are and at most `len`. Refused
    /// by `BadMount` where the reader doesn't find the mount, as the tree says, and for memory.
    fn read(
        &mut self,
        alloc: Global,
        mount: &Mount<J>,
        path: &[u8],
        offset: u64,
        len: u64,
    ) -> Result<Items<u8>, VolError>
        ensures later { IsLater (known self.old) (known self.new) }
        ensures looked { Looked mount.now (known self.old) (known self.new) (ungiven self.old)
            (result ≡ Err BadMount) (λ t. IsBytesOf t path.now offset len result) }
        ensures told { Told mount.now (result ≡ Err BadMount)
            (λ t. IsBytesOf t path.now offset len result) }
        ensures kept { self.new ≡ with_known self.old (known self.new) };

    ghost known_with: { (r : Self) (k : Known) → known (with_known r k) ≡ k };

    ghost known_taken: { (r : Self) → known (taken r) ≡ known r };

    ghost known_left: { (r : Self) → known (left r) ≡ known r };

    ghost with_more: { (r : Self) (k l : Known) → with_known (with_known r k) l ≡ with_known r l };

    ghost same_known: { (r : Self) → with_known r (known r) ≡ r };

    ghost joined_again: { (r : Self) (k : Known)
        → joined (left r) (taken (with_known (taken r) k)) ≡ with_known r k };
}
