//! Ports, which read without waiting.
ghost use Rattle.std.specs.Prelude.{◌≡◌, ◌≢◌, [], None, Some, true, IfErr, IfOk, OnErr, OnOk, IsSome, length};
ghost use Rattle.std.specs.Option.{option_map_or};
ghost use Rattle.lru.specs.LruCache.{lru_cache};
ghost use Rattle.nl_commit.specs.Commits.{shown_after};
ghost use Rattle.nl_commit.specs.Shown.{pages_shown};
ghost use Rattle.nl_publish.specs.States.{name_of};
ghost use Rattle.nl_mounts.specs.Caching.{AreCachedPages, IsCacheRefused, IsCacheSize};
ghost use Rattle.nl_publish.specs.Reading.{HasLearned, IsBytesOf, IsLater, Looked, Told};
ghost use Rattle.nl_mounts.specs.Ports.{Finds, IsCacheOf, IsListOf, IsNotRead, IsOfTree, IsReadOf, IsSeenOn, IsStatOf, IsUngiven, Learns, Misses, OfMountFile, OfTreeFile, PutsOfTree, TouchesIfAny, WarmsIfAny, fresh, joined, seeing, taken, vacant};
ghost use Rattle.nl_mounts.specs.Visiting.{HasEntered};
ghost use Rattle.nl_mounts.specs.Warming.{IsWarmingOf, Warms};

use crate::cache::{Cache, new_cache};
use crate::cached_reads::{read_cached, warm};
use crate::enters::Enters;
use crate::looks::{Look, MountedTree, find, front_at};
use nl_files::ReadTree;
use nl_publish::{Front, Mount, ReaderState, Seat, StateReader, Volumes};
use nl_tree::{list, read, read_into, stat};
use nl_types::{Items, Named, Stat, VolError};
use std::alloc::Global;
use std::marker::Model;

/// A reader's end of a shared volume. It may keep pages of files that it reads often. Contracts see what it
/// has seen of the volume's history, what it keeps, and whether it has its reader.
#[derive(Drop)]
pub struct Port<J: Volumes, E: Enters = StateReader> {
    /// It is out while a call looks, and while the port is out of its place.
    reader: Option<E>,
    front: Front<J>,
    /// It is out only while a call uses it.
    cache: Option<Cache>,
}

impl<J: Volumes, E: Enters> Model for Port<J, E> {
    ghost use Rattle.std.specs.Prelude.{◌≡◌, is_some};
    ghost use Rattle.std.specs.Option.{ForSome};
    ghost use Rattle.nl_publish.specs.States.{name_of};
    ghost use Rattle.nl_mounts.specs.Caching.{AreCachedPages};
    ghost use Rattle.nl_mounts.specs.Ports.{PortView};

    ghost Value = { PortView };

    ghost view = { λ p. record { known = p.front; cache = p.cache; seated = is_some p.reader } };

    ghost invariant = { λ p. ForSome p.reader (λ r. E.names r ≡ name_of (J.book p.front.volume))
        × AreCachedPages p.front.commits p.cache };
}

// ---- what is done in a tree that was found; `BadMount` where there is none

/// Reads a file, through the cache where there is one. Its blocks come to the front there.
fn read_in(
    state: &ReaderState,
    tree: Option<MountedTree>,
    cache: &mut Option<Cache>,
    path: &[u8],
    offset: u64,
    into: &mut [u8],
) -> Result<usize, VolError>
    requires { IsCacheOf (pages_shown state.now.tables) tree cache.old }
    ensures reads { IsOfTree (pages_shown state.now.tables) tree (IsNotRead result into.old into.new)
        (λ t. IsReadOf t path.now offset into.old result into.new) }
    ensures touched { TouchesIfAny (OfTreeFile (pages_shown state.now.tables) tree path.now)
        offset cache.old result cache.new }
{
    let Some(found) = tree else {
        return Err(VolError::BadMount);
    };
    let tree = ReadTree::new(&state.tables, found.root);
    match cache {
        None => read_into(&tree, path, offset, into),
        Some(cache) => read_cached(&tree, found.checkpoint, cache, path, offset, into),
    }
}

/// Puts blocks of a file into the cache.
fn warm_in(
    state: &ReaderState,
    tree: Option<MountedTree>,
    cache: &mut Cache,
    path: &[u8],
    offset: u64,
    len: u64,
) -> Result<usize, VolError>
    ensures refused { IsOfTree (pages_shown state.now.tables) tree (result ≡ Err VolError.BadMount)
        (λ t. IsWarmingOf t path.now result) }
    ensures warmed { Warms (OfTreeFile (pages_shown state.now.tables) tree path.now)
        offset len cache.old result cache.new }
    ensures stored { PutsOfTree (pages_shown state.now.tables) tree cache.old cache.new }
{
    match tree {
        Some(tree) => warm(
            &ReadTree::new(&state.tables, tree.root),
            tree.checkpoint,
            cache,
            path,
            offset,
            len,
        ),
        None => Err(VolError::BadMount),
    }
}

fn bytes_in(
    alloc: Global,
    state: &ReaderState,
    tree: Option<MountedTree>,
    path: &[u8],
    offset: u64,
    len: u64,
) -> Result<Items<u8>, VolError>
    ensures { IsOfTree (pages_shown state.now.tables) tree (result ≡ Err VolError.BadMount)
        (λ t. IsBytesOf t path.now offset len result) }
{
    match tree {
        Some(tree) => read(
            alloc,
            &ReadTree::new(&state.tables, tree.root),
            path,
            offset,
            len,
        ),
        None => Err(VolError::BadMount),
    }
}

fn stat_in(state: &ReaderState, tree: Option<MountedTree>, path: &[u8]) -> Result<Stat, VolError>
    ensures { IsOfTree (pages_shown state.now.tables) tree (result ≡ Err VolError.BadMount)
        (λ t. IsStatOf t path.now result) }
{
    match tree {
        Some(tree) => stat(&ReadTree::new(&state.tables, tree.root), path),
        None => Err(VolError::BadMount),
    }
}

fn list_in(
    alloc: Global,
    state: &ReaderState,
    tree: Option<MountedTree>,
    path: &[u8],
) -> Result<Items<Named>, VolError>
    ensures { IsOfTree (pages_shown state.now.tables) tree (result ≡ Err VolError.BadMount)
        (λ t. IsListOf t path.now result) }
{
    match tree {
        Some(tree) => list(alloc, &ReadTree::new(&state.tables, tree.root), path),
        None => Err(VolError::BadMount),
    }
}

impl<J: Volumes> Port<J> {
    /// The port that has a seat of a shared volume. It keeps no pages yet.
    pub fn new(seat: Seat<J>) -> Port<J>
        ensures { result ≡ fresh seat.front }
    {
        let Seat { reader, front } = seat;
        Port::over(reader, front)
    }
}

impl<J: Volumes, E: Enters> Port<J, E> {
    /// A port with a reader of its own, and what it has seen. It keeps no pages yet.
    pub fn over(reader: E, front: Front<J>) -> Port<J, E>
        requires { E.names reader ≡ name_of (J.book front.volume) }
        ensures { result ≡ fresh front }
    {
        Port {
            reader: Some(reader),
            front,
            cache: None,
        }
    }

    /// Takes the port out of its place, where one stays that finds nothing. Pages that are kept stay there.
    /// Takes no memory.
    pub(crate) fn take(&mut self) -> Port<J, E>
        ensures taken { result ≡ taken self.old }
        ensures left { self.new ≡ vacant self.old }
    {
        Port {
            reader: self.reader.take(),
            front: self.front.again(),
            cache: None,
        }
    }

    /// Puts a port back into the place that it was taken from. What it has seen meanwhile is seen.
    pub(crate) fn put_back(&mut self, port: Port<J, E>)
        requires { IsLater self.old.known port.known }
        ensures { self.new ≡ joined self.old port }
    {
        let Port {
            reader,
            front,
            cache: _cache,
        } = port;
        front.volume();
        self.reader = reader;
        self.front = front;
    }

    /// What it has seen of its volume's history.
    pub(crate) fn seen(&self) -> &Front<J>
        ensures { result.now ≡ self.now.known }
    {
        &self.front
    }

    /// Tells the port of a history of its volume that is no shorter than what it has seen.
    pub(crate) fn see(&mut self, front: Front<J>)
        requires { IsLater self.old.known front }
        ensures { self.new ≡ seeing self.old front }
    {
        front.volume();
        self.front = front;
    }

    /// The id of its volume.
    pub fn volume(&self) -> u64
        ensures { result ≡ self.now.known.volume }
    {
        self.front.volume()
    }

    /// Keeps pages of files from now on, at most so many: none at first, and those that were kept are gone.
    /// They come by `warm`, and `read_into` looks for them.
    ///
    /// # Errors
    /// `BadRange` for none or more than 4,096, `Memory`; then all that was kept stays.
    pub fn set_cache(&mut self, alloc: Global, pages: usize) -> Result<(), VolError>
        ensures known { self.new.known ≡ self.old.known }
        ensures seated { self.new.seated ≡ self.old.seated }
        ensures empty { OnOk result (self.new.cache ≡ Some (lru_cache [] pages)) }
        ensures size { OnOk result (IsCacheSize pages) }
        ensures same { OnErr result (self.new ≡ self.old) }
        ensures refused { IfErr result (λ e. IsCacheRefused pages e) }
    {
        let cache = new_cache(alloc, pages)?;
        self.cache = Some(cache);
        Ok(())
    }

    /// How many pages it keeps. It takes no memory.
    pub fn cached(&self) -> usize
        ensures { result ≡ option_map_or (λ c. length c.entries) self.now.cache 0 }
    {
        match &self.cache {
            Some(cache) => cache.len(),
            None => 0,
        }
    }

    /// Tells the port of a mount of its volume: what it has seen is then what the mount was told, where that
    /// is more. It takes no memory, and never waits.
    pub fn learn(&mut self, mount: &Mount<J>)
        ensures later { IsLater self.old.known self.new.known }
        ensures told { HasLearned mount.now self.new.known }
        ensures others { mount.now.told.volume ≢ self.old.known.volume → self.new ≡ self.old }
        ensures kept { Learns mount.now self.old self.new }
    {
        if mount.told().volume() != self.front.volume() {
            return;
        }
        if !self.front.covers(mount.told()) {
            self.front = mount.told().again();
        }
    }

    /// Enters the state that is published, and looks for a mount there. Until the look comes back, the port
    /// has no reader. Refused by `BadMount` where the mount is another volume's, and where no state is given
    /// that is as new as what was seen.
    pub(crate) fn look(&mut self, mount: &Mount<J>) -> Result<Look<J, E>, VolError>
        ensures same { OnErr result (self.new ≡ self.old) }
        ensures refused { IfErr result (λ e. e ≡ VolError.BadMount) }
        ensures missed { OnErr result (Misses E.gives mount.now self.old) }
        ensures seated { OnOk result (self.old.seated ≡ true) }
        ensures out { OnOk result (self.new ≡ vacant self.old) }
        ensures finds { IfOk result (λ look.
            Finds mount.now self.old.known look.front look.shown look.tree) }
    {
        if mount.told().volume() != self.front.volume() {
            return Err(VolError::BadMount);
        }
        let Some(reader) = self.reader.take() else {
            return Err(VolError::BadMount);
        };
        match reader.enter() {
            Err(reader) => {
                self.reader = Some(reader);
                Err(VolError::BadMount)
            }
            Ok(inside) => match find(E::state(&inside), &self.front, mount) {
                None => {
                    self.reader = Some(E::leave(inside));
                    Err(VolError::BadMount)
                }
                Some((front, tree)) => Ok(Look {
                    inside,
                    front,
                    tree,
                }),
            },
        }
    }

    /// Enters the state that is published. Until the look comes back, the port has no reader. Refused by
    /// `BadMount` where no state is given that is as new as what was seen.
    pub(crate) fn visit(&mut self) -> Result<Look<J, E>, VolError>
        ensures same { OnErr result (self.new ≡ self.old) }
        ensures refused { IfErr result (λ e. e ≡ VolError.BadMount) }
        ensures ungiven { OnErr result (IsUngiven E.gives self.old.known self.old.seated) }
        ensures seated { OnOk result (self.old.seated ≡ true) }
        ensures out { OnOk result (self.new ≡ vacant self.old) }
        ensures enters { IfOk result (λ look. HasEntered self.old.known look.front look.shown) }
    {
        let Some(reader) = self.reader.take() else {
            return Err(VolError::BadMount);
        };
        match reader.enter() {
            Err(reader) => {
                self.reader = Some(reader);
                Err(VolError::BadMount)
            }
            Ok(inside) => match front_at(E::state(&inside), &self.front) {
                None => {
                    self.reader = Some(E::leave(inside));
                    Err(VolError::BadMount)
                }
                Some(front) => Ok(Look {
                    inside,
                    front,
                    tree: None,
                }),
            },
        }
    }

    /// The reader is back, and what it found is seen. Pages that are kept are right there too.
    pub(crate) fn come_back(&mut self, look: Look<J, E>)
        requires { IsSeenOn self.old.known look.front }
        ensures { self.new ≡ record { known = look.front; cache = self.old.cache; seated = true } }
    {
        let Look {
            inside,
            front,
            tree: _,
        } = look;
        self.reader = Some(E::leave(inside));
        self.front = front;
    }

    /// Reads while the port's cache is out.
    fn read_through(
        &mut self,
        cache: &mut Option<Cache>,
        mount: &Mount<J>,
        path: &[u8],
        offset: u64,
        into: &mut [u8],
    ) -> Result<usize, VolError>
        requires { AreCachedPages self.old.known.commits cache.old }
        ensures kept { self.new ≡ seeing self.old self.new.known }
        ensures pages { AreCachedPages self.new.known.commits cache.new }
        ensures later { IsLater self.old.known self.new.known }
        ensures looked { Looked mount.now self.old.known self.new.known
            (IsUngiven E.gives self.old.known self.old.seated)
            (IsNotRead result into.old into.new)
            (λ t. IsReadOf t path.now offset into.old result into.new) }
        ensures told { Told mount.now (IsNotRead result into.old into.new)
            (λ t. IsReadOf t path.now offset into.old result into.new) }
        ensures touched { TouchesIfAny
            (OfMountFile (shown_after self.new.known.commits) mount.now.number path.now)
            offset cache.old result cache.new }
    {
        match self.look(mount) {
            Err(refusal) => Err(refusal),
            Ok(look) => {
                let result = read_in(look.state(), look.tree(), cache, path, offset, into);
                self.come_back(look);
                result
            }
        }
    }

    /// Reads the bytes of the file at a path of the mount's tree, as `nl_tree::read_into` does. Where the
    /// port keeps pages, it looks for the file's there, and brings those of the bytes that it answers to the
    /// front, ascending; it puts none. It takes no memory, and never waits. All bytes are read in one state.
    /// At most one other is published until they are, and a further one waits: so a large read holds up
    /// publications, and with them each call that changes the volume. `FileAt::read_parts` doesn't. Refused by `BadMount` where the
    /// state that it enters lacks the mount, where it is given none or one that is older than what it has
    /// seen, and where the mount is another volume's; the path isn't looked at then.
    pub fn read_into(
        &mut self,
        mount: &Mount<J>,
        path: &[u8],
        offset: u64,
        into: &mut [u8],
    ) -> Result<usize, VolError>
        ensures later { IsLater self.old.known self.new.known }
        ensures looked { Looked mount.now self.old.known self.new.known
            (IsUngiven E.gives self.old.known self.old.seated)
            (IsNotRead result into.old into.new)
            (λ t. IsReadOf t path.now offset into.old result into.new) }
        ensures told { Told mount.now (IsNotRead result into.old into.new)
            (λ t. IsReadOf t path.now offset into.old result into.new) }
        ensures touched { TouchesIfAny
            (OfMountFile (shown_after self.new.known.commits) mount.now.number path.now)
            offset self.old.cache result self.new.cache }
        ensures seated { self.new.seated ≡ self.old.seated }
    {
        let mut cache = self.cache.take();
        let result = self.read_through(&mut cache, mount, path, offset, into);
        self.cache = cache;
        result
    }

    /// Warms while the port's cache is out.
    fn warm_through(
        &mut self,
        cache: &mut Cache,
        mount: &Mount<J>,
        path: &[u8],
        offset: u64,
        len: u64,
    ) -> Result<usize, VolError>
        requires { AreCachedPages self.old.known.commits (Some cache.old) }
        ensures kept { self.new ≡ seeing self.old self.new.known }
        ensures pages { AreCachedPages self.new.known.commits (Some cache.new) }
        ensures later { IsLater self.old.known self.new.known }
        ensures looked { Looked mount.now self.old.known self.new.known
            (IsUngiven E.gives self.old.known self.old.seated)
            (result ≡ Err VolError.BadMount) (λ t. IsWarmingOf t path.now result) }
        ensures told { Told mount.now (result ≡ Err VolError.BadMount)
            (λ t. IsWarmingOf t path.now result) }
        ensures warmed { Warms
            (OfMountFile (shown_after self.new.known.commits) mount.now.number path.now)
            offset len cache.old result cache.new }
    {
        match self.look(mount) {
            Err(refusal) => Err(refusal),
            Ok(look) => {
                let result = warm_in(look.state(), look.tree(), cache, path, offset, len);
                self.come_back(look);
                result
            }
        }
    }

    /// Puts the blocks in which bytes of a file lie from an offset on, at most so many bytes, into the cache:
    /// those that are stored and aren't there yet, ascending, and answers how many. Those that are there come
    /// to the front. Without a cache it answers 0, and looks at nothing. It never waits.
    ///
    /// # Errors
    /// Those of `read_into`, and `Memory`; then what was put before stays.
    pub fn warm(
        &mut self,
        mount: &Mount<J>,
        path: &[u8],
        offset: u64,
        len: u64,
    ) -> Result<usize, VolError>
        ensures later { IsLater self.old.known self.new.known }
        ensures nothing { self.old.cache ≡ None → self.new ≡ self.old }
        ensures looked { IsSome self.old.cache → Looked mount.now self.old.known self.new.known
            (IsUngiven E.gives self.old.known self.old.seated)
            (result ≡ Err VolError.BadMount) (λ t. IsWarmingOf t path.now result) }
        ensures told { IsSome self.old.cache → Told mount.now
            (result ≡ Err VolError.BadMount) (λ t. IsWarmingOf t path.now result) }
        ensures warmed { WarmsIfAny
            (OfMountFile (shown_after self.new.known.commits) mount.now.number path.now)
            offset len self.old.cache result self.new.cache }
        ensures seated { self.new.seated ≡ self.old.seated }
    {
        let Some(mut cache) = self.cache.take() else {
            return Ok(0);
        };
        let result = self.warm_through(&mut cache, mount, path, offset, len);
        self.cache = Some(cache);
        result
    }

    /// The bytes of the file at a path of the mount's tree, as many as there are and at most `len`, as
    /// `nl_tree::read` does. It never waits. Refused as `read_into` is, and for memory.
    pub fn read(
        &mut self,
        alloc: Global,
        mount: &Mount<J>,
        path: &[u8],
        offset: u64,
        len: u64,
    ) -> Result<Items<u8>, VolError>
        ensures later { IsLater self.old.known self.new.known }
        ensures looked { Looked mount.now self.old.known self.new.known
            (IsUngiven E.gives self.old.known self.old.seated)
            (result ≡ Err VolError.BadMount)
            (λ t. IsBytesOf t path.now offset len result) }
        ensures told { Told mount.now (result ≡ Err VolError.BadMount)
            (λ t. IsBytesOf t path.now offset len result) }
        ensures kept { self.new ≡ seeing self.old self.new.known }
    {
        match self.look(mount) {
            Err(refusal) => Err(refusal),
            Ok(look) => {
                let result = bytes_in(alloc, look.state(), look.tree(), path, offset, len);
                self.come_back(look);
                result
            }
        }
    }

    /// What stands at a path of the mount's tree. It takes no memory, and never waits. Refused as `read_into`
    /// is, and as `nl_tree::stat` is.
    pub fn stat(&mut self, mount: &Mount<J>, path: &[u8]) -> Result<Stat, VolError>
        ensures later { IsLater self.old.known self.new.known }
        ensures looked { Looked mount.now self.old.known self.new.known
            (IsUngiven E.gives self.old.known self.old.seated)
            (result ≡ Err VolError.BadMount)
            (λ t. IsStatOf t path.now result) }
        ensures told { Told mount.now (result ≡ Err VolError.BadMount)
            (λ t. IsStatOf t path.now result) }
        ensures kept { self.new ≡ seeing self.old self.new.known }
    {
        match self.look(mount) {
            Err(refusal) => Err(refusal),
            Ok(look) => {
                let result = stat_in(look.state(), look.tree(), path);
                self.come_back(look);
                result
            }
        }
    }

    /// The names in the directory at a path of the mount's tree. It never waits. Refused as `read_into` is,
    /// and as `nl_tree::list` is, want of memory among it.
    pub fn list(
        &mut self,
        alloc: Global,
        mount: &Mount<J>,
        path: &[u8],
    ) -> Result<Items<Named>, VolError>
        ensures later { IsLater self.old.known self.new.known }
        ensures looked { Looked mount.now self.old.known self.new.known
            (IsUngiven E.gives self.old.known self.old.seated)
            (result ≡ Err VolError.BadMount)
            (λ t. IsListOf t path.now result) }
        ensures told { Told mount.now (result ≡ Err VolError.BadMount)
            (λ t. IsListOf t path.now result) }
        ensures kept { self.new ≡ seeing self.old self.new.known }
    {
        match self.look(mount) {
            Err(refusal) => Err(refusal),
            Ok(look) => {
                let result = list_in(alloc, look.state(), look.tree(), path);
                self.come_back(look);
                result
            }
        }
    }
}
