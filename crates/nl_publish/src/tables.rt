//! What readers see, in memory.
ghost use Rattle.std.specs.Prelude.{◌≡◌, ◌≤◌, [], ◌∷◌, ◌++◌, None, replicate, slice_set, IfOk, IsOkUnless, IsErrOf, MatchResult};
ghost use Rattle.std.specs.Option.{option_copied};
ghost use Rattle.nl_cpfile.specs.Tables.{ComesNext, kept_at, with_mode, with_next};
ghost use Rattle.nl_commit.specs.Shown.{MountsRise, mounted_on, shown_at};
ghost use Rattle.nl_commit.specs.Commits.{IsHistory, IsNext, applied, shown_after, numbers_written, with_births, with_ends, with_room, without_numbers};

use nl_commit::{Commit, Mounted, Mounts, NewPage, ShownPage, Written};
use nl_cpfile::{Checkpoint, Checkpoints};
use nl_types::{CheckpointNumber, Mode, MountNumber, Page, Period, VirtualNumber, empty_places};
use nl_vstore::VRead;
use std::alloc::{AllocError, Global};
use std::marker::Model;

/// What readers see: the page and the period of each number in use, the kept checkpoints, and the mounts.
/// Reads take no memory.
#[derive(Drop)]
pub struct ReaderTables {
    alloc: Global,
    /// By virtual block number; 0 is never used.
    numbers: Vec<Option<ShownPage>>,
    checkpoints: Checkpoints,
    mounts: Mounts,
}

impl Model for ReaderTables {
    ghost use Rattle.nl_commit.specs.Shown.{Shown};

    ghost Value = { Shown };

    ghost view = { λ t. record {
      numbers = t.numbers.items;
      table = t.checkpoints.table;
      mounts = t.mounts.mounts;
      given = t.mounts.given;
    } };
}

/// Why a commit is not applied.
#[derive(Clone, Copy)]
pub enum ApplyError {
    /// No history goes on by such a commit.
    NotNext,
    Memory,
}

impl From<AllocError> for ApplyError {
    ghost use Rattle.std.specs.Prelude.{◌≡◌};
    ghost use Rattle.nl_publish.specs.declared.tables.ApplyError.TheVariants.{Memory};

    ghost from_gives = { λ _ e. e ≡ Memory };

    fn from(_: AllocError) -> ApplyError {
        ApplyError::Memory
    }
}

// ---- numbers

/// Puts this at a number, where there is a place for it.
fn set_number(numbers: &mut [Option<ShownPage>], number: VirtualNumber, shown: Option<ShownPage>)
    ensures { numbers.new ≡ slice_set numbers.old number shown }
{
    let at = number.get() as usize;
    if at < numbers.len() {
        numbers[at] = shown;
    }
}

/// A number ends at the checkpoint, where it is in use.
fn end_number(
    numbers: &mut [Option<ShownPage>],
    number: VirtualNumber,
    checkpoint: CheckpointNumber,
)
    ensures { numbers.new ≡ with_ends checkpoint (number ∷ []) numbers.old }
{
    let at = number.get() as usize;
    if at < numbers.len() {
        if let Some(shown) = &mut numbers[at] {
            shown.period.end = Some(checkpoint);
        }
    }
}

fn end_numbers(
    numbers: &mut [Option<ShownPage>],
    ends: &[VirtualNumber],
    checkpoint: CheckpointNumber,
)
    ensures { numbers.new ≡ with_ends checkpoint ends.now numbers.old }
{
    for number in ends {
        end_number(numbers, *number, checkpoint);
    }
}

fn free_numbers(numbers: &mut [Option<ShownPage>], gone: &[VirtualNumber])
    ensures { numbers.new ≡ without_numbers gone.now numbers.old }
{
    for number in gone {
        set_number(numbers, *number, None);
    }
}

/// So many numbers out of use.
fn unused(alloc: Global, count: usize) -> Result<Vec<Option<ShownPage>>, AllocError>
    ensures { IfOk result (λ unused. unused.items ≡ replicate count None) }
{
    Ok(empty_places(alloc, count)?.into_vec())
}

/// The same births, whose pages have another owner.
fn shared_births(alloc: Global, births: &[NewPage]) -> Result<Vec<NewPage>, AllocError>
    ensures { IfOk result (λ shared. shared.items ≡ births.now) }
{
    let mut shared = Vec::with_capacity(alloc, births.len())?;
    for birth in births {
        shared.push(NewPage {
            number: birth.number,
            page: birth.page.share()?,
        })?;
    }
    Ok(shared)
}

/// Births begin at the checkpoint.
fn enter_births(
    numbers: &mut [Option<ShownPage>],
    births: Vec<NewPage>,
    checkpoint: CheckpointNumber,
)
    ensures { numbers.new ≡ with_births checkpoint births.items numbers.old }
{
    for birth in births {
        let shown = ShownPage {
            page: birth.page,
            period: Period {
                start: checkpoint,
                end: None,
            },
        };
        set_number(numbers, birth.number, Some(shown));
    }
}

/// A checkpoint's ends, and then its births.
fn write(
    numbers: &mut [Option<ShownPage>],
    ends: &[VirtualNumber],
    births: Vec<NewPage>,
    checkpoint: CheckpointNumber,
)
    ensures { numbers.new ≡ with_births checkpoint births.items (with_ends checkpoint ends.now numbers.old) }
{
    end_numbers(numbers, ends, checkpoint);
    enter_births(numbers, births, checkpoint);
}

fn shared_page(page: &Option<ShownPage>) -> Result<Option<ShownPage>, AllocError>
    ensures { IfOk result (λ shared. shared ≡ page.now) }
{
    match page {
        Some(shown) => Ok(Some(ShownPage {
            page: shown.page.share()?,
            period: shown.period,
        })),
        None => Ok(None),
    }
}

/// The same numbers, whose pages have another owner.
fn shared_pages(
    alloc: Global,
    numbers: &[Option<ShownPage>],
) -> Result<Vec<Option<ShownPage>>, AllocError>
    ensures { IfOk result (λ shared. shared.items ≡ numbers.now) }
{
    let mut shared = Vec::with_capacity(alloc, numbers.len())?;
    for page in numbers {
        shared.push(shared_page(page)?)?;
    }
    Ok(shared)
}

// ---- checkpoints

/// Keeps one more checkpoint, which is now the latest one. Refused by `Memory`, and by `NotNext` where it
/// can't be behind the others.
fn keep(checkpoints: &mut Checkpoints, checkpoint: &Checkpoint) -> Result<(), ApplyError>
    ensures changed { MatchResult result
        (λ _. checkpoints.new.table ≡ with_next checkpoint.now checkpoints.old.table)
        (λ _. checkpoints.new.table ≡ checkpoints.old.table) }
    ensures not_next { IsErrOf result ApplyError.NotNext →
        ComesNext checkpoint.now checkpoints.old.table → ⊥ }
{
    let latest = checkpoints.latest();
    let follows = latest.number < checkpoint.number
        && latest.stamp <= checkpoint.stamp
        && checkpoint.number.get() < u64::MAX;
    if !follows {
        return Err(ApplyError::NotNext);
    }
    checkpoints.reserve()?;
    checkpoints.add(*checkpoint);
    Ok(())
}

/// Keeps a checkpoint in this mode. It changes nothing where no checkpoint of the number is kept.
fn set_mode(checkpoints: &mut Checkpoints, number: CheckpointNumber, mode: Mode)
    ensures { checkpoints.new.table ≡ with_mode number mode checkpoints.old.table }
{
    let _ = checkpoints.set_mode(number, mode);
}

impl ReaderTables {
    /// What the first commit of a history shows. Refused for memory alone.
    pub fn first(alloc: Global, commit: &Commit) -> Result<ReaderTables, AllocError>
        requires history { IsHistory (commit.now ∷ []) }
        requires mounts { MountsRise (shown_after (commit.now ∷ [])) }
        ensures { IfOk result (λ tables. tables ≡ shown_after (commit.now ∷ [])) }
    {
        let Commit::Whole(whole) = commit else {
            unreachable!();
        };
        let numbers = shared_pages(alloc, whole.numbers.as_slice())?;
        let earlier = whole.earlier.as_slice().to_vec(alloc)?;
        let mounts = Mounts::copied(alloc, whole.mounts.as_slice(), whole.given)?;
        Ok(ReaderTables {
            alloc,
            numbers,
            checkpoints: Checkpoints::from_table(earlier, whole.latest),
            mounts,
        })
    }

    /// Refused by `Memory`, and by `NotNext` where the checkpoint can't be behind the others.
    fn add_checkpoint(&mut self, new: &Written) -> Result<(), ApplyError>
        ensures changed { MatchResult result (λ _. self.new ≡ record self.old {
          numbers = numbers_written new.now self.old.numbers;
          table = with_next new.now.checkpoint self.old.table;
        }) (λ _. self.new ≡ self.old) }
        ensures not_next { IsErrOf result ApplyError.NotNext →
            ComesNext new.now.checkpoint self.old.table → ⊥ }
    {
        let births = shared_births(self.alloc, new.births.as_slice())?;
        keep(&mut self.checkpoints, &new.checkpoint)?;
        write(
            self.numbers.as_mut_slice(),
            new.ends.as_slice(),
            births,
            new.checkpoint.number,
        );
        Ok(())
    }

    /// Refused by `Memory`, and by `NotNext` where the number is not above all that were given.
    fn add_mount(&mut self, mount: &Mounted) -> Result<(), ApplyError>
        ensures changed { MatchResult result (λ _. self.new ≡ record self.old {
          mounts = self.old.mounts ++ mount.now ∷ [];
          given = mount.now.number;
        }) (λ _. self.new ≡ self.old) }
        ensures not_next { IsErrOf result ApplyError.NotNext → mount.now.number ≤ self.old.given }
    {
        if mount.number.get() <= self.mounts.given() {
            return Err(ApplyError::NotNext);
        }
        self.mounts.add(*mount)?;
        Ok(())
    }

    /// Makes room for a number for each block of so many segments. Refused by `Memory` alone.
    fn make_room(&mut self, segments: u32, blocks: u32) -> Result<(), ApplyError>
        ensures changed { MatchResult result
            (λ _. self.new ≡ record self.old { numbers = with_room segments blocks self.old.numbers })
            (λ _. self.new ≡ self.old) }
        ensures refused { IsOkUnless result ApplyError.Memory }
    {
        let count = segments as usize * blocks as usize + 1;
        let mut more = unused(self.alloc, count.saturating_sub(self.numbers.len()))?;
        self.numbers.append(&mut more)?;
        Ok(())
    }

    /// One commit. Its growth comes first, so a refusal leaves all as it was. Refused by `Memory`, and by
    /// `NotNext` where no history goes on by such a commit.
    pub fn apply(&mut self, commit: &Commit) -> Result<(), ApplyError>
        ensures changed { MatchResult result
            (λ _. self.new ≡ applied self.old commit.now)
            (λ _. self.new ≡ self.old) }
        ensures not_next { IsErrOf result ApplyError.NotNext → IsNext self.old commit.now → ⊥ }
    {
        match commit {
            Commit::Whole(_) => Err(ApplyError::NotNext),
            Commit::Written(new) => self.add_checkpoint(new),
            Commit::ModeSet(number, mode) => {
                set_mode(&mut self.checkpoints, *number, *mode);
                Ok(())
            }
            Commit::Removed(number) => {
                self.checkpoints.take_out(*number);
                Ok(())
            }
            Commit::RangeRemoved { first, last } => {
                self.checkpoints.take_out_range(*first, *last);
                Ok(())
            }
            Commit::Mounted(mount) => self.add_mount(mount),
            Commit::GivenBack(number) => {
                self.mounts.take_out(*number);
                Ok(())
            }
            Commit::Freed(gone) => {
                free_numbers(self.numbers.as_mut_slice(), gone.as_slice());
                Ok(())
            }
            Commit::Resized { segments, blocks } => self.make_room(*segments, *blocks),
        }
    }

    /// Mounts ascend by their numbers. This says so to its callers, and does nothing.
    pub fn mounts_rise(&self)
        ensures { MountsRise self.now }
    {
        self.mounts.as_slice();
    }

    /// What a number in use has.
    fn shown(&self, number: VirtualNumber) -> Option<&ShownPage>
        ensures { option_copied result ≡ shown_at self.now.numbers number }
    {
        match self.numbers.get(number.get() as usize) {
            Some(Some(shown)) => Some(shown),
            _ => None,
        }
    }

    /// The kept checkpoint of a number.
    pub fn kept(&self, number: CheckpointNumber) -> Option<&Checkpoint>
        ensures { option_copied result ≡ kept_at number self.now.table }
    {
        self.checkpoints.kept(number)
    }

    /// The kept checkpoints.
    pub fn checkpoints(&self) -> &Checkpoints
        ensures { result.now.table ≡ self.now.table }
    {
        &self.checkpoints
    }

    /// The checkpoint that a mount shows.
    pub fn mounted(&self, number: MountNumber) -> Option<CheckpointNumber>
        ensures { result ≡ mounted_on self.now number }
    {
        self.mounts.find(number)
    }
}

impl VRead for ReaderTables {
    ghost use Rattle.nl_commit.specs.Shown.{pages_shown, periods_shown};

    ghost pages = { pages_shown };

    ghost periods = { periods_shown };

    fn page(&self, number: VirtualNumber) -> Option<&Page> {
        let shown = self.shown(number)?;
        Some(&shown.page)
    }

    fn period(&self, number: VirtualNumber) -> Option<Period> {
        let shown = self.shown(number)?;
        Some(shown.period)
    }
}
