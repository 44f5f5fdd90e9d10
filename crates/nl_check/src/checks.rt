//! The first of the conditions of checkpoints that fails.
ghost use Rattle.std.specs.Prelude.{◌≡◌, ◌↔◌, ◌<◌, ◌≤◌, ◌*◌, ℕ, length, map, is_some, IsTrue, IsSome, IfOk, IfErr, IfSome, IsOkUnless, None, Ok};
ghost use Rattle.nl_types.specs.declared.error.VolError;
ghost use Rattle.nl_check.specs.Conditions.{FirstFault, IsSoundShape};
ghost use Rattle.nl_check.specs.Verdicts.{IsVerdict};
ghost use Rattle.nl_check.specs.Judging.{HasRoom, IsAlike, IsJudgedLast, IsLast, KnowsLast, fault_told, told};
ghost use Rattle.nl_check.specs.Private.Turns.{AreTurns, WereOfPeriods};
ghost use Rattle.nl_check.specs.Private.Walks.{IsGood};

use crate::beside::{Beside, Changes, judge_beside};
use crate::conditions::ImageCondition;
use crate::found::Found;
use crate::holding::hold_trees;
use crate::image::Image;
use crate::periods::{are_still_of_periods, are_still_of_periods_since};
use crate::shape::walk_checkpoint;
use crate::turns::all_turns;
use nl_layout::CheckpointEntry;
use nl_types::{CheckpointNumber, Geometry, VirtualNumber, VolError};
use nl_vstore::VRead;
use std::alloc::Global;

/// What is known of the checkpoints judged so far.
#[derive(Clone, Copy)]
pub(crate) struct Judged {
    /// Whether the inodes of each hold a tree.
    pub(crate) trees: bool,
    /// Whether each meets just the numbers whose periods have it.
    pub(crate) periods: bool,
    /// The last of them.
    pub(crate) last: Option<Last>,
}

/// The checkpoint that was judged last. Its numbers are those that are met. Where all so far hold trees, the
/// kinds are those of its inodes.
#[derive(Clone, Copy)]
pub(crate) struct Last {
    pub(crate) entry: CheckpointEntry,
}

/// Judges one checkpoint, whatever those before it are. None where it has not its shape. Refused by `Memory`
/// alone.
fn judge<V: VRead>(
    image: &Image<'_, V>,
    found: &mut Found,
    before: &Judged,
    entry: &CheckpointEntry,
) -> Result<Option<Judged>, VolError>
    requires room { HasRoom (V.pages image.now.store.now) (V.periods image.now.store.now) found.old.met }
    ensures yes { IfOk result (λ judged. IfSome judged
        (IsJudgedLast (V.pages image.now.store.now) (V.periods image.now.store.now) entry.now before.now
        found.new.met found.new.kinds)) }
    ensures no { result ≡ Ok None → IsSoundShape (V.pages image.now.store.now) (told entry.now) → ⊥ }
    ensures refused { IfErr result (λ e. e ≡ VolError.Memory) }
    ensures count { length found.new.met ≡ length found.old.met }
{
    let Some(root) = entry.root.root() else {
        return Ok(None);
    };
    let (alloc, store) = (image.alloc, image.store);
    found.clear();
    let Some(walk) = walk_checkpoint(alloc, store, found, &root)? else {
        return Ok(None);
    };
    let periods = are_still_of_periods(store, &found.met, entry.number, before.periods);
    let trees = hold_trees(
        alloc,
        store,
        &found.kinds,
        &root,
        &walk,
        entry,
        before.trees,
    )?;
    let last = Some(Last { entry: *entry });
    Ok(Some(Judged {
        trees,
        periods,
        last,
    }))
}

/// Whether two checkpoints have one file of inodes, and are told to be of one size and count.
fn is_alike(one: &CheckpointEntry, other: &CheckpointEntry) -> bool
    ensures { IsTrue result ↔ IsAlike one.now other.now }
{
    one.root == other.root && one.size == other.size && one.inodes == other.inodes
}

/// The checkpoint judged last, where the next one has its file of inodes.
fn alike_last(last: Option<Last>, entry: &CheckpointEntry) -> Option<Last>
    ensures { IfSome result (λ found. (last ≡ Some found) × IsAlike found.entry entry.now) }
{
    let last = last?;
    if is_alike(&last.entry, entry) {
        Some(last)
    } else {
        None
    }
}

/// Judges the periods of a checkpoint by those of the last one. The checkpoint is known to be good: what was
/// found is its own, and it holds a tree if all before it do. The numbers that changed since the last one are
/// given, and others may be among them.
fn judge_by_last<V: VRead>(
    image: &Image<'_, V>,
    found: &Found,
    changed: &[VirtualNumber],
    before: &Judged,
    last: CheckpointNumber,
    entry: &CheckpointEntry,
) -> Judged
    requires within { (v : ℕ) → IsSome (V.periods image.now.store.now v) → v < length found.now.met }
    requires turns { AreTurns (V.periods image.now.store.now) image.now.turns.now }
    requires good { IsGood (V.pages image.now.store.now) (told entry.now) found.now.met found.now.kinds
        before.now.trees }
    requires last { IsTrue before.now.periods
        → WereOfPeriods (V.periods image.now.store.now) last found.now.met changed.now }
    ensures { IsJudgedLast (V.pages image.now.store.now) (V.periods image.now.store.now)
        entry.now before.now found.now.met found.now.kinds result }
{
    let (store, met, turns) = (image.store, &found.met, image.turns);
    let (next, were) = (entry.number, before.periods);
    let periods = are_still_of_periods_since(store, met, turns, changed, last, next, were);
    let last = Some(Last { entry: *entry });
    Judged {
        trees: before.trees,
        periods,
        last,
    }
}

/// Judges a checkpoint that has the file of inodes of the last one. It meets the same numbers, and holds a
/// tree where that one does.
fn judge_alike<V: VRead>(
    image: &Image<'_, V>,
    found: &Found,
    before: &Judged,
    last: Last,
    entry: &CheckpointEntry,
) -> Judged
    requires within { (v : ℕ) → IsSome (V.periods image.now.store.now v) → v < length found.now.met }
    requires turns { AreTurns (V.periods image.now.store.now) image.now.turns.now }
    requires last { IsLast (V.pages image.now.store.now) (V.periods image.now.store.now)
        found.now.met found.now.kinds before.now last }
    requires alike { IsAlike last.entry entry.now }
    ensures { IsJudgedLast (V.pages image.now.store.now) (V.periods image.now.store.now)
        entry.now before.now found.now.met found.now.kinds result }
{
    judge_by_last(image, found, &[], before, last.entry.number, entry)
}

/// Judges a checkpoint by the last one, and by what differs from it. None where that can't be told; then what
/// was found is any. Refused by `Memory` alone.
fn judge_differing<V: VRead>(
    image: &Image<'_, V>,
    found: &mut Found,
    changes: &mut Changes,
    before: &Judged,
    entry: &CheckpointEntry,
) -> Result<Option<Judged>, VolError>
    requires room { HasRoom (V.pages image.now.store.now) (V.periods image.now.store.now) found.old.met }
    requires turns { AreTurns (V.periods image.now.store.now) image.now.turns.now }
    requires last { KnowsLast (V.pages image.now.store.now) (V.periods image.now.store.now)
        found.old.met found.old.kinds before.now }
    ensures yes { IfOk result (λ judged. IfSome judged
        (IsJudgedLast (V.pages image.now.store.now) (V.periods image.now.store.now) entry.now before.now
        found.new.met found.new.kinds)) }
    ensures refused { IfErr result (λ e. e ≡ VolError.Memory) }
    ensures count { length found.new.met ≡ length found.old.met }
{
    let Some(last) = &before.last else {
        return Ok(None);
    };
    match judge_beside(image, found, changes, before.trees, &last.entry, entry)? {
        Beside::KnownGood => {
            let changed = changes.numbers.as_slice();
            let last = last.entry.number;
            Ok(Some(judge_by_last(image, found, changed, before, last, entry)))
        }
        Beside::CanNotTell => Ok(None),
    }
}

/// Judges the next checkpoint, as `judge` does, by what is known of the last one where that tells of it.
fn judge_next<V: VRead>(
    image: &Image<'_, V>,
    found: &mut Found,
    changes: &mut Changes,
    before: &Judged,
    entry: &CheckpointEntry,
) -> Result<Option<Judged>, VolError>
    requires room { HasRoom (V.pages image.now.store.now) (V.periods image.now.store.now) found.old.met }
    requires turns { AreTurns (V.periods image.now.store.now) image.now.turns.now }
    requires last { KnowsLast (V.pages image.now.store.now) (V.periods image.now.store.now)
        found.old.met found.old.kinds before.now }
    ensures yes { IfOk result (λ judged. IfSome judged
        (IsJudgedLast (V.pages image.now.store.now) (V.periods image.now.store.now) entry.now before.now
        found.new.met found.new.kinds)) }
    ensures no { result ≡ Ok None → IsSoundShape (V.pages image.now.store.now) (told entry.now) → ⊥ }
    ensures refused { IfErr result (λ e. e ≡ VolError.Memory) }
    ensures count { length found.new.met ≡ length found.old.met }
{
    if let Some(last) = alike_last(before.last, entry) {
        return Ok(Some(judge_alike(image, found, before, last, entry)));
    }
    match judge_differing(image, found, changes, before, entry)? {
        Some(judged) => Ok(Some(judged)),
        None => judge(image, found, before, entry),
    }
}

/// Which conditions checkpoints meet that all have their shape.
#[derive(Clone, Copy)]
pub struct Verdict {
    /// Whether the inodes of each hold the tree that its entry tells (9).
    pub trees: bool,
    /// Whether each meets just the numbers whose periods have it (10).
    pub periods: bool,
}

/// The first condition that fails, where nothing is told of checkpoints of which one has not its shape.
fn fault_of(verdict: Option<Verdict>) -> Option<ImageCondition>
    ensures { result ≡ fault_told verdict }
{
    match verdict {
        None => Some(ImageCondition::Shapes),
        Some(verdict) => {
            if !verdict.trees {
                Some(ImageCondition::Trees)
            } else if !verdict.periods {
                Some(ImageCondition::Periods)
            } else {
                None
            }
        }
    }
}

/// Judges checkpoints one after another, as `judge_checkpoints` does. Nothing is found yet.
fn judge_all<V: VRead>(
    image: &Image<'_, V>,
    found: &mut Found,
    kept: &[CheckpointEntry],
) -> Result<Option<Verdict>, VolError>
    requires room { HasRoom (V.pages image.now.store.now) (V.periods image.now.store.now) found.old.met }
    requires turns { AreTurns (V.periods image.now.store.now) image.now.turns.now }
    ensures verdict { IfOk result
        (IsVerdict (V.pages image.now.store.now) (V.periods image.now.store.now) (map told kept.now)) }
    ensures refused { IfErr result (λ e. e ≡ VolError.Memory) }
{
    let mut changes = Changes::new(image.alloc);
    let mut judged = Judged {
        trees: true,
        periods: true,
        last: None,
    };
    for entry in kept {
        let Some(now) = judge_next(image, found, &mut changes, &judged, entry)? else {
            return Ok(None);
        };
        judged = now;
    }
    Ok(Some(Verdict {
        trees: judged.trees,
        periods: judged.periods,
    }))
}

/// Judges all three conditions of kept checkpoints, each whether or not another one holds: the tree that the
/// inodes of each hold (9), and that it meets just the numbers whose periods have it (10). None where one has not
/// the shape of its files (8). The pages are any. A number in use has both a page and a period, and is at most
/// the count of blocks.
///
/// Refused by `Memory` alone.
pub fn judge_checkpoints<V: VRead>(
    alloc: Global,
    store: &V,
    geometry: Geometry,
    kept: &[CheckpointEntry],
) -> Result<Option<Verdict>, VolError>
    requires within { (v : ℕ) → IsSome (V.pages store.now v)
        → v ≤ geometry.segments * geometry.blocks }
    requires each { (v : ℕ) → is_some (V.pages store.now v) ≡ is_some (V.periods store.now v) }
    ensures verdict { IfOk result
        (IsVerdict (V.pages store.now) (V.periods store.now) (map told kept.now)) }
    ensures refused { IsOkUnless result VolError.Memory }
{
    let mut found = Found::nothing(alloc, u64::from(geometry.total()))?;
    let turns = all_turns(alloc, store, found.met.len())?;
    let image = Image {
        alloc,
        store,
        turns: turns.as_slice(),
    };
    judge_all(&image, &mut found, kept)
}

/// Which of the conditions 8 to 10 of an image is the first that a kept checkpoint doesn't meet: the shape of
/// its files (8), the tree that its inodes hold (9), or that it meets just the numbers whose periods have it
/// (10). None where all meet them. The pages are any. A number in use has both a page and a period, and is at
/// most the count of blocks.
///
/// Refused by `Memory` alone.
#[tactic(auto, using(crate::proofs::JudgedCheckpoints::first_of))]
pub fn first_fault<V: VRead>(
    alloc: Global,
    store: &V,
    geometry: Geometry,
    kept: &[CheckpointEntry],
) -> Result<Option<u8>, VolError>
    requires within { (v : ℕ) → IsSome (V.pages store.now v)
        → v ≤ geometry.segments * geometry.blocks }
    requires each { (v : ℕ) → is_some (V.pages store.now v) ≡ is_some (V.periods store.now v) }
    ensures fault { IfOk result (λ fault. FirstFault (V.pages store.now) (V.periods store.now)
        (map told kept.now) fault) }
    ensures refused { IsOkUnless result VolError.Memory }
{
    match fault_of(judge_checkpoints(alloc, store, geometry, kept)?) {
        Some(condition) => Ok(Some(condition.number())),
        None => Ok(None),
    }
}
