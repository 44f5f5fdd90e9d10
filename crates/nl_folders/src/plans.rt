//! The file calls that make one tree another, handed out path by path.
ghost use Rattle.std.specs.Prelude.{◌≡◌, ℕ, ◌<◌, ◌≤◌, ◌∷◌, [], length, IfNone, IfOk, IfSome, MatchOption, OnErr, is_some, not, ◌&&◌, Some};
ghost use Rattle.std.specs.Option.{option_copied};
ghost use Rattle.nl_types.specs.declared.event.Change.TheVariants.{Mkdir};
ghost use Rattle.nl_folders.specs.Differences.{difference_of};
ghost use Rattle.nl_folders.specs.Plans.{AreWhereTheyDiffer, GoesOn, PlanKeepsWhatMoves, PlanReaches, Reached, begun, left_of};
ghost use Rattle.nl_folders.specs.Private.Rewriting.{PutsObject};
ghost use Rattle.nl_folders.specs.Private.Stages.{HandsOut, IsStage, IsToMakeAt, IsUnwantedAt, NeedsNoCall, removal_of};
ghost use Rattle.nl_folders.specs.Private.Sides.{AreMatched, calls_of};
ghost use Rattle.nl_folders.specs.Spelled.{IsNameable, spelling};

use crate::differences::difference_between;
use crate::looking::find_near;
use crate::moves::sides_of;
use crate::paths::{Path, spelled};
use crate::rewriting::{file_made, rewriting};
use crate::sides::{Sides, calls_of};
use crate::trees::is_same_kind;
use nl_names::Name;
use nl_types::{Change, Items, Object};
use std::alloc::{AllocError, Global};
use std::marker::Model;

/// What a plan goes through: first what has moved is renamed; then the entries that are there are judged,
/// from the last one back, so that a directory comes behind what is in it; then those that are wanted are made,
/// from the first one on, so that it comes before that.
#[derive(Clone, Copy)]
enum Stage {
    Moving,
    /// So many entries that are there are yet to be judged.
    Clearing(usize),
    /// So many entries that are wanted are made.
    Making(usize),
}

/// An entry of one tree, and where a look into the other one for its path ended.
#[derive(Clone, Copy)]
struct Place {
    index: usize,
    near: usize,
}

/// The calls at one path, and how far the plan has come with them.
#[derive(Drop)]
struct Handed {
    calls: Items<Change>,
    stage: Stage,
    near: usize,
}

// ---- moving

/// The steps for what has moved. None where nothing has.
fn next_steps(alloc: Global, sides: &Sides<'_>) -> Result<Option<Handed>, AllocError>
    ensures { IfOk result (λ handed. MatchOption handed
        (NeedsNoCall sides.now Stage.Moving (Stage.Clearing (length sides.now.present)))
        (HandsOut sides.now Stage.Moving)) }
{
    let left = sides.present().len();
    let near = sides.wanted().len();
    let calls = calls_of(alloc, sides)?;
    if calls.is_empty() {
        return Ok(None);
    }
    Ok(Some(Handed {
        calls,
        stage: Stage::Clearing(left),
        near,
    }))
}

// ---- clearing

/// Whether an object has to go: it hasn't moved, and none of its kind is wanted at its path.
fn has_to_go(has_moved: bool, object: &Object, wanted: Option<&Object>) -> bool
    ensures { result
        ≡ (not has_moved && not (is_some (left_of (Some object.now) (option_copied wanted.entry)))) }
{
    match wanted {
        None => !has_moved,
        Some(wanted) => !has_moved && !is_same_kind(object, wanted),
    }
}

/// The last entry before a place whose object has to go.
fn unwanted_before(sides: &Sides<'_>, left: usize, near: usize) -> Option<Place>
    requires { left ≤ length sides.now.present }
    ensures found { IfSome result (IsUnwantedAt sides.now left) }
    ensures none { IfNone result (NeedsNoCall sides.now (Stage.Clearing left) (Stage.Making 0)) }
{
    let present = sides.present();
    let wanted = sides.wanted();
    let gone = sides.gone();
    let mut left = left;
    let mut near = near;
    while left > 0 {
        let index = left - 1;
        let entry = &present[index];
        let found = find_near(wanted, near, entry.0.as_slice());
        near = found.place;
        if has_to_go(gone[index], &entry.1, found.object) {
            return Some(Place { index, near });
        }
        left = index;
    }
    None
}

fn removal(alloc: Global, path: &[Name], object: &Object) -> Result<Change, AllocError>
    ensures { IfOk result (λ call. call ≡ removal_of path.now object.now) }
{
    let path = spelled(alloc, path)?;
    match object {
        Object::Dir => Ok(Change::Rmdir { path }),
        Object::File(_) => Ok(Change::Unlink { path }),
    }
}

/// The next removal. None where all entries are judged.
fn next_removal(
    alloc: Global,
    sides: &Sides<'_>,
    left: usize,
    near: usize,
) -> Result<Option<Handed>, AllocError>
    requires { left ≤ length sides.now.present }
    ensures { IfOk result (λ handed. MatchOption handed
        (NeedsNoCall sides.now (Stage.Clearing left) (Stage.Making 0))
        (HandsOut sides.now (Stage.Clearing left))) }
{
    let Some(place) = unwanted_before(sides, left, near) else {
        return Ok(None);
    };
    let entry = &sides.present()[place.index];
    let mut calls = Items::new(alloc);
    calls.push(removal(alloc, entry.0.as_slice(), &entry.1)?)?;
    Ok(Some(Handed {
        calls,
        stage: Stage::Clearing(place.index),
        near: place.near,
    }))
}

// ---- making

/// Whether an object is yet to be made: it hasn't come by a step, and something else stands at its path.
fn is_lacking(has_come: bool, present: Option<&Object>, wanted: &Object) -> bool
    ensures { result
        ≡ (not has_come && is_some (difference_of (option_copied present.entry) (Some wanted.now))) }
{
    !has_come && difference_between(present, Some(wanted)).is_some()
}

/// The first entry from a place on that is yet to be made.
fn to_make_from(sides: &Sides<'_>, done: usize, near: usize) -> Option<Place>
    requires { done ≤ length sides.now.wanted }
    ensures found { IfSome result (IsToMakeAt sides.now done) }
    ensures none { IfNone result
        (NeedsNoCall sides.now (Stage.Making done) (Stage.Making (length sides.now.wanted))) }
{
    let present = sides.present();
    let wanted = sides.wanted();
    let come = sides.come();
    let mut near = near;
    for index in done..wanted.len() {
        let entry = &wanted[index];
        let found = find_near(present, near, entry.0.as_slice());
        near = found.place;
        if is_lacking(come[index], found.object, &entry.1) {
            return Some(Place { index, near });
        }
    }
    None
}

fn directory_made(alloc: Global, path: &[Name]) -> Result<Items<Change>, AllocError>
    ensures { IfOk result (λ calls. calls ≡ Mkdir (spelling path.now) ∷ []) }
{
    let path = spelled(alloc, path)?;
    let mut calls = Items::new(alloc);
    calls.push(Change::Mkdir { path })?;
    Ok(calls)
}

/// The calls that put what is wanted at a path, once what isn't of its kind is removed there.
fn additions(
    alloc: Global,
    path: &[Name],
    present: Option<&Object>,
    wanted: &Object,
) -> Result<Items<Change>, AllocError>
    ensures { IfOk result (PutsObject path.now (option_copied present.entry) wanted.now) }
{
    match (present, wanted) {
        (None, Object::Dir) => directory_made(alloc, path),
        (None, Object::File(new)) => file_made(alloc, path, new.as_slice()),
        (Some(Object::Dir), Object::Dir) => Ok(Items::new(alloc)),
        (Some(Object::Dir), Object::File(new)) => file_made(alloc, path, new.as_slice()),
        (Some(Object::File(_)), Object::Dir) => directory_made(alloc, path),
        (Some(Object::File(old)), Object::File(new)) => {
            rewriting(alloc, path, old.as_slice(), new.as_slice())
        }
    }
}

/// The calls for the next entry that is yet to be made. None where all are made.
fn next_addition(
    alloc: Global,
    sides: &Sides<'_>,
    done: usize,
    near: usize,
) -> Result<Option<Handed>, AllocError>
    requires { done ≤ length sides.now.wanted }
    ensures { IfOk result (λ handed. MatchOption handed
        (NeedsNoCall sides.now (Stage.Making done) (Stage.Making (length sides.now.wanted)))
        (HandsOut sides.now (Stage.Making done))) }
{
    let Some(place) = to_make_from(sides, done, near) else {
        return Ok(None);
    };
    let entry = &sides.wanted()[place.index];
    let found = find_near(sides.present(), place.near, entry.0.as_slice());
    let calls = additions(alloc, entry.0.as_slice(), found.object, &entry.1)?;
    Ok(Some(Handed {
        calls,
        stage: Stage::Making(place.index + 1),
        near: found.place,
    }))
}

/// What is handed out once nothing moves any more. None where nothing is left to do.
fn next_at_rest(
    alloc: Global,
    sides: &Sides<'_>,
    left: usize,
    near: usize,
) -> Result<Option<Handed>, AllocError>
    requires { left ≤ length sides.now.present }
    ensures { IfOk result (λ handed. MatchOption handed
        (NeedsNoCall sides.now (Stage.Clearing left) (Stage.Making (length sides.now.wanted)))
        (HandsOut sides.now (Stage.Clearing left))) }
{
    match next_removal(alloc, sides, left, near)? {
        Some(handed) => Ok(Some(handed)),
        None => next_addition(alloc, sides, 0, 0),
    }
}

/// What is handed out next from a stage on. None where nothing is left to do.
fn next_from(
    alloc: Global,
    sides: &Sides<'_>,
    stage: Stage,
    near: usize,
) -> Result<Option<Handed>, AllocError>
    requires { IsStage sides.now stage }
    ensures gives { IfOk result (λ handed. MatchOption handed
        (NeedsNoCall sides.now stage (Stage.Making (length sides.now.wanted)))
        (HandsOut sides.now stage)) }
    ensures matched { AreMatched sides.now }
{
    let left = sides.present().len();
    match stage {
        Stage::Moving => match next_steps(alloc, sides)? {
            Some(handed) => Ok(Some(handed)),
            None => next_at_rest(alloc, sides, left, sides.wanted().len()),
        },
        Stage::Clearing(yet) => next_at_rest(alloc, sides, yet, near),
        Stage::Making(done) => next_addition(alloc, sides, done, near),
    }
}

// ---- the plan

/// The file calls that make one tree another, handed out path by path, so that no more than one file's bytes
/// are in memory twice. Where nothing differs there is no call.
///
/// First what has moved is renamed: files and whole folders that are gone at one path and stand alike at
/// another, each byte the same. Then what isn't wanted is removed, the deepest first. Then what is wanted is
/// made, a directory before what is in it; of a file only blocks that differ are written.
///
/// What has moved keeps its blocks: a rename writes no byte, and each call that writes, cuts or removes is on a
/// path at which the tree with the renames done differs from the wanted one (`kept` of `LeadOn`), so on none
/// that was renamed to, or that lies below one.
///
/// What has moved is found by its size and its bytes, at the cost of sorting what one tree alone has. A part
/// that was changed too is not found, but parts of it are; nor is one whose old or new path is in both trees.
#[derive(Drop)]
pub struct Plan<'a> {
    sides: Sides<'a>,
    stage: Stage,
    near: usize,
}

impl<'a> Model for Plan<'a> {
    ghost use Rattle.nl_folders.specs.Plans.{Planning};
    ghost use Rattle.nl_folders.specs.Private.Stages.{IsStage, progress_of, steps_from};

    ghost Value = { Planning };

    ghost view = { λ p. record { progress = progress_of p.sides p.stage; left = steps_from p.sides p.stage } };

    ghost invariant = { λ p. IsStage p.sides p.stage };
}

impl<'a> Plan<'a> {
    /// A plan to make the tree that is there the wanted one.
    pub fn new(
        alloc: Global,
        present: &'a [(Path, Object)],
        wanted: &'a [(Path, Object)],
    ) -> Result<Plan<'a>, AllocError>
        ensures begins { IfOk result (λ plan. plan.progress ≡ begun present.now wanted.now) }
        ensures reached { IfOk result (λ plan. IsNameable present.now → IsNameable wanted.now
            → Reached plan.progress present.now) }
    {
        let sides = sides_of(alloc, present, wanted)?;
        Ok(Plan {
            sides,
            stage: Stage::Moving,
            near: 0,
        })
    }

    /// The next calls: those that move, or those at the next path. They are to be done before the next ones
    /// are asked for. None where nothing is left to do. Refused for want of memory alone, and then the plan is
    /// as it was.
    pub fn next(&mut self, alloc: Global) -> Result<Option<Items<Change>>, AllocError>
        ensures goes_on { IfOk result (GoesOn self.old.progress self.new.progress) }
        ensures present { self.new.progress.present ≡ self.old.progress.present }
        ensures wanted { self.new.progress.wanted ≡ self.old.progress.wanted }
        ensures shorter { IfOk result (λ given. IfSome given (λ _. self.new.left < self.old.left)) }
        ensures none { IfOk result (λ given. IfNone given (self.new ≡ self.old)) }
        ensures err { OnErr result (self.new ≡ self.old) }
    {
        let Some(handed) = next_from(alloc, &self.sides, self.stage, self.near)? else {
            return Ok(None);
        };
        self.stage = handed.stage;
        self.near = handed.near;
        Ok(Some(handed.calls))
    }
}

/// All calls of a plan at once. They have all bytes that are to be written once more.
pub fn planned_calls(
    alloc: Global,
    present: &[(Path, Object)],
    wanted: &[(Path, Object)],
) -> Result<Items<Change>, AllocError>
    ensures reaches { IfOk result (PlanReaches present.now wanted.now) }
    ensures differ { IfOk result (λ calls. IsNameable present.now → IsNameable wanted.now
        → AreWhereTheyDiffer present.now wanted.now calls) }
    ensures keeps { IfOk result (λ calls. IsNameable present.now → IsNameable wanted.now
        → PlanKeepsWhatMoves wanted.now calls) }
{
    let mut plan = Plan::new(alloc, present, wanted)?;
    let mut all = Items::new(alloc);
    while let Some(calls) = plan.next(alloc)? {
        all.append(calls.into_vec())?;
    }
    Ok(all)
}
