//! What has moved between two trees: parts that are gone at one path and stand alike at another one, which is
//! new. A part that moves keeps its blocks.
ghost use Rattle.std.specs.Prelude.{◌≡◌, ◌+◌, ◌<◌, ◌≤◌, ◌∷◌, ◌++◌, [], IsTrue, length, drop, map, IfOk, IfSome, Some, None};
ghost use Rattle.std.specs.FinMap.{is_sorted};
ghost use Rattle.std.specs.Option.{option_copied};
ghost use Rattle.nl_types.specs.declared.reply.Object.TheVariants.{Dir};
ghost use Rattle.nl_types.specs.Plain.Limits.{path_limit};
ghost use Rattle.nl_types.specs.Plain.Paths.{path_cmp};
ghost use Rattle.nl_types.specs.Plain.Trees.{lookup};
ghost use Rattle.nl_folders.specs.Private.Moved.{IsMoved, cut};
ghost use Rattle.nl_folders.specs.Private.Sides.{HasDirectoryAbove, IsPart, MayMake, MayMove};
ghost use Rattle.nl_folders.specs.Spelled.{IsNameable};

use crate::looking::{find_in, find_near, place_in};
use crate::paths::{Path, begins_with, compare, is_same_path};
use crate::sides::{Relocation, Sides, are_free};
use crate::trees::{MOST_PATHS, is_same_object};
use nl_names::Name;
use nl_types::{Items, Object};
use std::alloc::{AllocError, Global};
use std::cmp::Ordering;

// ---- parts

/// Where the entries end that lie at the path of one of them or below it.
fn part_end(entries: &[(Path, Object)], start: usize) -> usize
    requires { start < length entries.now }
    ensures some { start < result }
    ensures within { result ≤ length entries.now }
    ensures part { IsTrue (is_sorted path_cmp entries.now) → IsPart entries.now start result }
{
    let top = entries[start].0.as_slice();
    for end in start + 1..entries.len() {
        if !begins_with(entries[end].0.as_slice(), top) {
            return end;
        }
    }
    entries.len()
}

/// What is left of a path behind so many names.
fn rest_of(path: &[Name], count: usize) -> &[Name]
    ensures { result.now ≡ drop count path.now }
{
    &path[count.min(path.len())..]
}

/// Whether two entries are one but for the front of their paths.
fn is_same_below(
    one: &(Path, Object),
    one_cut: usize,
    other: &(Path, Object),
    other_cut: usize,
) -> bool
    ensures { IsTrue result → cut one_cut one.now ≡ cut other_cut other.now }
{
    let one_rest = rest_of(one.0.as_slice(), one_cut);
    let other_rest = rest_of(other.0.as_slice(), other_cut);
    is_same_path(one_rest, other_rest) && is_same_object(&one.1, &other.1)
}

/// Whether two lists of entries are one but for the fronts of their paths.
fn are_same_below(
    one: &[(Path, Object)],
    one_cut: usize,
    other: &[(Path, Object)],
    other_cut: usize,
) -> bool
    ensures long { IsTrue result → length one.now ≡ length other.now }
    ensures alike { IsTrue result → map (cut one_cut) one.now ≡ map (cut other_cut) other.now }
{
    if one.len() != other.len() {
        return false;
    }
    for place in 0..one.len() {
        if !is_same_below(&one[place], one_cut, &other[place], other_cut) {
            return false;
        }
    }
    true
}

/// The part that begins at an entry of the one tree and stands alike at an entry of the other, where each is
/// in its tree alone.
fn moved_part(
    present: &[(Path, Object)],
    from: usize,
    wanted: &[(Path, Object)],
    to: usize,
) -> Option<Relocation>
    requires from { from < length present.now }
    requires to { to < length wanted.now }
    ensures { IfSome result (IsMoved present.now wanted.now) }
{
    let old_path = present[from].0.as_slice();
    let new_path = wanted[to].0.as_slice();
    if find_in(wanted, old_path).is_some() || find_in(present, new_path).is_some() {
        return None;
    }
    let old_end = part_end(present, from);
    let new_end = part_end(wanted, to);
    let old_part = &present[from..old_end];
    let new_part = &wanted[to..new_end];
    if !are_same_below(old_part, old_path.len(), new_part, new_path.len()) {
        return None;
    }
    Some(Relocation {
        from,
        to,
        count: old_end - from,
    })
}

// ---- directories

fn is_directory(object: Option<&Object>) -> bool
    ensures { IsTrue result → option_copied object.entry ≡ Some Dir }
{
    matches!(object, Some(Object::Dir))
}

/// Whether the directory of a path stands in the tree that is there, or comes by a step.
fn has_directory_above(sides: &Sides<'_>, path: &[Name]) -> bool
    ensures { IsTrue result → IsNameable sides.now.present → IsNameable sides.now.wanted
        → HasDirectoryAbove sides.now path.now }
{
    let Some((_, above)) = path.split_last() else {
        return false;
    };
    if is_directory(find_in(sides.present(), above)) {
        return true;
    }
    let wanted = sides.wanted();
    let place = place_in(wanted, above);
    if place >= wanted.len() {
        return false;
    }
    is_same_path(wanted[place].0.as_slice(), above) && sides.come()[place]
}

/// Whether a directory is wanted at a path, where nothing stands yet.
fn is_new_directory(present: &[(Path, Object)], wanted: &[(Path, Object)], path: &[Name]) -> bool
    ensures { IsTrue result → IsTrue (is_sorted path_cmp present.now)
        → IsTrue (is_sorted path_cmp wanted.now)
        → (lookup wanted.now path.now ≡ Some Dir) × (lookup present.now path.now ≡ None) }
{
    if !is_directory(find_in(wanted, path)) {
        return false;
    }
    find_in(present, path).is_none()
}

/// Whether a tree with all steps done has room for one path more.
fn has_room(sides: &Sides<'_>) -> bool
    ensures { IsTrue result
        → length sides.now.present + length sides.now.steps ≤ path_limit }
{
    sides.present().len().saturating_add(sides.steps().len()) < MOST_PATHS
}

/// The wanted directory at a path, if it can be made.
fn directory_to_make(sides: &Sides<'_>, path: &[Name]) -> Option<usize>
    ensures within { IfSome result (λ place. place < length sides.now.wanted) }
    ensures may { IfSome result (λ place. IsNameable sides.now.present → IsNameable sides.now.wanted
        → MayMake sides.now place) }
{
    let wanted = sides.wanted();
    let place = place_in(wanted, path);
    if place >= wanted.len() {
        return None;
    }
    if sides.come()[place] {
        return None;
    }
    if !has_room(sides) {
        return None;
    }
    let found = wanted[place].0.as_slice();
    if !is_new_directory(sides.present(), wanted, found) {
        return None;
    }
    if has_directory_above(sides, found) {
        Some(place)
    } else {
        None
    }
}

/// Makes the directories above a path, as far as they lack and can be made.
fn make_above(sides: &mut Sides<'_>, path: &[Name]) -> Result<(), AllocError>
    ensures present { sides.new.present ≡ sides.old.present }
    ensures wanted { sides.new.wanted ≡ sides.old.wanted }
{
    for depth in 1..path.len() {
        if let Some(place) = directory_to_make(sides, &path[..depth]) {
            sides.make(place)?;
        }
    }
    Ok(())
}

// ---- candidates

/// An entry that one tree alone has, with all that lies below it: where it is, how many entries these are,
/// and how many bytes they have.
#[derive(Clone, Copy)]
struct Candidate {
    place: usize,
    count: usize,
    bytes: u64,
}

/// An entry that one tree alone has, whose part may go on: how deep it lies, and how many bytes come before it.
#[derive(Clone, Copy)]
struct Open {
    place: usize,
    depth: usize,
    before: u64,
}

fn bytes_of(object: &Object) -> u64 {
    match object {
        Object::Dir => 0,
        Object::File(content) => content.len() as u64,
    }
}

/// Ends the parts that go on no further than to a place at this depth, with so many bytes before it.
fn end_parts(
    depth: usize,
    place: usize,
    bytes: u64,
    open: &mut Vec<Open>,
    found: &mut Vec<Candidate>,
) -> Result<(), AllocError> {
    while let Some(last) = open.pop() {
        if last.depth < depth {
            open.push(last)?;
            return Ok(());
        }
        if last.before < bytes {
            found.push(Candidate {
                place: last.place,
                count: place.saturating_sub(last.place),
                bytes: bytes - last.before,
            })?;
        }
    }
    Ok(())
}

/// The entries of one tree that the other has not, but for those in which there are no bytes to keep. In a tree
/// in order a part ends before the next entry that lies no deeper than its first one.
fn candidates(
    alloc: Global,
    entries: &[(Path, Object)],
    others: &[(Path, Object)],
) -> Result<Vec<Candidate>, AllocError> {
    let mut found = Vec::new(alloc);
    let mut open = Vec::new(alloc);
    let mut near = 0;
    let mut before: u64 = 0;
    for place in 0..entries.len() {
        let (path, object) = &entries[place];
        let depth = path.len();
        end_parts(depth, place, before, &mut open, &mut found)?;
        let look = find_near(others, near, path.as_slice());
        near = look.place;
        if look.object.is_none() {
            open.push(Open {
                place,
                depth,
                before,
            })?;
        }
        before = before.saturating_add(bytes_of(object));
    }
    end_parts(0, entries.len(), before, &mut open, &mut found)?;
    Ok(found)
}

fn object_order(one: &Object, other: &Object) -> Ordering {
    match (one, other) {
        (Object::Dir, Object::Dir) => Ordering::Equal,
        (Object::Dir, Object::File(_)) => Ordering::Less,
        (Object::File(_), Object::Dir) => Ordering::Greater,
        (Object::File(a), Object::File(b)) => match a.len().cmp(&b.len()) {
            Ordering::Less => Ordering::Less,
            Ordering::Equal => a.as_slice().cmp(&b.as_slice()),
            Ordering::Greater => Ordering::Greater,
        },
    }
}

fn below_order(
    one: &(Path, Object),
    one_cut: usize,
    other: &(Path, Object),
    other_cut: usize,
) -> Ordering {
    let one_rest = rest_of(one.0.as_slice(), one_cut);
    let other_rest = rest_of(other.0.as_slice(), other_cut);
    match compare(one_rest, other_rest) {
        Ordering::Less => Ordering::Less,
        Ordering::Equal => object_order(&one.1, &other.1),
        Ordering::Greater => Ordering::Greater,
    }
}

/// The entries of a candidate.
fn part_of(entries: &[(Path, Object)], candidate: Candidate) -> &[(Path, Object)] {
    let behind = &entries[candidate.place.min(entries.len())..];
    &behind[..candidate.count.min(behind.len())]
}

fn top_length(part: &[(Path, Object)]) -> usize {
    match part {
        [] => 0,
        [top, ..] => top.0.len(),
    }
}

fn content_order(one: &[(Path, Object)], other: &[(Path, Object)]) -> Ordering {
    let one_cut = top_length(one);
    let other_cut = top_length(other);
    for place in 0..one.len().min(other.len()) {
        let order = below_order(&one[place], one_cut, &other[place], other_cut);
        if order.is_ne() {
            return order;
        }
    }
    one.len().cmp(&other.len())
}

/// The order of candidates: the greatest first, by bytes and then by entries, and those alike side by side.
fn candidate_order(
    one_tree: &[(Path, Object)],
    one: Candidate,
    other_tree: &[(Path, Object)],
    other: Candidate,
) -> Ordering {
    let order = other
        .bytes
        .cmp(&one.bytes)
        .then(other.count.cmp(&one.count));
    if order.is_ne() {
        return order;
    }
    content_order(part_of(one_tree, one), part_of(other_tree, other))
}

// ---- pairs

/// Places at which parts stand alike, as it seems.
#[derive(Clone, Copy)]
struct Pair {
    from: usize,
    to: usize,
}

/// How many candidates of each side are passed.
fn passed(order: Ordering) -> (usize, usize)
    ensures some { 1 ≤ result.0 + result.1 }
    ensures first { result.0 ≤ 1 }
    ensures second { result.1 ≤ 1 }
{
    match order {
        Ordering::Less => (1, 0),
        Ordering::Equal => (1, 1),
        Ordering::Greater => (0, 1),
    }
}

/// Pairs of candidates that are alike, each in one pair at most.
fn paired(
    alloc: Global,
    present: &[(Path, Object)],
    gone: &[Candidate],
    wanted: &[(Path, Object)],
    new: &[Candidate],
) -> Result<Vec<Pair>, AllocError> {
    let mut pairs = Vec::new(alloc);
    let mut at_gone = 0;
    let mut at_new = 0;
    while at_gone < gone.len() && at_new < new.len() {
        let order = candidate_order(present, gone[at_gone], wanted, new[at_new]);
        if order.is_eq() {
            pairs.push(Pair {
                from: gone[at_gone].place,
                to: new[at_new].place,
            })?;
        }
        let (by_gone, by_new) = passed(order);
        at_gone += by_gone;
        at_new += by_new;
    }
    Ok(pairs)
}

fn pairs_between(
    alloc: Global,
    present: &[(Path, Object)],
    wanted: &[(Path, Object)],
) -> Result<Vec<Pair>, AllocError> {
    let mut gone = candidates(alloc, present, wanted)?;
    if gone.is_empty() {
        return Ok(Vec::new(alloc));
    }
    let mut new = candidates(alloc, wanted, present)?;
    gone.sort_unstable_by(|one, other| candidate_order(present, *one, present, *other));
    new.sort_unstable_by(|one, other| candidate_order(wanted, *one, wanted, *other));
    paired(alloc, present, gone.as_slice(), wanted, new.as_slice())
}

// ---- steps

/// Adds the step that moves a part, if no step has it or its new place yet, and the directory above is there.
fn relocate(sides: &mut Sides<'_>, part: Relocation) -> Result<(), AllocError>
    requires { IsMoved sides.old.present sides.old.wanted part }
    ensures present { sides.new.present ≡ sides.old.present }
    ensures wanted { sides.new.wanted ≡ sides.old.wanted }
{
    let path = sides.wanted()[part.to].0.as_slice();
    if !are_free(sides.gone(), part.from, part.from + part.count) {
        return Ok(());
    }
    if !are_free(sides.come(), part.to, part.to + part.count) {
        return Ok(());
    }
    if has_directory_above(sides, path) {
        sides.relocate(part)
    } else {
        Ok(())
    }
}

/// Chooses a pair, if its parts are alike and no step has them yet.
fn choose(sides: &mut Sides<'_>, pair: Pair) -> Result<(), AllocError>
    ensures present { sides.new.present ≡ sides.old.present }
    ensures wanted { sides.new.wanted ≡ sides.old.wanted }
{
    let present = sides.present();
    let wanted = sides.wanted();
    if pair.from >= present.len() || pair.to >= wanted.len() {
        return Ok(());
    }
    if sides.gone()[pair.from] || sides.come()[pair.to] {
        return Ok(());
    }
    let Some(part) = moved_part(present, pair.from, wanted, pair.to) else {
        return Ok(());
    };
    make_above(sides, wanted[pair.to].0.as_slice())?;
    relocate(sides, part)
}

/// Two trees with the steps for what has moved between them.
pub(crate) fn sides_of<'a>(
    alloc: Global,
    present: &'a [(Path, Object)],
    wanted: &'a [(Path, Object)],
) -> Result<Sides<'a>, AllocError>
    ensures present { IfOk result (λ sides. sides.present ≡ present.now) }
    ensures wanted { IfOk result (λ sides. sides.wanted ≡ wanted.now) }
{
    let mut sides = Sides::new(alloc, present, wanted)?;
    for pair in pairs_between(alloc, present, wanted)? {
        choose(&mut sides, pair)?;
    }
    Ok(sides)
}
