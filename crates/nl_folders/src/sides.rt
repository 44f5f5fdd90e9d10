//! Two trees side by side, and the steps by which what has moved between them comes to its new paths.
ghost use Rattle.std.specs.Prelude.{◌≡◌, ◌+◌, ◌<◌, ◌≤◌, IsTrue, false, length, replicate, IfOk, slice_index_or};
ghost use Rattle.nl_folders.specs.Private.Sides.{AreFree, AreMatched, IsPlaced, MayMake, MayMove, SetsFlags, call_of, calls_of};
ghost use Rattle.nl_folders.specs.Spelled.{IsNameable};

use crate::paths::{Path, spelled};
use nl_names::Name;
use nl_types::{Change, Items, Object};
use std::alloc::{AllocError, Global};
use std::marker::Model;

/// A part that moves, by where its entries begin in each tree, and how many they are.
#[derive(Clone, Copy, Drop)]
pub(crate) struct Relocation {
    pub(crate) from: usize,
    pub(crate) to: usize,
    pub(crate) count: usize,
}

/// What is done before anything is removed.
#[derive(Clone, Copy, Drop)]
pub(crate) enum Step {
    /// Makes the directory of a wanted entry, so that something can move into it.
    Make(usize),
    /// Renames a part.
    Relocate(Relocation),
}

// ---- flags

fn unset(alloc: Global, count: usize) -> Result<Items<bool>, AllocError>
    ensures { IfOk result (λ flags. flags ≡ replicate count false) }
{
    let mut flags = Items::new(alloc);
    for _ in 0..count {
        flags.push(false)?;
    }
    Ok(flags)
}

pub(crate) fn are_free(flags: &[bool], from: usize, to: usize) -> bool
    requires { to ≤ length flags.now }
    ensures { IsTrue result → AreFree flags.now from to }
{
    for place in from..to {
        if flags[place] {
            return false;
        }
    }
    true
}

fn set(flags: &mut Items<bool>, from: usize, to: usize)
    requires ordered { from ≤ to }
    requires within { to ≤ length flags.old }
    ensures { SetsFlags flags.old flags.new from to }
{
    for place in from..to {
        flags.set(place, true);
    }
}

// ---- sides

/// Two trees, the steps that were chosen, and flags at the entries of both that need nothing else.
#[derive(Drop)]
pub(crate) struct Sides<'a> {
    present: &'a [(Path, Object)],
    wanted: &'a [(Path, Object)],
    steps: Items<Step>,
    gone: Items<bool>,
    come: Items<bool>,
}

impl<'a> Model for Sides<'a> {
    ghost use Rattle.nl_folders.specs.Private.Sides.{AreMatched, TwoSides};

    ghost Value = { TwoSides };

    ghost view = { λ s. record {
      present = s.present.now;
      wanted = s.wanted.now;
      steps = s.steps;
      gone = s.gone;
      come = s.come;
    } };

    ghost invariant = { λ s. AreMatched (record {
      present = s.present.now;
      wanted = s.wanted.now;
      steps = s.steps;
      gone = s.gone;
      come = s.come;
    }) };
}

impl<'a> Sides<'a> {
    /// The trees with no step.
    pub(crate) fn new(
        alloc: Global,
        present: &'a [(Path, Object)],
        wanted: &'a [(Path, Object)],
    ) -> Result<Sides<'a>, AllocError>
        ensures present { IfOk result (λ sides. sides.present ≡ present.now) }
        ensures wanted { IfOk result (λ sides. sides.wanted ≡ wanted.now) }
    {
        let gone = unset(alloc, present.len())?;
        let come = unset(alloc, wanted.len())?;
        Ok(Sides {
            present,
            wanted,
            steps: Items::new(alloc),
            gone,
            come,
        })
    }

    pub(crate) fn present(&self) -> &'a [(Path, Object)]
        ensures value { result.now ≡ self.now.present }
        ensures told { AreMatched self.now }
    {
        self.present
    }

    pub(crate) fn wanted(&self) -> &'a [(Path, Object)]
        ensures value { result.now ≡ self.now.wanted }
        ensures told { AreMatched self.now }
    {
        self.wanted
    }

    pub(crate) fn steps(&self) -> &[Step]
        ensures { result.now ≡ self.now.steps }
    {
        self.steps.as_slice()
    }

    pub(crate) fn gone(&self) -> &[bool]
        ensures value { result.now ≡ self.now.gone }
        ensures long { length result.now ≡ length self.now.present }
    {
        self.gone.as_slice()
    }

    pub(crate) fn come(&self) -> &[bool]
        ensures value { result.now ≡ self.now.come }
        ensures long { length result.now ≡ length self.now.wanted }
    {
        self.come.as_slice()
    }

    /// Adds the step that makes a directory.
    pub(crate) fn make(&mut self, place: usize) -> Result<(), AllocError>
        requires within { place < length self.old.wanted }
        requires may { IsNameable self.old.present → IsNameable self.old.wanted → MayMake self.old place }
        ensures present { self.new.present ≡ self.old.present }
        ensures wanted { self.new.wanted ≡ self.old.wanted }
    {
        self.steps.push(Step::Make(place))?;
        set(&mut self.come, place, place + 1);
        Ok(())
    }

    /// Adds the step that renames a part.
    pub(crate) fn relocate(&mut self, part: Relocation) -> Result<(), AllocError>
        requires from { part.from + part.count ≤ length self.old.present }
        requires to { part.to + part.count ≤ length self.old.wanted }
        requires some { 0 < part.count }
        requires may { IsNameable self.old.present → IsNameable self.old.wanted → MayMove self.old part }
        ensures present { self.new.present ≡ self.old.present }
        ensures wanted { self.new.wanted ≡ self.old.wanted }
    {
        self.steps.push(Step::Relocate(part))?;
        set(&mut self.gone, part.from, part.from + part.count);
        set(&mut self.come, part.to, part.to + part.count);
        Ok(())
    }
}

// ---- calls

fn call_of(
    alloc: Global,
    present: &[(Path, Object)],
    wanted: &[(Path, Object)],
    step: Step,
) -> Result<Change, AllocError>
    requires { IsPlaced present.now wanted.now step }
    ensures { IfOk result (λ call. call ≡ call_of present.now wanted.now step) }
{
    match step {
        Step::Make(place) => Ok(Change::Mkdir {
            path: spelled(alloc, wanted[place].0.as_slice())?,
        }),
        Step::Relocate(part) => {
            let from = spelled(alloc, present[part.from].0.as_slice())?;
            let to = spelled(alloc, wanted[part.to].0.as_slice())?;
            Ok(Change::Rename { from, to })
        }
    }
}

/// The calls that do the steps.
pub(crate) fn calls_of(alloc: Global, sides: &Sides<'_>) -> Result<Items<Change>, AllocError>
    ensures { IfOk result (λ calls.
        calls ≡ calls_of sides.now.present sides.now.wanted sides.now.steps) }
{
    let present = sides.present();
    let wanted = sides.wanted();
    let mut calls = Items::new(alloc);
    for step in sides.steps() {
        calls.push(call_of(alloc, present, wanted, *step)?)?;
    }
    Ok(calls)
}
