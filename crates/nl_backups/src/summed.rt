//! What stands where the sum of an image is due, and what the image is beside that.
ghost use Rattle.std.specs.Prelude.{◌≡◌, ◌↔◌, [], IfErr, IfOk};
ghost use Rattle.nl_damage.specs.SumComparing.{NoneDifferFrom};
ghost use Rattle.nl_backups.specs.Checking.{IsBesideFile, IsBesideSum, IsCompared, NoneDifferFromFile, RefusesChecking, differing_beside};
ghost use Rattle.nl_backups.specs.Hosts.{Holds};

use crate::hosts::HostFault;
use crate::refusals::Refusal;
use nl_damage::sums::{Comparison, compare_text};
use nl_types::Items;
use std::alloc::{AllocError, Global};

/// What stands where the sum of an image is due.
#[derive(Drop)]
pub enum SumFile {
    /// Nothing.
    Missing,
    /// What can't be read.
    Unread,
    /// These bytes, be they a sum or not.
    Text(Items<u8>),
}

/// Where the sum of an image is due.
pub trait SumPlace {
    ghost use Rattle.std.specs.Prelude.{Option};
    ghost use Rattle.nl_backups.specs.declared.summed.SumFile.{SumFile};

    /// What stands there, where that is known.
    ghost file: { Self → Option SumFile };

    fn read(&mut self, alloc: Global) -> Result<SumFile, HostFault>
        ensures read { IfOk result (λ it. Holds (file self.old) it) }
        ensures stays { file self.new ≡ file self.old };
}

/// A sum in memory, or what stands in its place.
#[derive(Drop)]
pub struct MemorySum {
    pub file: SumFile,
}

impl SumPlace for MemorySum {
    ghost use Rattle.std.specs.Prelude.{Some};

    ghost file = { λ s. Some s.file };

    fn read(&mut self, alloc: Global) -> Result<SumFile, HostFault> {
        match &self.file {
            SumFile::Missing => Ok(SumFile::Missing),
            SumFile::Unread => Ok(SumFile::Unread),
            SumFile::Text(text) => match Items::from_slice(alloc, text.as_slice()) {
                Ok(text) => Ok(SumFile::Text(text)),
                Err(_) => Err(HostFault),
            },
        }
    }
}

/// What an image is beside what stands where its sum is due.
#[derive(Drop)]
pub enum Beside {
    /// Nothing is there.
    Missing,
    /// It can't be read.
    Unread,
    /// It is no sum.
    NoSum,
    /// It is a sum.
    Compared(Comparison),
}

impl Beside {
    /// The segments that have other bytes than the sum says, ascending.
    pub fn differing(&self) -> &[u64]
        ensures { result.now ≡ differing_beside self.now }
    {
        match self {
            Beside::Compared(comparison) => comparison.differing(),
            Beside::Missing | Beside::Unread | Beside::NoSum => &[],
        }
    }
}

fn beside_text(alloc: Global, image: &[u8], text: &[u8]) -> Result<Beside, AllocError>
    ensures beside { IfOk result (IsBesideSum image.now text.now) }
    ensures exact { IfOk result (λ beside.
        (differing_beside beside ≡ []) ↔ NoneDifferFrom image.now text.now) }
{
    match compare_text(alloc, image, text)? {
        Some(comparison) => Ok(Beside::Compared(comparison)),
        None => Ok(Beside::NoSum),
    }
}

pub(crate) fn beside_file(alloc: Global, image: &[u8], file: &SumFile) -> Result<Beside, AllocError>
    ensures beside { IfOk result (IsBesideFile image.now file.now) }
    ensures exact { IfOk result (λ beside.
        (differing_beside beside ≡ []) ↔ NoneDifferFromFile image.now file.now) }
{
    match file {
        SumFile::Missing => Ok(Beside::Missing),
        SumFile::Unread => Ok(Beside::Unread),
        SumFile::Text(text) => beside_text(alloc, image, text.as_slice()),
    }
}

/// What an image is beside what stands where its sum is due. The conditions of the image aren't judged.
///
/// # Errors
/// `Host` where the host doesn't say what stands there; `Volume(Memory)`.
pub fn beside_sum<S: SumPlace>(alloc: Global, image: &[u8], sum: &mut S) -> Result<Beside, Refusal>
    ensures compared { IfOk result (IsCompared image.now (S.file sum.old)) }
    ensures stays { S.file sum.new ≡ S.file sum.old }
    ensures refused { IfErr result RefusesChecking }
{
    let file = sum.read(alloc)?;
    let beside = beside_file(alloc, image, &file)?;
    Ok(beside)
}
