//! `check`: whether an image is sound, and what of it changed since it was saved.
ghost use Rattle.std.specs.Prelude.{◌≡◌, ◌⊎◌, ◌↔◌, Bool, IfErr, IfOk, IsTrue};
ghost use Rattle.nl_types.specs.declared.error.VolError;
ghost use Rattle.nl_backups.specs.Checking.{Checks, HasFailing, IsSound, IsVerdict, Judges, JudgesLater, RefusesChecking, TellsSound};
ghost use Rattle.nl_backups.specs.Hosts.{Image};
ghost use Rattle.nl_backups.specs.declared.summed.SumFile.{SumFile};

use crate::hosts::Place;
use crate::refusals::Refusal;
use crate::summed::{Beside, SumFile, SumPlace, beside_file};
use nl_damage::Judged;
use nl_keep_pen::OpenedVolume;
use nl_types::{Items, VolError};
use std::alloc::{AllocError, Global};

/// What is found of an image, and of what stands where its sum is due.
#[derive(Drop)]
pub struct Verdict {
    /// The number of the first condition that fails. None where all hold.
    pub failing: Option<u8>,
    pub beside: Beside,
    /// What is judged of the later conditions, where one fails and that is asked.
    pub judged: Option<Judged>,
}

impl Verdict {
    fn finds_no_fault(&self) -> bool
        ensures { IsTrue result ↔ TellsSound self.now }
    {
        self.failing.is_none() && self.beside.differing().is_empty()
    }

    /// Whether all conditions hold, and no segment differs from the sum.
    pub fn is_sound(&self) -> bool
        ensures told { IsTrue result ↔ TellsSound self.now }
        ensures sound { (is_all : Bool) (image : Image) (file : SumFile) → IsVerdict is_all image file self.now
            → (IsTrue result ↔ IsSound image file) }
    {
        self.finds_no_fault()
    }
}

/// An image that was checked, and what is found of it.
#[derive(Drop)]
pub struct Checked {
    pub image: Items<u8>,
    pub verdict: Verdict,
}

/// The number of the first condition that an image fails, as opening it tells. None where it fails none.
fn first_failing(alloc: Global, image: &[u8]) -> Result<Option<u8>, VolError>
    ensures failing { IfOk result (HasFailing image.now) }
    ensures refused { IfErr result (λ e. (e ≡ VolError.Fault) ⊎ (e ≡ VolError.Memory)) }
{
    match OpenedVolume::open(alloc, image) {
        Ok(_) => Ok(None),
        Err(VolError::BadImage(number)) => Ok(Some(number)),
        Err(error) => Err(error),
    }
}

/// What is judged of the later conditions, where one fails and that is asked.
fn judged_of(
    alloc: Global,
    image: &[u8],
    failing: Option<u8>,
    is_all: bool,
) -> Result<Option<Judged>, AllocError>
    ensures { IfOk result (JudgesLater is_all image.now failing) }
{
    match failing {
        Some(_) if is_all => {
            let judged = Judged::of(alloc, image)?;
            Ok(Some(judged))
        }
        _ => Ok(None),
    }
}

fn verdict_of(alloc: Global, image: &[u8], file: &SumFile, is_all: bool) -> Result<Verdict, Refusal>
    ensures verdict { IfOk result (IsVerdict is_all image.now file.now) }
    ensures refused { IfErr result RefusesChecking }
{
    let failing = first_failing(alloc, image)?;
    let beside = beside_file(alloc, image, file)?;
    let judged = judged_of(alloc, image, failing, is_all)?;
    Ok(Verdict {
        failing,
        beside,
        judged,
    })
}

/// Judges an image that was read already, beside what stands where its sum is due. `is_all` asks for the
/// conditions behind the first that fails too.
///
/// # Errors
/// `Host` where the host doesn't say what stands there; `Volume(Memory)`. No caller sees `Fault`, as a device in
/// memory doesn't fail.
pub fn judge<S: SumPlace>(
    alloc: Global,
    image: &[u8],
    sum: &mut S,
    is_all: bool,
) -> Result<Verdict, Refusal>
    ensures judges { IfOk result (Judges is_all image.now (S.file sum.old)) }
    ensures stays { S.file sum.new ≡ S.file sum.old }
    ensures refused { IfErr result RefusesChecking }
{
    let file = sum.read(alloc)?;
    let verdict = verdict_of(alloc, image, &file, is_all)?;
    Ok(verdict)
}

/// The same of the image that stands in its place, which is handed over. It stays. A host that reads no more of
/// a file than an image has reads one byte behind that too, so that a file that is too long isn't taken for an
/// image.
///
/// # Errors
/// As `judge`, and `Host` where the host doesn't give the image.
pub fn check<P: Place, S: SumPlace>(
    alloc: Global,
    place: &mut P,
    sum: &mut S,
    is_all: bool,
) -> Result<Checked, Refusal>
    ensures checks { IfOk result (Checks is_all (P.image place.old) (S.file sum.old)) }
    ensures stays { P.image place.new ≡ P.image place.old }
    ensures sum_stays { S.file sum.new ≡ S.file sum.old }
    ensures refused { IfErr result RefusesChecking }
{
    let image = Items::from_vec(place.read(alloc)?);
    let verdict = judge(alloc, image.as_slice(), sum, is_all)?;
    Ok(Checked { image, verdict })
}
