//! Rounds of cleaning that remove no checkpoint but plain minor ones.
ghost use Rattle.std.specs.Prelude.{◌≡◌, ℕ, ◌<◌, ◌≤◌, true, IfErr, OnOk};
ghost use Rattle.nl_types.specs.declared.error.VolError;
ghost use Rattle.nl_commit.specs.Layout.{MeansWorld};
ghost use Rattle.nl_keep.specs.Lasting.{OnlyTidies};
ghost use Rattle.nl_keep.specs.Volumes.{LeadsTo};
ghost use Rattle.nl_cleaner.specs.Job.{steps_left};

use crate::PenVolume;
use nl_cleaner::{Job, plan};
use nl_core::Pen;
use nl_device::Device;
use nl_keep::remove_minor;
use nl_protect::{Amount, Config};
use nl_types::{Moment, VolError};
use std::alloc::Global;

/// All is protected. As many segments are cleaned as give anything.
fn configuration() -> Config
    ensures { result.protection_period ≡ 18446744073709551615 }
{
    Config {
        protection_period: u64::MAX,
        min_clean_segments: Amount::Count(0),
        max_clean_segments: Amount::Percent(100),
        nsegments_per_clean: 4096,
        min_reclaimable_blocks: Amount::Count(1),
        ..Config::standard()
    }
}

/// The moment that a round goes by. At the last one of all, the period wouldn't protect what was made at 0.
fn protecting(moment: u64) -> u64
    ensures protects { result < 18446744073709551615 }
    ensures early { result ≤ moment }
{
    if moment < u64::MAX {
        moment
    } else {
        u64::MAX - 1
    }
}

/// Does the next event of a round, and tells whether there was one.
fn go_on<D: Device>(job: &mut Job, pen: &mut Pen<D>) -> bool
    requires { job.old.moment < job.old.period }
    ensures moment { job.new.moment ≡ job.old.moment }
    ensures period { job.new.period ≡ job.old.period }
    ensures tidies { (moment : ℕ) → job.old.moment ≤ moment
        → LeadsTo (OnlyTidies moment) (MeansWorld pen.old) (MeansWorld pen.new) }
    ensures fewer { result ≡ true → steps_left job.new pen.new < steps_left job.old pen.old }
{
    nl_keep::laws::tidying_events_only_tidy();
    match job.step(pen) {
        Some(_) => true,
        None => false,
    }
}

/// Does what is left of a round.
fn do_round<D: Device>(job: &mut Job, pen: &mut Pen<D>)
    requires { job.old.moment < job.old.period }
    ensures { (moment : ℕ) → job.old.moment ≤ moment
        → LeadsTo (OnlyTidies moment) (MeansWorld pen.old) (MeansWorld pen.new) }
{
    while go_on(job, pen) {}
}

/// Plans a round and does it.
fn clean<D: Device>(alloc: Global, pen: &mut Pen<D>, moment: u64) -> Result<(), VolError>
    ensures tidies { OnOk result (LeadsTo (OnlyTidies moment) (MeansWorld pen.old) (MeansWorld pen.new)) }
    ensures refused { IfErr result (λ e. e ≡ VolError.Memory) }
{
    let config = configuration();
    let mut job = plan(alloc, pen, &config, Moment::new(protecting(moment)))?;
    do_round(&mut job, pen);
    Ok(())
}

/// When a round of cleaning is done.
#[derive(Clone, Copy)]
pub enum Cleaning {
    Always,
    /// Where fewer than a quarter of the segments are clean.
    IfShort,
}

/// Whether a round is to be done.
fn is_due<D: Device>(cleaning: Cleaning, pen: &Pen<D>) -> bool {
    match cleaning {
        Cleaning::Always => true,
        Cleaning::IfShort => {
            let stat = pen.segments().sustat();
            stat.clean < stat.segments / 4
        }
    }
}

/// A round of cleaning at a moment. The plain minor checkpoints but the latest one go before it: what they
/// alone need is freed too.
#[derive(Clone, Copy)]
pub(crate) struct Round {
    pub(crate) alloc: Global,
    pub(crate) moment: u64,
}

impl Round {
    /// Does it. Refused by `Memory` alone.
    fn tidy<D: Device>(&self, volume: &mut PenVolume<D>) -> Result<(), VolError>
        ensures tidies { OnOk result (LeadsTo (OnlyTidies self.now.moment)
            (MeansWorld volume.old.pen) (MeansWorld volume.new.pen)) }
        ensures refused { IfErr result (λ e. e ≡ VolError.Memory) }
    {
        nl_keep::laws::minor_removals_only_tidy();
        volume.pen.means_a_world();
        remove_minor(volume)?;
        clean(self.alloc, &mut volume.pen, self.moment)
    }

    /// Does it where it is due. Refused by `Memory` alone.
    pub(crate) fn tidy_if_due<D: Device>(
        &self,
        volume: &mut PenVolume<D>,
        cleaning: Cleaning,
    ) -> Result<(), VolError>
        ensures tidies { OnOk result (LeadsTo (OnlyTidies self.now.moment)
            (MeansWorld volume.old.pen) (MeansWorld volume.new.pen)) }
        ensures refused { IfErr result (λ e. e ≡ VolError.Memory) }
    {
        if is_due(cleaning, &volume.pen) {
            self.tidy(volume)
        } else {
            Ok(())
        }
    }
}
