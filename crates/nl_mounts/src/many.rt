//! Ports as what reads many files of a mount at once.
ghost use Rattle.std.specs.Prelude.{◌≡◌, ◌<◌, All, length, IfErr, IfOk, OnOk};
ghost use Rattle.nl_publish.specs.Jobs.{AreAnswers};
ghost use Rattle.nl_publish.specs.Reading.{HasLearned};
ghost use Rattle.nl_mounts.specs.Ports.{AreLater};

use crate::enters::Enters;
use crate::port::Port;
use nl_publish::{FileReader, Gate, JobAnswer, Mount, PlaceKey, ReadJob, Volumes};
use nl_types::{Items, VolError};
use std::alloc::Global;
use std::thread::Threads;

impl<J: Volumes, E: Enters> FileReader<J> for Port<J, E> {
    ghost use Rattle.std.specs.Prelude.{refl};
    ghost use Rattle.nl_mounts.specs.Ports.{IsUngiven, joined, seeing, taken, vacant};

    ghost known = { λ p. p.known };

    ghost with_known = { seeing };

    ghost ungiven = { λ p. IsUngiven E.gives p.known p.seated };

    ghost taken = { taken };

    ghost left = { vacant };

    ghost joined = { joined };

    fn take(&mut self, _key: &PlaceKey) -> Self {
        Port::take(self)
    }

    fn put_back(&mut self, reader: Self, _key: &PlaceKey) {
        Port::put_back(self, reader);
    }

    fn learn(&mut self, mount: &Mount<J>) {
        Port::learn(self, mount);
    }

    fn read(
        &mut self,
        alloc: Global,
        mount: &Mount<J>,
        path: &[u8],
        offset: u64,
        len: u64,
    ) -> Result<Items<u8>, VolError> {
        Port::read(self, alloc, mount, path, offset, len)
    }

    ghost known_with = { λ p k. refl };

    ghost known_taken = { λ p. refl };

    ghost known_left = { λ p. refl };

    ghost with_more = { λ p k l. refl };

    ghost same_known = { λ p. refl };

    ghost joined_again = { λ p k. refl };
}

/// Does jobs by ports at once, each port in a thread of its own: job j by port j modulo the number of ports.
/// Each port is told of the mount first. The answers stand in the order of the jobs. Where no thread can be
/// made, ports take turns.
///
/// # Errors
/// `Memory`, before anything is read. A job has refusals of its own, `Memory` among them.
pub fn read_many<J: Volumes + Send + Sync, G: Gate + Sync, R: Threads + Sync>(
    rt: &R,
    alloc: Global,
    ports: &mut [Port<J>],
    mount: &Mount<J>,
    jobs: &[ReadJob],
    gate: &G,
) -> Result<Vec<JobAnswer>, VolError>
    requires { 0 < length ports.old }
    ensures answers { IfOk result (λ answers. AreAnswers mount.now jobs.now answers.items) }
    ensures later { AreLater ports.old ports.new }
    ensures learned { OnOk result (All (λ p. HasLearned mount.now p.known) ports.new) }
    ensures refused { IfErr result (λ e. (e ≡ VolError.Memory) × (ports.new ≡ ports.old)) }
{
    nl_publish::read_many(rt, alloc, ports, mount, jobs, gate)
}
