//! What scripts know of a volume.
ghost use Rattle.std.specs.Prelude.{◌≡◌, ◌<◌, ℕ, IfSome, OnSome};
ghost use Rattle.nl_protect.specs.declared.config.Config.{Config};
ghost use Rattle.nl_commit.specs.Layout.{Layout};
ghost use Rattle.nl_script.specs.FileReads.{AnswersReads};
ghost use Rattle.nl_script.specs.Habits.{Habits};

use nl_commit::{NotingPen, Round};
use nl_publish::{Mount, Volumes};
use nl_types::{Event, MountNumber, Reply};

/// What a script runs on.
pub trait Volume {
    /// What does its events.
    type Pen: NotingPen;

    /// A round of cleaning that was planned, and how far it is.
    type Job: Round<Self::Pen>;

    /// What keeps the histories of volumes apart, by which its mounts are known.
    type Book: Volumes + Send + Sync;

    /// What it does, and what it shows of itself.
    ghost habits: { Habits Self Self.Job };

    /// Its pen, to be asked.
    fn pen(&self) -> &Self::Pen
        ensures { Self.Pen.layout result.now ≡ habits.view self.now };

    /// The mount of a number, where it is held: what its tree says is what the volume answers to reads of it.
    fn mount_of(&self, mount: MountNumber) -> Option<&Mount<Self::Book>>
        ensures { IfSome result (λ m. AnswersReads habits.does self.now mount m.now) };

    /// Does one event.
    fn apply(&mut self, event: &Event) -> Reply
        ensures { habits.does self.old event.now result self.new };

    /// Does the next step of a round, if there is one.
    fn clean_step(&mut self, job: &mut Self::Job) -> Option<Reply>
        ensures steps { habits.steps self.old job.old result self.new job.new }
        ensures fewer { OnSome result (habits.rounds.left job.new (habits.view self.new)
            < habits.rounds.left job.old (habits.view self.old)) };

    /// Its rounds are planned as they say.
    ghost plans: { (shown : Layout) (config : Config) (moment : ℕ) (job : Self.Job)
        → Self.Job.habits.plans shown config moment job → habits.rounds.plans shown config moment job };
}
