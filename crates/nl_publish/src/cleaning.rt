//! Rounds of cleaning on a shared volume.
ghost use Rattle.std.specs.Prelude.{IfOk, IsOkUnless};
ghost use Rattle.nl_publish.specs.Cleaning.{CleanRan};

use crate::locked::Locked;
use crate::press::Press;
use crate::protocol::Volumes;
use nl_commit::{NotingPen, Round};
use nl_protect::Config;
use nl_types::{Moment, Reply, VolError};
use std::alloc::Global;
use std::sync::Wait;

impl<P: NotingPen, J: Volumes, W: Press> Locked<P, J, W> {
    /// Does the next event of a round of cleaning, and notes the reply in the round; None where the round is
    /// over. Where the give-back of a lost mount is refused, that is the reply to the event.
    pub fn clean_step<G: Round<P>, R: Wait>(&mut self, rt: &R, round: &mut G) -> Option<Reply>
        ensures { CleanRan G.habits self.old round.old result self.new round.new }
    {
        if let Err(refusal) = self.begin(rt) {
            let refused = Err(refusal);
            round.note(&refused);
            return Some(refused);
        }
        let event = round.next(self.pen())?;
        let reply = self.run_own(event);
        self.publish_pending(rt);
        round.note(&reply);
        Some(reply)
    }

    /// The round of cleaning that a configuration asks for at a moment. It only looks. Refused by `Memory`
    /// alone.
    pub fn plan<G: Round<P>>(
        &self,
        alloc: Global,
        config: &Config,
        now: Moment,
    ) -> Result<G, VolError>
        ensures plan { IfOk result (G.habits.plans self.now.layout config.now now) }
        ensures refused { IsOkUnless result VolError.Memory }
    {
        G::plan(alloc, self.pen(), config, now)
    }
}
