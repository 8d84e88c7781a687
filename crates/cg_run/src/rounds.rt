ghost use Rattle.std.specs.Prelude.{◌≡◌, ◌<◌, true, None, OnOk};
ghost use Rattle.cg_base.specs.declared.limits.TheConstants.{COUNT_LIMIT};
ghost use Rattle.cg_schedule.specs.declared.event.Event.TheVariants.{Gather};
ghost use Rattle.cg_outcome.specs.Produced.{one_step};
ghost use Rattle.cg_items.specs.Companion.{end_refusal};
ghost use Rattle.cg_outcome.specs.Rounds.{deliveries, one_pass, passes, ended_unless, happened};
ghost use Rattle.cg_run.specs.Performing.{place, seen, Performs};
ghost use Rattle.cg_outcome.specs.UnderWay.{HasBegun};
ghost use Rattle.cg_run.specs.Next.{MayHappen};

use crate::progress::Run;
use cg_base::IdSet;
use cg_group::Reason;
use cg_io::Sink;
use cg_outcome::{Companion, Status};
use cg_schedule::Event;
use cg_world::World;

impl Run {
    // What is ready at each of these replicas, when its turn comes.
    fn deliver_to_each<K: Sink>(&mut self, output: &mut K, set: &IdSet) -> Result<(), Status>
        requires few_faults { (K.view output.old).faults < COUNT_LIMIT }
        requires begun { HasBegun (seen self.old) }
        ensures performs { Performs self.old.report (deliveries self.old.line set.now (seen self.old))
            (K.view output.old) (K.view output.new) self.new result }
        ensures begun { OnOk result (HasBegun (seen self.new)) }
        ensures placed { place self.new ≡ place self.old }
    {
        for to in set.iter() {
            let Ok(world) = self.world.get() else {
                return Err(Status::NoMemory);
            };
            let count = world.ready(to);
            if count == 0 {
                continue;
            }
            let event = Event::Deliver { p: to, count };
            self.take_step(output, None, &event)?;
        }
        Ok(())
    }

    // All messages are gathered.
    fn gather<K: Sink>(&mut self, output: &mut K) -> Result<(), Status>
        requires few_faults { (K.view output.old).faults < COUNT_LIMIT }
        requires begun { HasBegun (seen self.old) }
        ensures performs { Performs self.old.report (one_step self.old.line None Gather (seen self.old))
            (K.view output.old) (K.view output.new) self.new result }
        ensures begun { OnOk result (HasBegun (seen self.new)) }
        ensures placed { place self.new ≡ place self.old }
    {
        let event = Event::Gather;
        self.take_step(output, None, &event)
    }

    // All messages are gathered, and then each replica that was up before is handed what is ready.
    fn make_pass<K: Sink>(&mut self, output: &mut K) -> Result<(), Status>
        requires few_faults { (K.view output.old).faults < COUNT_LIMIT }
        requires begun { HasBegun (seen self.old) }
        ensures performs { Performs self.old.report (one_pass self.old.line (seen self.old))
            (K.view output.old) (K.view output.new) self.new result }
        ensures begun { OnOk result (HasBegun (seen self.new)) }
        ensures placed { place self.new ≡ place self.old }
    {
        let Ok(world) = self.world.get() else {
            return Err(Status::NoMemory);
        };
        let up = world.up_replicas();
        self.gather(output)?;
        self.deliver_to_each(output, &up)
    }

    // So many passes.
    fn make_passes<K: Sink>(&mut self, output: &mut K, count: u64) -> Result<(), Status>
        requires few_faults { (K.view output.old).faults < COUNT_LIMIT }
        requires begun { HasBegun (seen self.old) }
        ensures performs { Performs self.old.report (passes self.old.line count (seen self.old))
            (K.view output.old) (K.view output.new) self.new result }
        ensures begun { OnOk result (HasBegun (seen self.new)) }
        ensures placed { place self.new ≡ place self.old }
    {
        for made in 0..count {
            self.make_pass(output)?;
        }
        Ok(())
    }

    // The end, which isn't admitted where the disk of a replica is wanted that hasn't begun.
    fn end_schedule<K: Sink>(&self, output: &mut K) -> Result<(), Status>
        requires few_faults { (K.view output.old).faults < COUNT_LIMIT }
        requires begun { HasBegun (seen self.now) }
        ensures performs { Performs self.now.report
            (ended_unless (end_refusal (seen self.now).companion (seen self.now).world) self.now.line (seen self.now))
            (K.view output.old) (K.view output.new) self.now result }
        ensures begun { OnOk result (HasBegun (seen self.now)) }
    {
        let Ok(world) = self.world.get() else {
            return Err(Status::NoMemory);
        };
        match end_refusal(&self.companion, world) {
            None => Ok(()),
            Some(reason) => {
                let status = Status::Refused {
                    line: self.line,
                    reason,
                };
                Err(self.end(output, status, self.line))
            }
        }
    }

    /// The event of a line happens.
    #[tactic(auto, unfolding(cg_outcome::specs::Rounds::happened))]
    pub fn perform<K: Sink>(&mut self, output: &mut K, event: &Event) -> Result<(), Status>
        requires few_faults { (K.view output.old).faults < COUNT_LIMIT }
        requires started { (seen self.old).reader.started ≡ true }
        requires happens { MayHappen (seen self.old).world event.now }
        ensures performs { Performs self.old.report (happened self.old.line event.now (seen self.old))
            (K.view output.old) (K.view output.new) self.new result }
        ensures begun { OnOk result (HasBegun (seen self.new)) }
        ensures placed { place self.new ≡ place self.old }
    {
        match event {
            Event::End => self.end_schedule(output),
            Event::Rounds(count) => self.make_passes(output, *count),
            _ => self.take_step(output, None, event),
        }
    }
}

// The reason by which the end isn't admitted, if there is one.
fn end_refusal(companion: &Companion, world: &World) -> Option<Reason>
    ensures { result ≡ end_refusal companion.now world.now.world }
{
    match companion {
        Companion::Imaging(p) => world.unknown(*p),
        _ => None,
    }
}
