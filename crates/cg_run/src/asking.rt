//! A command's own event happens: it isn't admitted, makes the step of the world for which it stands, or acts beside it.
ghost use Rattle.std.specs.Prelude.{◌≡◌, ◌<◌, ◌+◌, None, Some, IfErr, OnOk};
ghost use Rattle.cg_base.specs.declared.limits.TheConstants.{COUNT_LIMIT};
ghost use Rattle.cg_report.specs.NoEntry.{no_entry};
ghost use Rattle.cg_items.specs.Companion.{acts, further_refusal};
ghost use Rattle.cg_items.specs.Items.{entry_in};
ghost use Rattle.cg_outcome.specs.FurtherLaws.{StandsFor};
ghost use Rattle.cg_model.specs.Run.{MayStand, step_limit};
ghost use Rattle.cg_world.specs.Steps.{IsCounted};
ghost use Rattle.cg_outcome.specs.Produced.{acted, one_further, one_step};
ghost use Rattle.cg_outcome.specs.Putting.{Puts};
ghost use Rattle.cg_outcome.specs.Stopping.{CutShort};
ghost use Rattle.cg_outcome.specs.UnderWay.{HasBegun};
ghost use Rattle.cg_run.specs.Asking.{admitted};
ghost use Rattle.cg_run.specs.Performing.{place, seen, Performs};

use crate::further::{act, event_of, further_refusal};
use crate::progress::Run;
use cg_base::NoMemory;
use cg_io::Sink;
use cg_outcome::{Further, Limit, STEPS, Status, put_step};
use cg_report::Entry;
use cg_schedule::Event;

impl Run {
    // What an event does beside the world is put.
    fn show_act<K: Sink>(&mut self, output: &mut K, event: &Further) -> Result<(), Status>
        requires few_faults { (K.view output.old).faults < COUNT_LIMIT }
        requires few { self.old.count < step_limit }
        requires admitted { further_refusal self.old.world.world self.old.companion event.now ≡ None }
        ensures kept { OnOk result (self.new.companion ≡
            (acts self.old.world.world self.old.companion event.now).companion) }
        ensures rest { record self.new { companion = self.old.companion } ≡ self.old }
        ensures ok { OnOk result (Puts (K.view output.old) (K.view output.new)
            (entry_in self.old.report (self.old.count + 1) no_entry
            (acts self.old.world.world self.old.companion event.now).lines)) }
        ensures cut { IfErr result (λ status. CutShort
            (entry_in self.old.report (self.old.count + 1) no_entry
            (acts self.old.world.world self.old.companion event.now).lines)
            (K.view output.old) (K.view output.new) status) }
    {
        let Ok(world) = self.world.get() else {
            return Err(Status::NoMemory);
        };
        match act(self.alloc, world, &mut self.companion, event) {
            Ok(lines) => {
                let entry = Entry::silent(self.alloc);
                put_step(
                    self.alloc,
                    output,
                    self.report,
                    self.count + 1,
                    &entry,
                    lines.as_slice(),
                )
            }
            Err(NoMemory) => Err(Status::NoMemory),
        }
    }

    // An event that was admitted acts beside the world: what it does is put, and counted.
    fn act_beside<K: Sink>(&mut self, output: &mut K, event: &Further) -> Result<(), Status>
        requires few_faults { (K.view output.old).faults < COUNT_LIMIT }
        requires begun { HasBegun (seen self.old) }
        requires admitted { further_refusal (seen self.old).world (seen self.old).companion event.now ≡ None }
        ensures performs { Performs self.old.report (acted self.old.line event.now
            (acts (seen self.old).world (seen self.old).companion event.now) (seen self.old))
            (K.view output.old) (K.view output.new) self.new result }
        ensures begun { OnOk result (HasBegun (seen self.new)) }
        ensures placed { place self.new ≡ place self.old }
    {
        if self.count >= STEPS {
            let status = Status::Limit {
                line: self.line,
                what: Limit::Steps,
            };
            return Err(self.end(output, status, self.line));
        }
        let number = self.count + 1;
        match self.show_act(output, event) {
            Ok(()) => {
                self.count = number;
                Ok(())
            }
            Err(status) => Err(status),
        }
    }

    // The step of the event for which a further one stands.
    fn ask_world<K: Sink>(
        &mut self,
        output: &mut K,
        asking: &Further,
        event: Event,
    ) -> Result<(), Status>
        requires few_faults { (K.view output.old).faults < COUNT_LIMIT }
        requires begun { HasBegun (seen self.old) }
        requires stands { MayStand (seen self.old).world event }
        requires counted { IsCounted event }
        ensures performs { Performs self.old.report
            (one_step self.old.line (Some asking.now) event (seen self.old))
            (K.view output.old) (K.view output.new) self.new result }
        ensures begun { OnOk result (HasBegun (seen self.new)) }
        ensures placed { place self.new ≡ place self.old }
    {
        self.take_step(output, Some(asking), &event)
    }

    // An event that was admitted happens.
    fn admit_further<K: Sink>(&mut self, output: &mut K, event: &Further) -> Result<(), Status>
        requires few_faults { (K.view output.old).faults < COUNT_LIMIT }
        requires begun { HasBegun (seen self.old) }
        requires stands { StandsFor (seen self.old).world event.now }
        requires admitted { further_refusal (seen self.old).world (seen self.old).companion event.now ≡ None }
        ensures performs { Performs self.old.report (admitted self.old.line event.now (seen self.old))
            (K.view output.old) (K.view output.new) self.new result }
        ensures begun { OnOk result (HasBegun (seen self.new)) }
        ensures placed { place self.new ≡ place self.old }
    {
        match event_of(self.alloc, event) {
            Ok(Some(asked)) => self.ask_world(output, event, asked),
            Ok(None) => self.act_beside(output, event),
            Err(NoMemory) => Err(Status::NoMemory),
        }
    }

    /// The event of a line, which is one of the command's own.
    pub fn perform_further<K: Sink>(
        &mut self,
        output: &mut K,
        event: &Further,
    ) -> Result<(), Status>
        requires few_faults { (K.view output.old).faults < COUNT_LIMIT }
        requires begun { HasBegun (seen self.old) }
        requires stands { StandsFor (seen self.old).world event.now }
        ensures performs { Performs self.old.report (one_further self.old.line event.now (seen self.old))
            (K.view output.old) (K.view output.new) self.new result }
        ensures begun { OnOk result (HasBegun (seen self.new)) }
        ensures placed { place self.new ≡ place self.old }
    {
        let Ok(world) = self.world.get() else {
            return Err(Status::NoMemory);
        };
        match further_refusal(world, &self.companion, event) {
            Some(reason) => {
                let status = Status::Refused {
                    line: self.line,
                    reason,
                };
                Err(self.end(output, status, self.line))
            }
            None => self.admit_further(output, event),
        }
    }
}
