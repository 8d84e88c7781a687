ghost use Rattle.std.specs.Prelude.{◌≡◌, ◌<◌, ◌+◌, true, length, IfErr, OnOk};
ghost use Rattle.std.specs.Option.{option_copied};
ghost use Rattle.cg_base.specs.declared.limits.TheConstants.{COUNT_LIMIT};
ghost use Rattle.cg_schedule.specs.declared.event.Event.{Event};
ghost use Rattle.cg_model.specs.Run.{MayStand, step_limit};
ghost use Rattle.cg_world.specs.Steps.{IsCounted};
ghost use Rattle.cg_items.specs.Companion.{follows};
ghost use Rattle.cg_items.specs.Items.{entry_in};
ghost use Rattle.cg_outcome.specs.Produced.{stepped, one_step};
ghost use Rattle.cg_outcome.specs.Putting.{Puts};
ghost use Rattle.cg_outcome.specs.Stopping.{CutShort};
ghost use Rattle.cg_model.specs.World.{World as WorldBefore};
ghost use Rattle.cg_run.specs.Performing.{place, seen, seen_from, Performs};
ghost use Rattle.cg_outcome.specs.UnderWay.{HasBegun};

use crate::further::follow;
use crate::progress::Run;
use cg_base::NoMemory;
use cg_group::GroupErr;
use cg_io::Sink;
use cg_outcome::{Further, Limit, STEPS, Status, put_step};
use cg_report::Entry;
use cg_schedule::Event;
use cg_short::entry_is_short;

impl Run {
    // What a step shows is put, with the lines that follow it beside the world.
    fn show_step<K: Sink>(
        &mut self,
        output: &mut K,
        asked: Option<&Further>,
        entry: &Entry,
    ) -> Result<(), Status>
        requires few_faults { (K.view output.old).faults < COUNT_LIMIT }
        requires few { self.old.count < step_limit }
        ensures kept { (event : Event) → OnOk result (self.new.companion ≡
            (follows self.old.companion (option_copied asked.entry)
            (record { event = event; entry = entry.now; world = self.old.world.world })).companion) }
        ensures rest { record self.new { companion = self.old.companion } ≡ self.old }
        ensures ok { (event : Event) → OnOk result (Puts (K.view output.old) (K.view output.new)
            (entry_in self.old.report (self.old.count + 1) entry.now
            (follows self.old.companion (option_copied asked.entry)
            (record { event = event; entry = entry.now; world = self.old.world.world })).lines)) }
        ensures cut { (event : Event) → IfErr result (λ status. CutShort
            (entry_in self.old.report (self.old.count + 1) entry.now
            (follows self.old.companion (option_copied asked.entry)
            (record { event = event; entry = entry.now; world = self.old.world.world })).lines)
            (K.view output.old) (K.view output.new) status) }
    {
        let Ok(world) = self.world.get() else {
            return Err(Status::NoMemory);
        };
        match follow(self.alloc, &mut self.companion, asked, world, entry) {
            Ok(lines) => put_step(
                self.alloc,
                output,
                self.report,
                self.count + 1,
                entry,
                lines.as_slice(),
            ),
            Err(NoMemory) => Err(Status::NoMemory),
        }
    }

    // What a step shows is put, with the lines that follow it beside the world, and the step is counted.
    fn count_entry<K: Sink>(
        &mut self,
        output: &mut K,
        asked: Option<&Further>,
        entry: &Entry,
    ) -> Result<(), Status>
        requires few_faults { (K.view output.old).faults < COUNT_LIMIT }
        ensures performs { (before : WorldBefore) (event : Event) → Performs self.old.report
            (stepped self.old.line (option_copied asked.entry) event
            (record { entry = entry.now; world = (seen self.old).world }) (seen_from before self.old))
            (K.view output.old) (K.view output.new) self.new result }
        ensures rest { record self.new {
          companion = self.old.companion;
          count = self.old.count;
          totals = self.old.totals;
        } ≡ self.old }
    {
        if self.count >= STEPS {
            let status = Status::Limit {
                line: self.line,
                what: Limit::Steps,
            };
            return Err(self.end(output, status, self.line));
        }
        let number = self.count + 1;
        entry_is_short(entry);
        let Ok(totals) = self.totals.with_entry(entry) else {
            return Err(Status::NoMemory);
        };
        match self.show_step(output, asked, entry) {
            Ok(()) => {
                self.count = number;
                self.totals = totals;
                Ok(())
            }
            Err(status) => Err(status),
        }
    }

    // The step of an event that was admitted, which has led to this world: the rest is as it was before it.
    fn count_step<K: Sink>(
        &mut self,
        output: &mut K,
        asked: Option<&Further>,
        entry: Entry,
    ) -> Result<(), Status>
        requires few_faults { (K.view output.old).faults < COUNT_LIMIT }
        requires started { (seen self.old).reader.started ≡ true }
        requires hosted { 0 < length (seen self.old).world.nodes }
        ensures performs { (before : WorldBefore) (event : Event) → Performs self.old.report
            (stepped self.old.line (option_copied asked.entry) event
            (record { entry = entry; world = (seen self.old).world }) (seen_from before self.old))
            (K.view output.old) (K.view output.new) self.new result }
        ensures begun { HasBegun (seen self.new) }
        ensures placed { place self.new ≡ place self.old }
    {
        self.count_entry(output, asked, &entry)
    }

    /// The step of an event is made, for which a further event may have asked, and what it shows is put; or the event
    /// isn't admitted.
    pub fn take_step<K: Sink>(
        &mut self,
        output: &mut K,
        asked: Option<&Further>,
        event: &Event,
    ) -> Result<(), Status>
        requires few_faults { (K.view output.old).faults < COUNT_LIMIT }
        requires started { (seen self.old).reader.started ≡ true }
        requires stands { MayStand (seen self.old).world event.now }
        requires counted { IsCounted event.now }
        ensures performs { Performs self.old.report
            (one_step self.old.line (option_copied asked.entry) event.now (seen self.old))
            (K.view output.old) (K.view output.new) self.new result }
        ensures begun { OnOk result (HasBegun (seen self.new)) }
        ensures placed { place self.new ≡ place self.old }
    {
        match self.world.step(self.alloc, event) {
            Ok(entry) => self.count_step(output, asked, entry),
            Err(GroupErr::Refused(reason)) => {
                let status = Status::Refused {
                    line: self.line,
                    reason,
                };
                Err(self.end(output, status, self.line))
            }
            Err(GroupErr::NoMemory) => Err(Status::NoMemory),
        }
    }
}
