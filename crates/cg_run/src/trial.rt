ghost use Rattle.std.specs.Prelude.{◌≡◌, ◌<◌, OnOk};
ghost use Rattle.cg_base.specs.declared.limits.TheConstants.{COUNT_LIMIT};
ghost use Rattle.cg_base.specs.Sets.{IsId};
ghost use Rattle.cg_gen.specs.Generated.{generated};
ghost use Rattle.cg_schedule.specs.Print.{line_of};
ghost use Rattle.cg_outcome.specs.Outcome.{Ended, line_outcome, without_return, at_end, performed, trial_text};
ghost use Rattle.cg_items.specs.declared.companion.Companion.TheVariants.{Alone};
ghost use Rattle.cg_outcome.specs.Produced.{before_all, status_of};
ghost use Rattle.cg_outcome.specs.Putting.{StopsWith};
ghost use Rattle.cg_outcome.specs.UnderWay.{IsUnderWay};
ghost use Rattle.cg_run.specs.Performing.{place, seen, Performs};

use crate::progress::Run;
use cg_base::ReplicaId;
use cg_gen::Generator;
use cg_io::Sink;
use cg_outcome::{Companion, Report, Status, finish, put_summary, put_text, without_return};
use cg_schedule::{Event, print_line};
use std::alloc::Global;

impl Run {
    // The line of an event is replayed, whatever the limits of an input are.
    fn play_line<K: Sink>(&mut self, output: &mut K, event: &Event) -> Result<(), Status>
        requires few_faults { (K.view output.old).faults < COUNT_LIMIT }
        requires under_way { IsUnderWay (seen self.old) }
        ensures performs { Performs self.old.report
            (line_outcome self.old.line (without_return (line_of event.now)) (seen self.old))
            (K.view output.old) (K.view output.new) self.new result }
        ensures under_way { OnOk result (IsUnderWay (seen self.new)) }
        ensures placed { place self.new ≡ place self.old }
    {
        let mut text = Vec::new(self.alloc);
        if print_line(event, &mut text).is_err() {
            return Err(Status::NoMemory);
        }
        self.begin_line(output, without_return(text.as_slice()))
    }

    // The line of an event is replayed, and the event let go.
    fn play_event<K: Sink>(&mut self, output: &mut K, event: Event) -> Result<(), Status>
        requires few_faults { (K.view output.old).faults < COUNT_LIMIT }
        requires under_way { IsUnderWay (seen self.old) }
        ensures performs { Performs self.old.report
            (line_outcome self.old.line (without_return (line_of event)) (seen self.old))
            (K.view output.old) (K.view output.new) self.new result }
        ensures under_way { OnOk result (IsUnderWay (seen self.new)) }
        ensures placed { place self.new ≡ place self.old }
    {
        let played = self.play_line(output, &event);
        drop(event);
        played
    }

    // The schedule has ended behind so many lines: the summary is put.
    fn end_trial<K: Sink>(&self, output: &mut K, lines: u64) -> Status
        requires { (K.view output.old).faults < COUNT_LIMIT }
        ensures { StopsWith (trial_text (at_end lines Ended (seen self.now)))
            (status_of (at_end lines Ended (seen self.now))) (K.view output.old) (K.view output.new) result }
    {
        if !self.reader.state().ended {
            return finish(
                self.alloc,
                output,
                Report::Tail,
                Status::NoEnd { lines },
                self.count,
                lines,
            );
        }
        let mut text = Vec::new(self.alloc);
        if put_summary(&mut text, self.count, &self.totals).is_err() {
            return Status::NoMemory;
        }
        match put_text(self.alloc, output, &text) {
            Ok(()) => Status::Done,
            Err(other) => other,
        }
    }
}

/// Replays the schedule of a seed, and puts the summary, or what was found. Each line is made when its turn comes.
pub fn try_schedule<K: Sink>(
    alloc: Global,
    output: &mut K,
    seed: u64,
    replicas: u8,
    lines: u64,
) -> Status
    requires few_faults { (K.view output.old).faults < COUNT_LIMIT }
    requires replicas { IsId replicas }
    ensures { StopsWith (trial_text (performed 0 (generated seed replicas lines) (before_all Alone)))
        (status_of (performed 0 (generated seed replicas lines) (before_all Alone)))
        (K.view output.old) (K.view output.new) result }
{
    let Ok(schedule) = Generator::new(alloc, seed, ReplicaId::known(replicas), lines) else {
        return Status::NoMemory;
    };
    let Ok(first) = Run::new(alloc, Report::Tail, Companion::Alone) else {
        return Status::NoMemory;
    };
    let mut events = schedule;
    let mut run = first;
    let mut gone = 0;
    loop {
        match events.next(alloc) {
            Ok(Some(event)) => {
                run.line = gone + 1;
                match run.play_event(output, event) {
                    Ok(()) => gone += 1,
                    Err(status) => return status,
                }
            }
            Ok(None) => return run.end_trial(output, gone),
            Err(_) => return Status::NoMemory,
        }
    }
}
