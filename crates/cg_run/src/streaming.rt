ghost use Rattle.std.specs.Prelude.{◌≡◌, ◌<◌, ◌++◌, MatchResult, Option};
ghost use Rattle.cg_base.specs.declared.limits.TheConstants.{COUNT_LIMIT};
ghost use Rattle.cg_model.specs.World.{World as WorldOf};
ghost use Rattle.cg_outcome.specs.Outcome.{whole_line};
ghost use Rattle.cg_outcome.specs.Streaming.{first_stage, IsStage, IsUnended, IsHeld, EndsLine, HoldsRest, TakesUp, TakesTurn, Replays};
ghost use Rattle.cg_outcome.specs.Stopping.{Stopped};
ghost use Rattle.cg_run.specs.Performing.{left_of, seen, seen_stage, seen_end};

use crate::progress::Run;
use cg_base::cut_at;
use cg_io::{Sink, Source};
use cg_outcome::{Companion, INPUT_BYTES, Report, Status, TAKE_BYTES, held_limit};
use std::alloc::Global;

impl Run {
    // A line's end was taken: what is held and this piece are the line, and nothing is held behind it.
    fn end_line<K: Sink>(
        &mut self,
        output: &mut K,
        held: &mut Vec<u8>,
        piece: &[u8],
    ) -> Result<(), Status>
        requires few_faults { (K.view output.old).faults < COUNT_LIMIT }
        requires stands { IsStage (seen_stage self.old) }
        ensures ends { MatchResult result
            (λ _. EndsLine self.old.report (seen_stage self.old) (held.old.items ++ piece.now)
            (K.view output.old) (K.view output.new) held.new.items (seen_stage self.new))
            (λ status. Stopped self.old.report
            (whole_line self.old.line self.old.at (held.old.items ++ piece.now) (seen self.old))
            (K.view output.old) (K.view output.new) status) }
        ensures report { self.new.report ≡ self.old.report }
    {
        if held.extend_from_slice(piece).is_err() {
            return Err(Status::NoMemory);
        }
        let line = self.line;
        let at = self.at;
        match self.whole_line(output, held.as_slice()) {
            Ok(()) => {
                self.line = line + 1;
                self.at = at + held.len() + 1;
                held.clear();
                Ok(())
            }
            Err(status) => Err(status),
        }
    }

    // The bytes behind the last line's end are held.
    fn hold_rest<K: Sink>(
        &self,
        output: &mut K,
        held: &mut Vec<u8>,
        rest: &[u8],
    ) -> Result<(), Status>
        requires few_faults { (K.view output.old).faults < COUNT_LIMIT }
        requires stands { IsStage (seen_stage self.now) }
        requires unended { IsUnended held.old.items }
        requires unended_rest { IsUnended rest.now }
        ensures { HoldsRest self.now.report (seen_stage self.now) (held.old.items ++ rest.now)
            (K.view output.old) (K.view output.new) held.new.items (seen_end self.now result) }
    {
        if held.extend_from_slice(rest).is_err() {
            return Err(Status::NoMemory);
        }
        match held_limit(self.line, self.at, held.as_slice()) {
            Some(what) => {
                let status = Status::Limit {
                    line: self.line,
                    what,
                };
                Err(self.end(output, status, self.line))
            }
            None => Ok(()),
        }
    }

    // Each line whose end stands in the chunk is performed at once; the rest is held.
    fn take_up<K: Sink>(
        &mut self,
        output: &mut K,
        held: &mut Vec<u8>,
        chunk: &[u8],
    ) -> Result<(), Status>
        requires few_faults { (K.view output.old).faults < COUNT_LIMIT }
        requires stands { IsStage (seen_stage self.old) }
        requires unended { IsUnended held.old.items }
        ensures takes { TakesUp self.old.report (seen_stage self.old) (held.old.items ++ chunk.now)
            (K.view output.old) (K.view output.new) held.new.items (seen_end self.new result) }
        ensures report { self.new.report ≡ self.old.report }
    {
        let mut rest = chunk;
        while let Some((piece, behind)) = cut_at(rest, b'\n') {
            self.end_line(output, held, piece)?;
            rest = behind;
        }
        self.hold_rest(output, held, rest)
    }

    // One take, made while no whole line is held, and what it brings.
    fn make_turn<S: Source, K: Sink>(
        &mut self,
        input: &mut S,
        output: &mut K,
        held: &mut Vec<u8>,
    ) -> Result<(), Status>
        requires few_read_faults { (S.view input.old).faults < COUNT_LIMIT }
        requires few_write_faults { (K.view output.old).faults < COUNT_LIMIT }
        requires stands { IsStage (seen_stage self.old) }
        requires held { IsHeld (seen_stage self.old) held.old.items }
        ensures takes { TakesTurn self.old.report (seen_stage self.old)
            (record { input = S.view input.old; output = K.view output.old; held = held.old.items })
            (record { input = S.view input.new; output = K.view output.new; held = held.new.items })
            (left_of self.new) (seen_end self.new result) }
        ensures report { self.new.report ≡ self.old.report }
    {
        let mut buffer = [0u8; TAKE_BYTES];
        let room = (INPUT_BYTES + 1 - self.at - held.len()).min(TAKE_BYTES);
        match input.take(&mut buffer[..room]) {
            Err(_) => Err(self.end(output, Status::ReadFault, self.line - 1)),
            Ok(0) => Err(self.close(output, held.as_slice())),
            Ok(count) => self.take_up(output, held, &buffer[..count]),
        }
    }

    /// Replays the schedule that the input gives, from before its first line. A take is made while no whole line is
    /// held, and each line is performed, and its entries put, before more is taken: memory doesn't hold the input.
    pub fn replay<S: Source, K: Sink>(&mut self, input: &mut S, output: &mut K) -> Status
        requires few_read_faults { (S.view input.old).faults < COUNT_LIMIT }
        requires few_write_faults { (K.view output.old).faults < COUNT_LIMIT }
        requires first { seen_stage self.old ≡ first_stage self.old.companion }
        ensures { Replays self.old.report self.old.companion (S.view input.old) (S.view input.new)
            (K.view output.old) (K.view output.new) (left_of self.new) result }
    {
        let mut held = Vec::new(self.alloc);
        loop {
            match self.make_turn(input, output, &mut held) {
                Ok(()) => {}
                Err(status) => return status,
            }
        }
    }
}

/// Replays the schedule that the input gives, with this beside the world, in a run of which nothing is left.
pub fn replay_alone<S: Source, K: Sink>(
    alloc: Global,
    input: &mut S,
    output: &mut K,
    report: Report,
    companion: Companion,
) -> Status
    requires few_read_faults { (S.view input.old).faults < COUNT_LIMIT }
    requires few_write_faults { (K.view output.old).faults < COUNT_LIMIT }
    ensures { (left : Option WorldOf) × Replays report companion (S.view input.old) (S.view input.new)
        (K.view output.old) (K.view output.new) left result }
{
    let Ok(mut run) = Run::new(alloc, report, companion) else {
        return Status::NoMemory;
    };
    let status = run.replay(input, output);
    drop(run);
    status
}
