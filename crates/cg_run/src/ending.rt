//! A run ends: by what was found in a line, or where its input does.
ghost use Rattle.std.specs.Prelude.{◌≡◌, ◌<◌};
ghost use Rattle.cg_base.specs.declared.limits.TheConstants.{COUNT_LIMIT};
ghost use Rattle.cg_outcome.specs.Outcome.{Ended, at_end};
ghost use Rattle.cg_outcome.specs.declared.status.Status.TheVariants as status;
ghost use Rattle.cg_outcome.specs.Produced.{ended_with};
ghost use Rattle.cg_outcome.specs.Stopping.{Leaves, Stopped, IsFinding};
ghost use Rattle.cg_outcome.specs.Streaming.{IsHeld, IsStage, from_stage};
ghost use Rattle.cg_run.specs.Performing.{left_of, place, seen, seen_stage};

use crate::progress::Run;
use cg_io::Sink;
use cg_outcome::{Report, Status, finish, finish_logs};

impl Run {
    /// It ends with what was found, behind so many lines: what its report has at the end is put.
    pub fn end<K: Sink>(&self, output: &mut K, status: Status, lines: u64) -> Status
        requires few_faults { (K.view output.old).faults < COUNT_LIMIT }
        requires finding { IsFinding status }
        ensures { Stopped self.now.report (ended_with status lines (seen self.now))
            (K.view output.old) (K.view output.new) result }
    {
        match status {
            Status::Done => self.end_done(output, lines),
            _ => finish(self.alloc, output, self.report, status, self.count, lines),
        }
    }

    fn end_done<K: Sink>(&self, output: &mut K, lines: u64) -> Status
        requires { (K.view output.old).faults < COUNT_LIMIT }
        ensures { Stopped self.now.report (ended_with status.Done lines (seen self.now))
            (K.view output.old) (K.view output.new) result }
    {
        match self.report {
            Report::Joined => finish_logs(self.alloc, output, &self.logs),
            Report::Inspected => Status::Done,
            Report::Imaged => Status::Done,
            _ => finish(
                self.alloc,
                output,
                self.report,
                Status::Done,
                self.count,
                lines,
            ),
        }
    }

    /// Nothing stands behind so many lines: it is done there, where its end was read.
    pub fn end_input<K: Sink>(&self, output: &mut K, lines: u64) -> Status
        requires { (K.view output.old).faults < COUNT_LIMIT }
        ensures { Stopped self.now.report (at_end lines Ended (seen self.now))
            (K.view output.old) (K.view output.new) result }
    {
        if self.reader.state().ended {
            self.end(output, Status::Done, lines)
        } else {
            self.end(output, Status::NoEnd { lines }, lines)
        }
    }

    /// The input has ended behind these bytes of a line, which pass no limit.
    pub fn close<K: Sink>(&mut self, output: &mut K, rest: &[u8]) -> Status
        requires few_faults { (K.view output.old).faults < COUNT_LIMIT }
        requires stands { IsStage (seen_stage self.old) }
        requires held { IsHeld (seen_stage self.old) rest.now }
        ensures stopped { Stopped self.old.report (from_stage (seen_stage self.old) rest.now Ended)
            (K.view output.old) (K.view output.new) result }
        ensures left { Leaves result self.old.report
            (from_stage (seen_stage self.old) rest.now Ended).progress.world (left_of self.new) }
        ensures placed { place self.new ≡ place self.old }
    {
        if rest.is_empty() {
            return self.end_input(output, self.line - 1);
        }
        match self.begin_line(output, rest) {
            Ok(()) => self.end_input(output, self.line),
            Err(status) => status,
        }
    }
}
