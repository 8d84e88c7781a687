//! Lines of logs, which are compared: each log is kept.
ghost use Rattle.std.specs.Prelude.{◌≡◌, ◌<◌, Ok, OnOk, Some};
ghost use Rattle.cg_base.specs.declared.limits.TheConstants.{COUNT_LIMIT};
ghost use Rattle.cg_io.specs.Outside.{SinkView};
ghost use Rattle.cg_items.specs.declared.companion.Companion.TheVariants.{Comparing};
ghost use Rattle.cg_outcome.specs.Outcome.{line_outcome, log_outcome};
ghost use Rattle.cg_outcome.specs.Produced.{went_on};
ghost use Rattle.cg_outcome.specs.UnderWay.{IsUnderWay};
ghost use Rattle.cg_run.specs.Performing.{place, seen, Performs};

use crate::progress::Run;
use cg_base::NoMemory;
use cg_compare::{Log, LogLine, read_log_line};
use cg_io::Sink;
use cg_outcome::Status;

impl Run {
    // What the line says is kept.
    fn keep(&mut self, read: LogLine) -> Result<(), NoMemory>
        ensures kept { OnOk result
            (went_on (seen self.new) ≡ log_outcome self.old.line (Ok (Some read)) (seen self.old)) }
        ensures placed { place self.new ≡ place self.old }
    {
        match read {
            LogLine::Log { white, list } => self.logs.push(Log {
                line: self.line,
                white,
                list,
            }),
            LogLine::End => {
                self.reader.end_logs();
                Ok(())
            }
        }
    }

    // A line that was read.
    fn take_line(&mut self, read: LogLine) -> Result<(), Status>
        requires { (seen self.old).companion ≡ Comparing }
        ensures performs { (shown : SinkView) → Performs
            self.old.report (log_outcome self.old.line (Ok (Some read)) (seen self.old)) shown shown self.new result }
        ensures under_way { IsUnderWay (seen self.old) → OnOk result (IsUnderWay (seen self.new)) }
        ensures placed { place self.new ≡ place self.old }
    {
        match self.keep(read) {
            Ok(()) => Ok(()),
            Err(NoMemory) => Err(Status::NoMemory),
        }
    }

    /// A line of logs, without its end.
    pub fn begin_log<K: Sink>(&mut self, output: &mut K, text: &[u8]) -> Result<(), Status>
        requires few_faults { (K.view output.old).faults < COUNT_LIMIT }
        requires compares { (seen self.old).companion ≡ Comparing }
        requires under_way { IsUnderWay (seen self.old) }
        ensures performs { Performs self.old.report (line_outcome self.old.line text.now (seen self.old))
            (K.view output.old) (K.view output.new) self.new result }
        ensures under_way { OnOk result (IsUnderWay (seen self.new)) }
        ensures placed { place self.new ≡ place self.old }
    {
        match read_log_line(self.alloc, self.reader.state().ended, text) {
            Ok(None) => Ok(()),
            Ok(Some(read)) => self.take_line(read),
            Err(fault) => Err(self.refuse_line(output, fault)),
        }
    }
}
