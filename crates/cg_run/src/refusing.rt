//! A line that can't be read.
ghost use Rattle.std.specs.Prelude.{◌≡◌, ◌≢◌, ◌<◌};
ghost use Rattle.cg_base.specs.declared.limits.TheConstants.{COUNT_LIMIT};
ghost use Rattle.cg_schedule.specs.declared.fault.LineFault.TheVariants.{NoMemory};
ghost use Rattle.cg_outcome.specs.Outcome.{unreadable};
ghost use Rattle.cg_outcome.specs.Produced.{Progress, Produced};
ghost use Rattle.cg_outcome.specs.Stopping.{Stopped};

use crate::progress::Run;
use cg_io::Sink;
use cg_outcome::Status;
use cg_schedule::LineFault;

impl Run {
    /// The line can't be read, or memory was refused while it was.
    pub fn refuse_line<K: Sink>(&self, output: &mut K, fault: LineFault) -> Status
        requires { (K.view output.old).faults < COUNT_LIMIT }
        ensures { (s : Progress) → s.count ≡ self.now.count → (p : Produced) →
            (fault ≢ NoMemory → p ≡ unreadable self.now.line fault s) → Stopped self.now.report p
            (K.view output.old) (K.view output.new) result }
    {
        match fault {
            LineFault::Syntax(reason) => {
                let status = Status::Syntax {
                    line: self.line,
                    reason: reason.number(),
                };
                self.end(output, status, self.line)
            }
            LineFault::NoMemory => Status::NoMemory,
        }
    }
}
