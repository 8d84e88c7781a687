ghost use Rattle.cg_laws.specs.Admitted.{GeneratedAreAdmitted, TrialsAreAdmitted, TrialsEnd, TrialsAreReplays};

use cg_schedule::printed_lines_are_read;

/// Every generated schedule is admitted, from its start to its end: the run of its events is refused nowhere, a trial of it comes to no
/// refusal, and a trial of two lines or more to its end or to the limit of steps. A replay of its lines, where they are within the limits
/// of an input, comes to what the trial comes to.
pub fn generated_schedules_are_admitted()
    ensures run { GeneratedAreAdmitted }
    ensures trial { TrialsAreAdmitted }
    ensures ends { TrialsEnd }
    ensures replay { TrialsAreReplays }
{
    printed_lines_are_read();
}
