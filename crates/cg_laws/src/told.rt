ghost use Rattle.cg_laws.specs.Told.{ReportsTellTheirTranscripts, WholeReportsTellTheirTranscripts};
ghost use Rattle.cg_laws.specs.ToldJson.{JsonReportsTellTheirTranscripts, WholeJsonReportsTellTheirTranscripts};
ghost use Rattle.cg_laws.specs.TwoRuns.{RunsTell};
ghost use Rattle.cg_items.specs.declared.report.Report.TheVariants.{Whole, Json};

use cg_outcome::{ArgText, outcomes_agree};

/// Two reports with one text, without their tails or with them, come from transcripts that differ in silent entries at
/// their ends alone, where no number in them has more than 64 digits; and their tails are one.
pub fn reports_tell_their_transcripts()
    ensures entries { ReportsTellTheirTranscripts }
    ensures whole { WholeReportsTellTheirTranscripts }
{}

/// The same of JSON reports.
pub fn json_reports_tell_their_transcripts()
    ensures entries { JsonReportsTellTheirTranscripts }
    ensures whole { WholeJsonReportsTellTheirTranscripts }
{}

/// Two runs that have put the same bytes, reports with their tails, have shown the same, up to silent entries at their
/// ends, and have one last line; nothing has to be known of the numbers in them. So it is with JSON reports.
pub fn runs_tell_their_transcripts(words: &[ArgText], others: &[ArgText])
    ensures whole { RunsTell Whole words.now others.now }
    ensures json { RunsTell Json words.now others.now }
{
    outcomes_agree(words);
    outcomes_agree(others);
}
