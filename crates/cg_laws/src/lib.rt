//! Laws on which nothing stands: what a report tells, that generated schedules run to their end, and that the order of
//! summaries doesn't matter.
//!
//! - Two reports with one text come from one transcript, up to silent entries at its end (`told.rt`): nothing that steps
//!   show is lost in their text, where no number has more digits than are printed; and over runs (`specs/TwoRuns.antt`),
//!   where that is always so (`cg_short`).
//! - No event of a generated schedule is refused (`generated.rt`). What the generator does is said by `cg_gen`.
//! - What the members of an exchange know together, and what they send again, is the same whatever the order of their
//!   summaries (`reordered.rt`): each member may keep them as they came.
#![tactic(auto)]

mod generated;
mod reordered;
mod told;

pub use generated::generated_schedules_are_admitted;
pub use reordered::order_does_not_matter;
pub use told::{
    json_reports_tell_their_transcripts, reports_tell_their_transcripts,
    runs_tell_their_transcripts,
};
