//! What the members of a configuration know together, from their summaries: who left and who remains, the last primary
//! component, the attempt index, the common yellow list, what becomes of each vulnerable record, and whether those who
//! remain may form the next primary component.
//!
//! `decide` is one function of all summaries at once (`specs/Verdict.antt`), in whatever order they stand. When the
//! summaries are all there, and what follows from the verdict, is left to the layers above.
#![tactic(auto)]

mod knowledge;
mod laws;
mod members;
mod names;
mod primary;
mod summary;
mod verdict;
mod vulnerable;
mod yellow;

pub use knowledge::decide;
pub use laws::{common_yellow_stands_in_each, deciders_meet, most_updated_leads};
pub use members::{gone, most_updated, remaining, senders};
pub use primary::{known_attempt, known_primary};
pub use summary::Summary;
pub use verdict::{Verdict, VulnerableList};
pub use vulnerable::decided;
pub use yellow::common_yellow;
