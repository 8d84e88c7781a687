ghost use Rattle.std.specs.Prelude.{◌≡◌, IfOk, is_none};
ghost use Rattle.std.specs.List.{list_all};
ghost use Rattle.cg_knowledge.specs.Calls.{verdict_of};

use crate::members::{gone, remaining};
use crate::primary::{known_attempt, known_primary};
use crate::vulnerable::records_of;
use crate::yellow::common_yellow;
use crate::{Summary, Verdict, VulnerableList};
use cg_base::NoMemory;
use cg_vote::quorum;
use std::alloc::Global;

// no record stays
fn are_cleared(records: &VulnerableList) -> bool
    ensures { result ≡ list_all is_none records.now }
{
    records.as_slice().iter().all(|record| record.is_none())
}

/// What follows from the summaries of all members of a configuration, in whatever order they stand. Members that have left
/// count as present for the records.
#[tactic(auto, unfolding(crate::specs::Calls::verdict_of, crate::specs::Verdict::decides, crate::specs::Verdict::all_cleared))]
pub fn decide(alloc: Global, summaries: &[Summary]) -> Result<Verdict, NoMemory>
    ensures { IfOk result (λ verdict. verdict ≡ verdict_of summaries.now) }
{
    let prim = known_primary(summaries);
    let yellow = common_yellow(alloc, summaries)?;
    let vulnerable = records_of(alloc, summaries)?;
    let quorum = quorum(&prim.set, &remaining(summaries)) && are_cleared(&vulnerable);
    Ok(Verdict {
        prim,
        attempt_index: known_attempt(summaries),
        yellow,
        vulnerable,
        gone: gone(summaries),
        quorum,
    })
}
