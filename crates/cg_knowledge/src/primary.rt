ghost use Rattle.std.specs.Prelude.{◌≡◌};
ghost use Rattle.std.specs.Option.{option_copied};
ghost use Rattle.cg_knowledge.specs.Summaries.{lowest};
ghost use Rattle.cg_knowledge.specs.Primary.{newest, newest_index as newest_index_of, known_primary as known_primary_of, known_attempt as known_attempt_of};

use crate::Summary;
use crate::members::lower;
use cg_base::WeightSet;
use cg_records::Primary;

/// The greatest primary index.
#[tactic(auto, unfolding(crate::specs::Primary::newest_index))]
pub(crate) fn newest_index(summaries: &[Summary]) -> u64
    ensures { result ≡ newest_index_of summaries.now }
{
    let mut newest = 0;
    for s in summaries {
        newest = s.prim.index.max(newest);
    }
    newest
}

// the lowest member with the greatest primary index
#[tactic(auto, unfolding(crate::specs::Primary::newest, crate::specs::Summaries::lowest))]
fn lowest_of_newest(summaries: &[Summary]) -> Option<&Summary>
    ensures { option_copied result ≡ lowest (newest summaries.now) }
{
    let index = newest_index(summaries);
    let mut low: Option<&Summary> = None;
    for s in summaries {
        if s.prim.index == index {
            low = Some(lower(low, s));
        }
    }
    low
}

/// The known primary component: that of the lowest member with the greatest primary index.
#[tactic(auto, unfolding(crate::specs::Primary::known_primary))]
pub fn known_primary(summaries: &[Summary]) -> Primary
    ensures { result ≡ known_primary_of summaries.now }
{
    match lowest_of_newest(summaries) {
        None => Primary {
            index: 0,
            conf: 0,
            set: WeightSet::empty(),
        },
        Some(s) => s.prim,
    }
}

/// The known attempt index: the greatest of the members with the greatest primary index.
#[tactic(auto, unfolding(crate::specs::Primary::newest, crate::specs::Primary::known_attempt))]
pub fn known_attempt(summaries: &[Summary]) -> u64
    ensures { result ≡ known_attempt_of summaries.now }
{
    let index = newest_index(summaries);
    let mut attempt = 0;
    for s in summaries {
        if s.prim.index == index {
            attempt = s.attempt_index.max(attempt);
        }
    }
    attempt
}
