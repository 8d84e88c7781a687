ghost use Rattle.std.specs.Prelude.{◌≡◌, Some};
ghost use Rattle.std.specs.Option.{option_copied};
ghost use Rattle.cg_knowledge.specs.Summaries.{leader as leader_of, lower as lower_of, gone as gone_of, most_updated as most_updated_of, remaining as remaining_of, senders as senders_of};

use crate::Summary;
use cg_base::IdSet;

/// The members of the exchange.
#[tactic(auto, unfolding(crate::specs::Summaries::senders))]
pub fn senders(summaries: &[Summary]) -> IdSet
    ensures { result ≡ senders_of summaries.now }
{
    let mut set = IdSet::empty();
    for s in summaries {
        set.add(s.id);
    }
    set
}

// the one of the two with more greens, and among equals the one with the lower identifier
fn leader<'a>(best: Option<&'a Summary>, s: &'a Summary) -> &'a Summary
    ensures { Some result.now ≡ leader_of (option_copied best.entry) s.now }
{
    match best {
        None => s,
        Some(t) => {
            if s.green_count > t.green_count
                || s.green_count == t.green_count && s.id.get() < t.id.get()
            {
                s
            } else {
                t
            }
        }
    }
}

/// The member with the most greens, and among equals the one with the lowest identifier. None says that there is no member.
#[tactic(auto, unfolding(crate::specs::Summaries::most_updated))]
pub fn most_updated(summaries: &[Summary]) -> Option<&Summary>
    ensures { option_copied result ≡ most_updated_of summaries.now }
{
    let mut best: Option<&Summary> = None;
    for s in summaries {
        best = Some(leader(best, s));
    }
    best
}

// the one of the two with the lower identifier
pub(crate) fn lower<'a>(low: Option<&'a Summary>, s: &'a Summary) -> &'a Summary
    ensures { Some result.now ≡ lower_of (option_copied low.entry) s.now }
{
    match low {
        None => s,
        Some(t) => { if s.id.get() < t.id.get() { s } else { t } }
    }
}

/// The members that have left, as the most updated member knows.
#[tactic(auto, unfolding(crate::specs::Summaries::gone))]
pub fn gone(summaries: &[Summary]) -> IdSet
    ensures { result ≡ gone_of summaries.now }
{
    match most_updated(summaries) {
        None => IdSet::empty(),
        Some(best) => senders(summaries).common(&best.left),
    }
}

/// The members that remain.
#[tactic(auto, unfolding(crate::specs::Summaries::remaining))]
pub fn remaining(summaries: &[Summary]) -> IdSet
    ensures { result ≡ remaining_of summaries.now }
{
    senders(summaries).without(&gone(summaries))
}
