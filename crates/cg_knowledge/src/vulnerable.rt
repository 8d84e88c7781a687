ghost use Rattle.std.specs.Prelude.{◌≡◌, IfOk};
ghost use Rattle.cg_knowledge.specs.Vulnerable.{is_vulnerable_for as vulnerable_for, with_bits as with_bits_of, all_bits as all_bits_of, is_long_past as long_past, is_overtaken as overtaken, is_ended_by_one as ended_by_one, is_ended_by_all as ended_by_all, is_cleared as cleared, decided as decided_of};
ghost use Rattle.cg_knowledge.specs.Verdict.{records_of as records_of_all, all_cleared as cleared_all};

use crate::primary::{known_primary, newest_index};
use crate::{Summary, VulnerableList};
use cg_base::{IdSet, NoMemory};
use cg_records::Vulnerable;
use std::alloc::Global;

fn is_vulnerable_for(s: &Summary, attempt: u64) -> bool
    ensures { result ≡ vulnerable_for attempt s.now }
{
    match &s.vulnerable {
        None => false,
        Some(v) => v.attempt == attempt,
    }
}

// the bits, with those of the member where it is vulnerable for the attempt
fn with_bits(bits: IdSet, s: &Summary, attempt: u64) -> IdSet
    ensures { result ≡ with_bits_of attempt bits s.now }
{
    match &s.vulnerable {
        Some(v) if v.attempt == attempt => bits.union(&v.bits),
        _ => bits,
    }
}

// the bits of all members that are vulnerable for the attempt
#[tactic(auto, unfolding(crate::specs::Vulnerable::all_bits))]
fn all_bits(summaries: &[Summary], attempt: u64) -> IdSet
    ensures { result ≡ all_bits_of summaries.now attempt }
{
    let mut bits = IdSet::empty();
    for s in summaries {
        bits = with_bits(bits, s, attempt);
    }
    bits
}

// two later primary components are known
#[tactic(auto, unfolding(crate::specs::Vulnerable::is_long_past))]
fn is_long_past(summaries: &[Summary], v: &Vulnerable) -> bool
    ensures { result ≡ long_past summaries.now v.now }
{
    let newest = newest_index(summaries);
    newest >= 2 && v.from <= newest - 2
}

// another attempt from the same index was installed
#[tactic(auto, unfolding(crate::specs::Vulnerable::is_overtaken))]
fn is_overtaken(summaries: &[Summary], v: &Vulnerable) -> bool
    ensures { result ≡ overtaken summaries.now v.now }
{
    let newest = newest_index(summaries);
    newest >= 1 && newest - 1 == v.from && known_primary(summaries).conf != v.attempt
}

// a member of the attempt is here without a record of it
#[tactic(auto, unfolding(crate::specs::Vulnerable::is_ended_by_one))]
fn is_ended_by_one(summaries: &[Summary], v: &Vulnerable) -> bool
    ensures { result ≡ ended_by_one summaries.now v.now }
{
    summaries.iter().any(|s| v.set.contains(s.id) && !is_vulnerable_for(s, v.attempt))
}

// each member of the attempt is known to have ended it
#[tactic(auto, unfolding(crate::specs::Vulnerable::is_ended_by_all))]
fn is_ended_by_all(summaries: &[Summary], v: &Vulnerable) -> bool
    ensures { result ≡ ended_by_all summaries.now v.now }
{
    let bits = all_bits(summaries, v.attempt);
    bits.is_within(&v.set) && v.set.is_within(&bits)
}

#[tactic(auto, unfolding(crate::specs::Vulnerable::is_cleared))]
fn is_cleared(summaries: &[Summary], v: &Vulnerable) -> bool
    ensures { result ≡ cleared summaries.now v.now }
{
    is_long_past(summaries, v)
        || is_overtaken(summaries, v)
        || is_ended_by_one(summaries, v)
        || is_ended_by_all(summaries, v)
}

/// What becomes of a record, that of a member or another one: None where it is cleared or absent.
pub fn decided(summaries: &[Summary], known: &Option<Vulnerable>) -> Option<Vulnerable>
    ensures { result ≡ decided_of summaries.now known.now }
{
    let v = (*known)?;
    if is_cleared(summaries, &v) {
        return None;
    }
    Some(Vulnerable {
        attempt: v.attempt,
        from: v.from,
        set: v.set,
        bits: all_bits(summaries, v.attempt),
    })
}

/// What becomes of each member's record.
#[tactic(auto, unfolding(crate::specs::Verdict::records_of))]
pub(crate) fn records_of(alloc: Global, summaries: &[Summary]) -> Result<VulnerableList, NoMemory>
    ensures { IfOk result (λ records. records ≡ records_of_all summaries.now) }
{
    let mut records = VulnerableList::new(alloc);
    for s in summaries {
        records.push(decided(summaries, &s.vulnerable))?;
    }
    Ok(records)
}
