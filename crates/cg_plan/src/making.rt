ghost use Rattle.std.specs.Prelude.{◌≡◌, ◌++◌, Some, OnOk, IfOk};
ghost use Rattle.std.specs.Option.{option_copied};
ghost use Rattle.cg_knowledge.specs.Summaries.{most_updated as most_updated_of, remaining as remaining_of};
ghost use Rattle.cg_plan.specs.Plan.{least_greens as least_greens_of, green_part, farther as farther_of, farthest as farthest_of, least_reds as least_reds_of, reds_of, creators as creators_of, plan_of};

use crate::{Part, SentPart};
use cg_base::{IdSet, NoMemory, ReplicaId, lesser};
use cg_knowledge::{Summary, most_updated, remaining};
use std::alloc::Global;

// the greens that each remaining member has
#[tactic(auto, unfolding(crate::specs::Plan::least_greens, crate::specs::Plan::of_remaining))]
fn least_greens(summaries: &[Summary]) -> Option<u64>
    ensures { result ≡ least_greens_of summaries.now }
{
    let members = remaining(summaries);
    let mut least = None;
    for s in summaries {
        if members.contains(s.id) {
            least = lesser(least, s.green_count);
        }
    }
    least
}

// the creator's actions that each of these members knows, who are the remaining ones
#[tactic(auto, unfolding(crate::specs::Plan::least_reds, crate::specs::Plan::of_remaining))]
fn least_reds(summaries: &[Summary], present: &IdSet, creator: ReplicaId) -> Option<u64>
    requires { present.now ≡ remaining_of summaries.now }
    ensures { result ≡ least_reds_of summaries.now creator }
{
    let mut least = None;
    for s in summaries {
        if present.contains(s.id) {
            least = lesser(least, s.red_cut.get(creator));
        }
    }
    least
}

// the one of the two that knows more of the creator's actions, and among equals the one with the lower identifier
fn farther<'a>(best: Option<&'a Summary>, s: &'a Summary, creator: ReplicaId) -> &'a Summary
    ensures { Some result.now ≡ farther_of creator (option_copied best.entry) s.now }
{
    match best {
        None => s,
        Some(t) => {
            let index = s.red_cut.get(creator);
            let known = t.red_cut.get(creator);
            if index > known || index == known && s.id.get() < t.id.get() {
                s
            } else {
                t
            }
        }
    }
}

// the member that knows the most of a creator's actions, and among equals the lowest
#[tactic(auto, unfolding(crate::specs::Plan::farthest))]
fn farthest(summaries: &[Summary], creator: ReplicaId) -> Option<&Summary>
    ensures { option_copied result ≡ farthest_of summaries.now creator }
{
    let mut best: Option<&Summary> = None;
    for s in summaries {
        best = Some(farther(best, s, creator));
    }
    best
}

// the creators of which some member knows an action
#[tactic(auto, unfolding(crate::specs::Plan::creators))]
fn creators(summaries: &[Summary]) -> IdSet
    ensures { result ≡ creators_of summaries.now }
{
    let mut set = IdSet::empty();
    for s in summaries {
        set = set.union(&s.red_cut.creators());
    }
    set
}

fn push_greens(turns: &mut Vec<SentPart>, summaries: &[Summary]) -> Result<(), NoMemory>
    ensures { OnOk result (turns.new.items ≡ turns.old.items
        ++ green_part (most_updated_of summaries.now) (least_greens_of summaries.now)) }
{
    let Some(best) = most_updated(summaries) else {
        return Ok(());
    };
    let Some(low) = least_greens(summaries) else {
        return Ok(());
    };
    if low >= best.green_count {
        return Ok(());
    }
    turns.push(SentPart {
        sender: best.id,
        part: Part::Greens {
            from: low + 1,
            to: best.green_count,
        },
    })?;
    Ok(())
}

// the part of one creator, given the most updated member and those who remain
#[tactic(auto, unfolding(crate::specs::Plan::reds_of))]
fn push_reds(
    turns: &mut Vec<SentPart>,
    summaries: &[Summary],
    best: Option<&Summary>,
    present: &IdSet,
    creator: ReplicaId,
) -> Result<(), NoMemory>
    requires best { option_copied best ≡ most_updated_of summaries.now }
    requires present { present.now ≡ remaining_of summaries.now }
    ensures { OnOk result (turns.new.items ≡ turns.old.items ++ reds_of summaries.now creator) }
{
    let Some(best) = best else {
        return Ok(());
    };
    let Some(holder) = farthest(summaries, creator) else {
        return Ok(());
    };
    let Some(low) = least_reds(summaries, present, creator) else {
        return Ok(());
    };
    let from = low.max(best.green_cut.get(creator));
    let to = holder.red_cut.get(creator);
    if from >= to {
        return Ok(());
    }
    turns.push(SentPart {
        sender: holder.id,
        part: Part::Reds {
            creator,
            from: from + 1,
            to,
        },
    })?;
    Ok(())
}

/// The parts of the plan, in order.
#[tactic(auto, unfolding(crate::specs::Plan::plan_of))]
pub(crate) fn turns_of(alloc: Global, summaries: &[Summary]) -> Result<Vec<SentPart>, NoMemory>
    ensures { IfOk result (λ turns. turns.items ≡ plan_of summaries.now) }
{
    let mut turns = Vec::new(alloc);
    push_greens(&mut turns, summaries)?;
    // the same for each creator
    let best = most_updated(summaries);
    let present = remaining(summaries);
    let set = creators(summaries);
    for creator in set.iter() {
        push_reds(&mut turns, summaries, best, &present, creator)?;
    }
    Ok(turns)
}
