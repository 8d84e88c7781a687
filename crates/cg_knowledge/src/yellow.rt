ghost use Rattle.std.specs.Prelude.{◌≡◌, false, not, nat_le, IfOk, filter};
ghost use Rattle.std.specs.Option.{option_copied, option_map_or};
ghost use Rattle.cg_base.specs.Cuts.{index_in};
ghost use Rattle.cg_knowledge.specs.Summaries.{lowest};
ghost use Rattle.cg_knowledge.specs.Yellow.{yellow_group, is_green_at_most, is_common as common, common_yellow as common_yellow_of};

use crate::Summary;
use crate::members::{lower, most_updated};
use crate::names::keep_shared;
use crate::primary::newest_index;
use cg_base::{ActionId, IdList, NoMemory};
use cg_records::Yellow;
use std::alloc::Global;

// the lowest member of those whose yellow lists count
#[tactic(auto, unfolding(crate::specs::Primary::newest, crate::specs::Yellow::yellow_group, crate::specs::Summaries::lowest))]
fn lowest_of_group(summaries: &[Summary]) -> Option<&Summary>
    ensures { option_copied result ≡ lowest (yellow_group summaries.now) }
{
    let index = newest_index(summaries);
    let mut low: Option<&Summary> = None;
    for s in summaries {
        if s.prim.index == index && s.yellow.valid {
            low = Some(lower(low, s));
        }
    }
    low
}

fn is_green_at(best: Option<&Summary>, id: &ActionId) -> bool
    ensures { result ≡ option_map_or (λ s. nat_le id.now.index (index_in s.green_cut id.now.creator))
        (option_copied best.entry) false }
{
    match best {
        None => false,
        Some(s) => id.index <= s.green_cut.get(id.creator),
    }
}

// the names that aren't green at the most updated member
fn without_greens(
    alloc: Global,
    summaries: &[Summary],
    list: &[ActionId],
) -> Result<Vec<ActionId>, NoMemory>
    ensures { IfOk result (λ names. names.items ≡ filter (λ id. not (is_green_at_most summaries.now id)) list.now) }
{
    let best = most_updated(summaries);
    let names = list
        .iter()
        .copied()
        .filter(|id| !is_green_at(best, id))
        .collect(alloc)?;
    Ok(names)
}

fn common_names(alloc: Global, summaries: &[Summary], list: &[ActionId]) -> Result<IdList, NoMemory>
    ensures { IfOk result (λ ids. ids ≡ filter (common summaries.now) list.now) }
{
    let newest = newest_index(summaries);
    // the greens go first, so that there is less to look for
    let mut names = without_greens(alloc, summaries, list)?;
    for s in summaries {
        if s.prim.index == newest && s.yellow.valid {
            keep_shared(alloc, &mut names, s.yellow.list.as_slice())?;
        }
    }
    Ok(IdList::from_vec(names))
}

/// The yellow actions that the members have in common.
#[tactic(auto, unfolding(crate::specs::Yellow::common_yellow))]
pub fn common_yellow(alloc: Global, summaries: &[Summary]) -> Result<Yellow, NoMemory>
    ensures { IfOk result (λ y. y ≡ common_yellow_of summaries.now) }
{
    match lowest_of_group(summaries) {
        None => Ok(Yellow::none(alloc)),
        Some(low) => {
            let list = common_names(alloc, summaries, low.yellow.list.as_slice())?;
            Ok(Yellow { valid: true, list })
        }
    }
}
