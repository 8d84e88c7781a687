//! Who may form the next primary component: dynamic linear voting with weights.
//!
//! The rule looks at the members of the last primary component with their weights, and at those that are present; it
//! remembers nothing and takes no memory. Its one law is that two quorums of one set share a member of it, so two
//! components that don't know of each other can't both go on. Which component was the last one is left to those who ask.
#![tactic(auto)]

ghost use Rattle.std.specs.Prelude.{◌≡◌, ℕ, List, [], IsTrue, false};
ghost use Rattle.cg_base.specs.declared.weighted.Weighted.{Weighted};
ghost use Rattle.cg_vote.specs.Quorum.{is_quorum};
ghost use Rattle.cg_vote.specs.Sharing.{ShareMember};

use cg_base::{IdSet, WeightSet};

/// Whether those present may go on from the last primary component. Those present that were no members of it don't count.
#[tactic(auto, unfolding(crate::specs::Quorum::is_quorum))]
pub fn quorum(last: &WeightSet, present: &IdSet) -> bool
    ensures { result ≡ is_quorum last.now present.now }
{
    let all = u64::from(last.total());
    let twice = 2 * u64::from(last.total_of(present));
    twice > all || twice == all && last.least().is_some_and(|least| present.contains(least))
}

/// Two quorums of one set share a member of it. A set without members has no quorum.
pub fn quorums_meet()
    ensures meet { (last : List Weighted) (one other : List ℕ) → IsTrue (is_quorum last one) →
        IsTrue (is_quorum last other) → ShareMember last one other }
    ensures none_of_nothing { (here : List ℕ) → is_quorum [] here ≡ false }
{}
