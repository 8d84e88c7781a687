ghost use Rattle.std.specs.Prelude.{◌≡◌, ◌+◌, ◌<◌, ◌^◌, ◌&&◌, ◌==◌, find, not, [], ◌∷◌, None};
ghost use Rattle.cg_base.specs.Lists.{first_some};
ghost use Rattle.cg_base.specs.Sets.{has};
ghost use Rattle.cg_group.specs.State.{delivered_to, regular_in, phase_of};
ghost use Rattle.cg_group.specs.declared.reason.Reason.TheVariants.{NotOneConfiguration};
ghost use Rattle.std.specs.Option.{option_map};
ghost use Rattle.cg_group.specs.Refusals.{any_of, not_up, not_regular, still_regular, is_together, not_together, left_together, order_refusal, receive_refusal, deliver_refusal, split_refusal, merge_refusal, not_one_configuration};

use crate::{Group, Phase, Reason};
use cg_base::{IdSet, ReplicaId};

// the two are transitional in one configuration with one set
fn same_phase(a: &Phase, b: &Phase) -> bool
    ensures { result ≡ left_together a.now b.now }
{
    match (a, b) {
        (
            Phase::Transitional { conf, set },
            Phase::Transitional {
                conf: other_conf,
                set: other_set,
            },
        ) => { conf == other_conf && (set.is_within(other_set) && other_set.is_within(set)) }
        _ => false,
    }
}

impl<M> Group<M> {
    // the first of the replicas that isn't up
    fn first_down(&self, set: &IdSet) -> Option<Reason>
        ensures { result ≡ any_of (not_up self.now) set.now }
    {
        for p in set.iter() {
            if !self.is_up(p) {
                return Some(Reason::NotUp(p));
            }
        }
        None
    }

    // the first of the replicas that is regular
    fn first_regular(&self, set: &IdSet) -> Option<Reason>
        ensures { result ≡ any_of (still_regular self.now) set.now }
    {
        for p in set.iter() {
            if self.is_regular(p) {
                return Some(Reason::StillRegular(p));
            }
        }
        None
    }

    // the replica came into its transitional configuration together with one of the set, and neither has left it
    fn is_together(&self, set: &IdSet, q: ReplicaId) -> bool
        ensures { result ≡ is_together self.now set.now q }
    {
        let phase = self.phase(q);
        for p in set.iter() {
            if same_phase(&self.phase(p), &phase) {
                return true;
            }
        }
        false
    }

    // the replica must be merged with the set, and isn't in it
    fn is_missing(&self, set: &IdSet, left: &IdSet, q: ReplicaId) -> bool
        ensures { result ≡ (is_together self.now set.now q && not (has set.now q) && not (has left.now q)) }
    {
        !set.contains(q) && !left.contains(q) && self.is_together(set, q)
    }

    // the first replica that must be merged with the set and isn't in it
    fn first_missing(&self, set: &IdSet, left: &IdSet) -> Option<Reason>
        ensures { result ≡ not_together self.now set.now left.now }
    {
        for member in self.members() {
            let q = member.id();
            if self.is_missing(set, left, q) {
                return Some(Reason::NotTogether(q));
            }
        }
        None
    }

    // why the replicas can't be the members of a new configuration
    pub(crate) fn merge_refusal(&self, set: &IdSet, left: &IdSet) -> Option<Reason>
        ensures { result ≡ merge_refusal self.now set.now left.now }
    {
        match set.least() {
            None => return Some(Reason::EmptySet),
            Some(_) => {}
        }
        match self.first_down(set) {
            Some(reason) => return Some(reason),
            None => {}
        }
        match self.first_regular(set) {
            Some(reason) => return Some(reason),
            None => {}
        }
        self.first_missing(set, left)
    }

    // the replica isn't up, or isn't regular
    fn not_regular(&self, p: ReplicaId) -> Option<Reason>
        ensures { result ≡ first_some (not_up self.now p ∷ not_regular self.now p ∷ []) }
    {
        if !self.is_up(p) {
            return Some(Reason::NotUp(p));
        }
        if !self.is_regular(p) {
            return Some(Reason::NotRegular(p));
        }
        None
    }

    // why the replica can't be handed so many places
    pub(crate) fn deliver_refusal(&self, p: ReplicaId, k: u64) -> Option<Reason>
        ensures reason { result ≡ deliver_refusal self.now p k }
        ensures fits { result ≡ None → delivered_to self.now p + k < 2 ^ 64 }
    {
        match self.not_regular(p) {
            Some(reason) => return Some(reason),
            None => {}
        }
        let ready = self.ready(p);
        if ready < k {
            return Some(Reason::NotReady(ready));
        }
        None
    }

    // why the replica's oldest message can't be ordered
    pub(crate) fn order_refusal(&self, p: ReplicaId) -> Option<Reason>
        ensures { result ≡ order_refusal self.now p }
    {
        match self.not_regular(p) {
            Some(reason) => return Some(reason),
            None => {}
        }
        if self.waiting(p) == 0 {
            return Some(Reason::NothingToOrder(p));
        }
        None
    }

    // why the replica can't receive the place
    pub(crate) fn receive_refusal(&self, p: ReplicaId, place: u64) -> Option<Reason>
        ensures { result ≡ receive_refusal self.now p place }
    {
        match self.not_regular(p) {
            Some(reason) => return Some(reason),
            None => {}
        }
        match self.home(p) {
            Some(log) => log.place_refusal(p, place),
            None => Some(Reason::NoSuchPlace(place)),
        }
    }

    // the first of the replicas that isn't regular
    fn first_not_regular(&self, set: &IdSet) -> Option<Reason>
        ensures { result ≡ any_of (not_regular self.now) set.now }
    {
        for p in set.iter() {
            if !self.is_regular(p) {
                return Some(Reason::NotRegular(p));
            }
        }
        None
    }

    // the first of the replicas that isn't in the configuration of the lowest
    fn first_elsewhere(&self, set: &IdSet) -> Option<Reason>
        ensures { result ≡ not_one_configuration self.now set.now }
    {
        match set.least() {
            Some(least) => self.first_outside(set, self.regular_in(least)),
            None => None,
        }
    }

    // the first of the replicas that isn't in that configuration
    fn first_outside(&self, set: &IdSet, conf: u64) -> Option<Reason>
        ensures { result ≡
            option_map NotOneConfiguration (find (λ q. not (regular_in (phase_of self.now q) == conf)) set.now) }
    {
        for q in set.iter() {
            if self.regular_in(q) != conf {
                return Some(Reason::NotOneConfiguration(q));
            }
        }
        None
    }

    // why the replicas can't leave their configuration together
    pub(crate) fn split_refusal(&self, set: &IdSet) -> Option<Reason>
        ensures { result ≡ split_refusal self.now set.now }
    {
        match set.least() {
            None => return Some(Reason::EmptySet),
            Some(_) => {}
        }
        match self.first_down(set) {
            Some(reason) => return Some(reason),
            None => {}
        }
        match self.first_not_regular(set) {
            Some(reason) => return Some(reason),
            None => {}
        }
        self.first_elsewhere(set)
    }
}
