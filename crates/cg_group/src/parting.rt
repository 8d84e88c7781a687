ghost use Rattle.std.specs.Prelude.{◌≡◌, ◌++◌, ◌∷◌, map, fold, filter, length, if◌then◌else◌, [], IfOk, OnOk, OnErr};
ghost use Rattle.std.specs.List.{list_any};
ghost use Rattle.cg_base.specs.Lists.{above_up_to};
ghost use Rattle.cg_group.specs.State.{has_received, home};
ghost use Rattle.cg_group.specs.Events.{split, furthest, handed_in_split, become_transitional, delivery_at, deliveries_at, transitional_places};
ghost use Rattle.cg_group.specs.Refusals.{split_refusal};
ghost use Rattle.cg_group.specs.Answers.{IsAnswer};
ghost use Rattle.cg_group.specs.Rosters.{AllUp};

use crate::configuration_log::ConfigurationLog;
use crate::{Delivery, Group, GroupErr, Handed, TryClone};
use cg_base::{IdSet, NoMemory, ReplicaId, Row};
use std::alloc::Global;

impl<M> ConfigurationLog<M> {
    // one of the replicas has received the place
    fn is_received_by_any(&self, set: &IdSet, place: u64) -> bool
        ensures { result ≡ list_any (λ q. has_received self.now.configuration q place) set.now }
    {
        for q in set.iter() {
            if self.has_received(q, place) {
                return true;
            }
        }
        false
    }
}

impl<M: Drop + TryClone> ConfigurationLog<M> {
    // puts the message of a place that one of the replicas has received
    fn put_if_received(
        &self,
        alloc: Global,
        set: &IdSet,
        place: u64,
        out: &mut Vec<Delivery<M>>,
    ) -> Result<(), NoMemory>
        ensures { OnOk result (out.new.items ≡ out.old.items
            ++ (if list_any (λ q. has_received self.now.configuration q place) set.now
            then delivery_at self.now.configuration place else [])) }
    {
        if self.is_received_by_any(set, place) {
            return self.put_delivery(alloc, place, out);
        }
        Ok(())
    }

    // puts the messages behind the first ones that one of the replicas has received
    fn put_later(
        &self,
        alloc: Global,
        set: &IdSet,
        first: u64,
        out: &mut Vec<Delivery<M>>,
    ) -> Result<(), NoMemory>
        ensures { OnOk result (out.new.items ≡ out.old.items
            ++ deliveries_at self.now.configuration (transitional_places self.now.configuration set.now first)) }
    {
        let len = self.len() as u64;
        for place in first..len {
            self.put_if_received(alloc, set, place + 1, out)?;
        }
        Ok(())
    }
}

impl<M: Drop + TryClone> Group<M> {
    /// The replicas of the set leave their configuration together. Each of them, ascending, is handed the places that another
    /// of them was handed before it, then the transitional configuration, and then the places behind these that one of them has received.
    ///
    /// It is refused by the first that holds: `EmptySet`; `NotUp` or `NotRegular` of the lowest replica of the set;
    /// `NotOneConfiguration` with the lowest that isn't in the configuration of the lowest of all.
    pub fn split(&mut self, set: IdSet) -> Result<Row<Handed<M>>, GroupErr>
        ensures answer { IsAnswer (split_refusal self.old set) result }
        ensures ok { IfOk result (λ handed. (self.new ≡ (split self.old set).group)
            × (handed ≡ (split self.old set).handed)) }
        ensures err { OnErr result (self.new ≡ self.old) }
    {
        match self.split_refusal(&set) {
            Some(reason) => Err(GroupErr::Refused(reason)),
            None => {
                let handed = self.split_admitted(&set)?;
                Ok(handed)
            }
        }
    }

    #[tactic(auto, unfolding(crate::specs::Events::split))]
    fn split_admitted(&mut self, set: &IdSet) -> Result<Row<Handed<M>>, NoMemory>
        requires { AllUp self.old set.now }
        ensures ok { IfOk result (λ handed. (self.new ≡ (split self.old set.now).group)
            × (handed ≡ (split self.old set.now).handed)) }
        ensures err { OnErr result (self.new ≡ self.old) }
    {
        let handed = self.hand_split_to_all(set)?;
        self.part(set);
        Ok(Row::from_vec(handed))
    }

    // what each of the set is handed as it parts
    fn hand_split_to_all(&self, set: &IdSet) -> Result<Vec<Handed<M>>, NoMemory>
        ensures { IfOk result (λ handed. handed.items ≡ map (handed_in_split self.now set.now) set.now) }
    {
        let first = self.furthest(set);
        let mut handed = Vec::new(self.alloc());
        for p in set.iter() {
            let next = self.hand_split(set, first, p)?;
            handed.push(next)?;
        }
        Ok(handed)
    }

    // what one of the set is handed as it parts, where the furthest was handed the first places, so many
    fn hand_split(&self, set: &IdSet, first: u64, p: ReplicaId) -> Result<Handed<M>, NoMemory>
        requires { first ≡ furthest self.now set.now }
        ensures { IfOk result (λ handed. handed ≡ handed_in_split self.now set.now p) }
    {
        let mut list = Vec::new(self.alloc());
        self.put_deliveries(p, self.delivered(p), first, &mut list)?;
        let conf = self.regular_in(p);
        list.push(Delivery::Transitional { conf, set: *set })?;
        self.put_later(p, set, first, &mut list)?;
        Ok(Handed {
            to: p,
            list: Row::from_vec(list),
        })
    }

    // puts the messages of a replica's configuration behind the first ones that one of the set has received
    fn put_later(
        &self,
        p: ReplicaId,
        set: &IdSet,
        first: u64,
        out: &mut Vec<Delivery<M>>,
    ) -> Result<(), NoMemory>
        ensures { OnOk result (out.new.items ≡ out.old.items
            ++ deliveries_at (home self.now p) (transitional_places (home self.now p) set.now first)) }
    {
        match self.home(p) {
            Some(log) => log.put_later(self.alloc(), set, first, out),
            None => Ok(()),
        }
    }

    // the greatest number of places that one of the set was handed
    fn furthest(&self, set: &IdSet) -> u64
        ensures { result ≡ furthest self.now set.now }
    {
        let mut most: u64 = 0;
        for p in set.iter() {
            most = most.max(self.delivered(p));
        }
        most
    }

    // each of the set leaves its configuration
    fn part(&mut self, set: &IdSet)
        requires { AllUp self.old set.now }
        ensures { self.new ≡ fold (become_transitional set.now) self.old set.now }
    {
        for p in set.iter() {
            self.become_transitional(p, set);
        }
    }
}
