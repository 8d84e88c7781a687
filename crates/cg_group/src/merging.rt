ghost use Rattle.std.specs.Prelude.{◌≡◌, [], ◌∷◌, fold, map, IfOk, OnErr};
ghost use Rattle.cg_group.specs.declared.delivery.Delivery.TheVariants.{Regular as RegularIn};
ghost use Rattle.cg_group.specs.Events.{merge, become_regular};
ghost use Rattle.cg_group.specs.Refusals.{merge_refusal};
ghost use Rattle.cg_group.specs.Answers.{IsAnswer};
ghost use Rattle.cg_group.specs.Rosters.{AllUp};

use crate::{Delivery, Group, GroupErr, Handed};
use cg_base::{IdSet, NoMemory, ReplicaId, Row};
use std::alloc::Global;

// a replica is handed a regular configuration
fn hand_regular<M: Drop>(
    alloc: Global,
    to: ReplicaId,
    conf: u64,
    set: IdSet,
) -> Result<Handed<M>, NoMemory>
    ensures { IfOk result (λ handed. handed ≡ record { to = to; list = RegularIn conf set ∷ [] }) }
{
    let mut list = Row::new(alloc);
    list.push(Delivery::Regular { conf, set })?;
    Ok(Handed { to, list })
}

// each member of the set is handed the regular configuration
fn hand_regular_to_all<M: Drop>(
    alloc: Global,
    conf: u64,
    set: &IdSet,
) -> Result<Vec<Handed<M>>, NoMemory>
    ensures { IfOk result (λ handed. handed.items ≡
        map (λ p. record { to = p; list = RegularIn conf set.now ∷ [] }) set.now) }
{
    let mut handed = Vec::new(alloc);
    for p in set.iter() {
        let next = hand_regular(alloc, p, conf, *set)?;
        handed.push(next)?;
    }
    Ok(handed)
}

impl<M: Drop> Group<M> {
    /// A new configuration of these replicas is made, and handed to each of them, ascending. `left` names the replicas that have
    /// left for good.
    ///
    /// It is refused by the first that holds: `EmptySet`; `NotUp` or `StillRegular` of the lowest replica of the set;
    /// `NotTogether` of the lowest replica that parted together with one of the set and is still there, but neither in the set nor in
    /// `left`.
    pub fn merge(&mut self, set: IdSet, left: IdSet) -> Result<Row<Handed<M>>, GroupErr>
        ensures answer { IsAnswer (merge_refusal self.old set left) result }
        ensures ok { IfOk result (λ handed. (self.new ≡ (merge self.old set).group)
            × (handed ≡ (merge self.old set).handed)) }
        ensures err { OnErr result (self.new ≡ self.old) }
    {
        match self.merge_refusal(&set, &left) {
            Some(reason) => Err(GroupErr::Refused(reason)),
            None => {
                let handed = self.merge_admitted(&set)?;
                Ok(handed)
            }
        }
    }

    fn merge_admitted(&mut self, set: &IdSet) -> Result<Row<Handed<M>>, NoMemory>
        requires { AllUp self.old set.now }
        ensures ok { IfOk result (λ handed. (self.new ≡ (merge self.old set.now).group)
            × (handed ≡ (merge self.old set.now).handed)) }
        ensures err { OnErr result (self.new ≡ self.old) }
    {
        let conf = self.next_conf();
        let handed = hand_regular_to_all(self.alloc(), conf, set)?;
        self.open(*set)?;
        self.enter_regular(set, conf);
        Ok(Row::from_vec(handed))
    }

    // each member of the set begins the regular phase of the configuration
    fn enter_regular(&mut self, set: &IdSet, conf: u64)
        requires { AllUp self.old set.now }
        ensures { self.new ≡ fold (become_regular conf) self.old set.now }
    {
        for p in set.iter() {
            self.become_regular(p, conf);
        }
    }
}
