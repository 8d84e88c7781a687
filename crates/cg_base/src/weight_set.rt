ghost use Rattle.std.specs.Prelude.{◌≡◌, ◌≤◌, ◌==◌, [], length};

use crate::{IdSet, ReplicaId, Weighted};
use std::marker::Model;

/// A set of replicas in which each has a weight from 1 to 255. Clauses see the list of its members with their weights,
/// ascending.
#[derive(Clone, Copy, Debug)]
pub struct WeightSet {
    // slot p - 1 has the weight of p, 0 where p is no member
    weights: [u8; 32],
}

impl Model for WeightSet {
    ghost use Rattle.std.specs.Prelude.{ℕ, List};
    ghost use Rattle.cg_base.specs.declared.weighted.Weighted.{Weighted};
    ghost use Rattle.cg_base.specs.Slots.{held, IsArray, weighted, array_slot, array_of};
    ghost use Rattle.cg_base.specs.Calls.{weight_in};
    ghost use Rattle.cg_base.specs.SlotLaws.{array_of-weights};

    ghost Value = { List Weighted };

    ghost view = { λ s. held weighted (array_slot s.weights) };

    ghost invariant = { λ s. IsArray s.weights 256 };

    ghost inverse = { λ set. record { weights = array_of (weight_in set) } };

    ghost inverse_ok = { λ s h i. record { weights = array_of-weights s.weights h i } };
}

impl PartialEq for WeightSet {
    ghost use Rattle.cg_base.specs.Weights.{same_weighted};
    ghost use Rattle.std.specs.Cmp.{partial_equiv_from_equiv, and_equiv, on_equiv, nat_eq_equiv};
    ghost use Rattle.std.specs.Cmp.Lexicographic.{pointwise, lists_equiv};

    ghost eq = { pointwise same_weighted };

    ghost laws = { partial_equiv_from_equiv
        (lists_equiv (and_equiv (on_equiv (λ a. a.id) nat_eq_equiv) (on_equiv (λ a. a.weight) nat_eq_equiv))) };

    fn eq(&self, other: &WeightSet) -> bool {
        self.weights == other.weights
    }
}

impl Eq for WeightSet {
    ghost use Rattle.std.specs.Cmp.{and_equiv, on_equiv, nat_eq_equiv};
    ghost use Rattle.std.specs.Cmp.Lexicographic.{lists_equiv};

    ghost laws = { lists_equiv (and_equiv (on_equiv (λ a. a.id) nat_eq_equiv) (on_equiv (λ a. a.weight) nat_eq_equiv)) };
}

impl WeightSet {
    ghost use Rattle.cg_base.specs.Sets.{has, least};
    ghost use Rattle.cg_base.specs.Weights.{IsWeightSet, ids, with_weight, each_once, total, total_of};
    ghost use Rattle.cg_base.specs.Calls.{weight_in};

    pub fn empty() -> WeightSet
        ensures { result ≡ [] }
    {
        WeightSet { weights: [0; 32] }
    }

    /// The members of the set, each with weight 1.
    pub fn of(set: &IdSet) -> WeightSet
        ensures { result ≡ each_once set.now }
    {
        set.holds();
        let mut weighted = WeightSet::empty();
        for id in set.iter() {
            weighted.put(id, 1);
        }
        weighted
    }

    /// Makes the replica a member with this weight, which takes the place of one that it had.
    pub fn put(&mut self, id: ReplicaId, weight: u8)
        requires { 1 ≤ weight }
        ensures { self.new ≡ with_weight self.old (record { id = id; weight = weight }) }
    {
        let slot = usize::from(id.get() - 1);
        self.weights[slot] = weight;
    }

    /// 0 where the replica is no member.
    pub fn weight(&self, id: ReplicaId) -> u8
        ensures { result ≡ weight_in self.now id }
    {
        self.weights[usize::from(id.get() - 1)]
    }

    /// What always holds of a set with weights: it is a list of members, ascending, with weights from 1 to 255.
    pub fn holds(&self)
        ensures { IsWeightSet self.now }
    {
        let _ = &self.weights;
    }

    pub fn contains(&self, id: ReplicaId) -> bool
        ensures { result ≡ has (ids self.now) id }
    {
        self.holds();
        self.weight(id) != 0
    }

    pub fn ids(&self) -> IdSet
        ensures { result ≡ ids self.now }
    {
        let mut set = IdSet::empty();
        for (slot, weight) in self.weights.iter().enumerate() {
            if *weight != 0 {
                set.add(ReplicaId::known(slot as u8 + 1));
            }
        }
        set
    }

    pub fn is_empty(&self) -> bool
        ensures { result ≡ (length self.now == 0) }
    {
        self.ids().is_empty()
    }

    /// The least member.
    pub fn least(&self) -> Option<ReplicaId>
        ensures { result ≡ least (ids self.now) }
    {
        self.ids().least()
    }

    /// The sum of all weights, at most 32 * 255.
    pub fn total(&self) -> u32
        ensures { result ≡ total self.now }
    {
        let mut sum = 0;
        for weight in self.weights.iter() {
            sum += u32::from(*weight);
        }
        sum
    }

    /// The sum of the weights of the members that are in the other set.
    pub fn total_of(&self, present: &IdSet) -> u32
        ensures { result ≡ total_of self.now present.now }
    {
        let mut sum = 0;
        for (slot, weight) in self.weights.iter().enumerate() {
            if present.contains(ReplicaId::known(slot as u8 + 1)) {
                sum += u32::from(*weight);
            }
        }
        sum
    }
}

/// The members of a set with their weights, ascending.
#[derive(Clone, Copy, Debug)]
pub struct WeightIter {
    weights: [u8; 32],
    left: IdSet,
}

impl WeightSet {
    ghost use Rattle.cg_base.specs.Iterators.{weights_left};

    /// The members with their weights, ascending.
    pub fn iter(&self) -> WeightIter
        ensures { weights_left result ≡ self.now }
    {
        WeightIter {
            weights: self.weights,
            left: self.ids(),
        }
    }
}

impl Iterator for WeightIter {
    type Item = Weighted;

    ghost use Rattle.std.specs.Iterator.{YieldsFirst, item_count};
    ghost use Rattle.cg_base.specs.Iterators.{weights_left};

    ghost next_gives = { YieldsFirst weights_left };

    ghost remaining = { item_count weights_left };

    fn next(&mut self) -> Option<Weighted> {
        let id = self.left.take_least()?;
        Some(Weighted {
            id,
            weight: self.weights[usize::from(id.get()) - 1],
        })
    }
}
