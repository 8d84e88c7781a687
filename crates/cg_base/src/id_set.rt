ghost use Rattle.std.specs.Prelude.{◌≡◌, [], ◌∷◌, length, MatchOption};

use crate::ReplicaId;
use std::marker::Model;

/// A set of replicas. Clauses see the list of its members, ascending.
#[derive(Clone, Copy, Debug)]
pub struct IdSet {
    // bit p - 1 says whether p is a member
    word: u32,
}

impl Model for IdSet {
    ghost use Rattle.std.specs.Prelude.{ℕ, List, ◌<◌, ◌^◌};
    ghost use Rattle.cg_base.specs.Slots.{held, member, bit_slot, word_of};
    ghost use Rattle.cg_base.specs.SlotLaws.{word_of-held};

    ghost Value = { List ℕ };

    ghost view = { λ s. held member (bit_slot s.word) };

    ghost invariant = { λ s. s.word < 2 ^ 32 };

    ghost inverse = { λ set. record { word = word_of set } };

    ghost inverse_ok = { λ s h i. record { word = word_of-held s.word h i } };
}

impl PartialEq for IdSet {
    ghost use Rattle.std.specs.Prelude.{nat_eq};
    ghost use Rattle.std.specs.Cmp.Lexicographic.{pointwise};
    ghost use Rattle.std.specs.Cmp.Rules.{comparing};
    ghost use Rattle.std.proofs.Common.{rules};

    ghost eq = { pointwise nat_eq };

    ghost laws = { Prim.search (comparing, rules) };

    fn eq(&self, other: &IdSet) -> bool {
        self.word == other.word
    }
}

impl Eq for IdSet {
    ghost use Rattle.std.specs.Cmp.Rules.{comparing};
    ghost use Rattle.std.proofs.Common.{rules};

    ghost laws = { Prim.search (comparing, rules) };
}

impl IdSet {
    ghost use Rattle.cg_base.specs.Sets.{IsSet, has, with_member, without_member, union, common, without, is_within, least};
    ghost use Rattle.cg_base.specs.Calls.{next_after};
    ghost use Rattle.std.specs.Prelude.{◌==◌};

    pub fn empty() -> IdSet
        ensures { result ≡ [] }
    {
        IdSet { word: 0 }
    }

    /// The set of one replica.
    pub fn single(id: ReplicaId) -> IdSet
        ensures { result ≡ id ∷ [] }
    {
        let mut set = IdSet::empty();
        set.add(id);
        set
    }

    pub fn add(&mut self, id: ReplicaId)
        ensures { self.new ≡ with_member self.old id }
    {
        let slot = u32::from(id.get() - 1);
        self.word |= 1 << slot;
    }

    pub fn remove(&mut self, id: ReplicaId)
        ensures { self.new ≡ without_member self.old id }
    {
        let slot = u32::from(id.get() - 1);
        self.word &= !(1 << slot);
    }

    pub fn contains(&self, id: ReplicaId) -> bool
        ensures { result ≡ has self.now id }
    {
        let slot = u32::from(id.get() - 1);
        (self.word >> slot) & 1 == 1
    }

    /// What always holds of a set: it is an ascending list of identifiers.
    pub fn holds(&self)
        ensures { IsSet self.now }
    {
        let _ = &self.word;
    }

    pub fn union(&self, o: &IdSet) -> IdSet
        ensures { result ≡ union self.now o.now }
    {
        IdSet {
            word: self.word | o.word,
        }
    }

    pub fn common(&self, o: &IdSet) -> IdSet
        ensures { result ≡ common self.now o.now }
    {
        IdSet {
            word: self.word & o.word,
        }
    }

    /// The members that the other set lacks.
    pub fn without(&self, o: &IdSet) -> IdSet
        ensures { result ≡ without self.now o.now }
    {
        IdSet {
            word: self.word & !o.word,
        }
    }

    /// Each member is one of the other set.
    pub fn is_within(&self, o: &IdSet) -> bool
        ensures { result ≡ is_within self.now o.now }
    {
        self.word & !o.word == 0
    }

    /// At most 32.
    pub fn count(&self) -> u8
        ensures { result ≡ length self.now }
    {
        self.holds();
        self.iter().count() as u8
    }

    pub fn is_empty(&self) -> bool
        ensures { result ≡ (length self.now == 0) }
    {
        self.word == 0
    }

    pub fn least(&self) -> Option<ReplicaId>
        ensures { result ≡ least self.now }
    {
        if self.word == 0 {
            return None;
        }
        let slot = self.word.trailing_zeros();
        Some(ReplicaId::known(slot as u8 + 1))
    }

    /// The least member above the identifier, be it a member or not.
    pub fn after(&self, id: ReplicaId) -> Option<ReplicaId>
        ensures { result ≡ next_after self.now id }
    {
        let above = u64::from(self.word) & (u64::MAX << id.get());
        let others = IdSet { word: above as u32 };
        others.least()
    }

    // the least member, which then is none any more
    pub(crate) fn take_least(&mut self) -> Option<ReplicaId>
        ensures { MatchOption result ((self.old ≡ []) × (self.new ≡ [])) (λ id. self.old ≡ id ∷ self.new) }
    {
        let id = self.least()?;
        self.word &= !(1 << u32::from(id.get() - 1));
        Some(id)
    }
}

/// The members of a set, ascending.
#[derive(Clone, Copy, Debug)]
pub struct SetIter {
    left: IdSet,
}

impl IdSet {
    ghost use Rattle.cg_base.specs.Iterators.{members_left};

    /// The members, ascending.
    pub fn iter(&self) -> SetIter
        ensures { members_left result ≡ self.now }
    {
        SetIter {
            left: IdSet { word: self.word },
        }
    }
}

impl Iterator for SetIter {
    type Item = ReplicaId;

    ghost use Rattle.std.specs.Iterator.{YieldsFirst, item_count};
    ghost use Rattle.cg_base.specs.Iterators.{members_left};

    ghost next_gives = { YieldsFirst members_left };

    ghost remaining = { item_count members_left };

    fn next(&mut self) -> Option<ReplicaId> {
        self.left.take_least()
    }
}
