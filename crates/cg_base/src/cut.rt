ghost use Rattle.std.specs.Prelude.{◌≡◌, ◌==◌, [], length};

use crate::{ActionId, IdSet, ReplicaId};
use std::marker::Model;

/// How far each creator's actions are known. Clauses see the name of the last known action of each creator that has one,
/// ascending by creator.
#[derive(Clone, Copy, Debug)]
pub struct Cut {
    // slot p - 1 has the index of p's last action, 0 where it has none
    indexes: [u64; 32],
}

impl Model for Cut {
    ghost use Rattle.std.specs.Prelude.{ℕ, ◌^◌, List};
    ghost use Rattle.cg_base.specs.declared.action_id.ActionId.{ActionId};
    ghost use Rattle.cg_base.specs.Slots.{held, IsArray, top, array_slot, array_of};
    ghost use Rattle.cg_base.specs.Cuts.{index_in};
    ghost use Rattle.cg_base.specs.SlotLaws.{array_of-indexes};

    ghost Value = { List ActionId };

    ghost view = { λ c. held top (array_slot c.indexes) };

    ghost invariant = { λ c. IsArray c.indexes (2 ^ 64) };

    ghost inverse = { λ cut. record { indexes = array_of (index_in cut) } };

    ghost inverse_ok = { λ c h i. record { indexes = array_of-indexes c.indexes h i } };
}

impl PartialEq for Cut {
    ghost use Rattle.cg_base.specs.Ids.{same_id};
    ghost use Rattle.std.specs.Cmp.{partial_equiv_from_equiv, and_equiv, on_equiv, nat_eq_equiv};
    ghost use Rattle.std.specs.Cmp.Lexicographic.{pointwise, lists_equiv};

    ghost eq = { pointwise same_id };

    ghost laws = { partial_equiv_from_equiv
        (lists_equiv (and_equiv (on_equiv (λ a. a.creator) nat_eq_equiv) (on_equiv (λ a. a.index) nat_eq_equiv))) };

    fn eq(&self, other: &Cut) -> bool {
        self.indexes == other.indexes
    }
}

impl Eq for Cut {
    ghost use Rattle.std.specs.Cmp.{and_equiv, on_equiv, nat_eq_equiv};
    ghost use Rattle.std.specs.Cmp.Lexicographic.{lists_equiv};

    ghost laws = { lists_equiv (and_equiv (on_equiv (λ a. a.creator) nat_eq_equiv) (on_equiv (λ a. a.index) nat_eq_equiv)) };
}

impl Cut {
    ghost use Rattle.cg_base.specs.Cuts.{index_in, raise, creators_in};
    ghost use Rattle.cg_base.specs.CutLimits.{IsCut};
    ghost use Rattle.cg_base.specs.Calls.{least_cut, greatest_cut};

    /// The cut that knows no action.
    pub fn zero() -> Cut
        ensures { result ≡ [] }
    {
        Cut { indexes: [0; 32] }
    }

    /// The index of the creator's last action, 0 where it has none.
    pub fn get(&self, id: ReplicaId) -> u64
        ensures { result ≡ index_in self.now id }
    {
        self.indexes[usize::from(id.get() - 1)]
    }

    /// What always holds of a cut: it is a list of names of actions, ascending by creator.
    pub fn holds(&self)
        ensures { IsCut self.now }
    {
        let _ = &self.indexes;
    }

    /// Raises the creator's index to the given one. It never lowers: a cut that is as far already stays as it is.
    pub fn raise(&mut self, id: ReplicaId, to: u64)
        ensures { self.new ≡ raise self.old (record { creator = id; index = to }) }
    {
        let slot = usize::from(id.get() - 1);
        if self.indexes[slot] < to {
            self.indexes[slot] = to;
        }
    }

    /// Of each creator the lesser index.
    pub fn least(&self, o: &Cut) -> Cut
        ensures { result ≡ least_cut self.now o.now }
    {
        let mut indexes = self.indexes;
        for (slot, index) in o.indexes.iter().enumerate() {
            indexes[slot] = indexes[slot].min(*index);
        }
        Cut { indexes }
    }

    /// Of each creator the greater index.
    pub fn greatest(&self, o: &Cut) -> Cut
        ensures { result ≡ greatest_cut self.now o.now }
    {
        let mut cut = *self;
        for top in o.iter() {
            cut.raise(top.creator, top.index);
        }
        cut
    }

    /// The creators that have an action in the cut.
    pub fn creators(&self) -> IdSet
        ensures { result ≡ creators_in self.now }
    {
        let mut set = IdSet::empty();
        for (slot, index) in self.indexes.iter().enumerate() {
            if *index != 0 {
                set.add(ReplicaId::known(slot as u8 + 1));
            }
        }
        set
    }

    pub fn is_zero(&self) -> bool
        ensures { result ≡ (length self.now == 0) }
    {
        self.creators().is_empty()
    }
}

/// The name of each creator's last action in a cut, ascending by creator.
#[derive(Clone, Copy, Debug)]
pub struct Tops {
    indexes: [u64; 32],
    left: IdSet,
}

impl Cut {
    ghost use Rattle.cg_base.specs.Iterators.{tops_left};

    /// The name of each creator's last action, ascending.
    pub fn iter(&self) -> Tops
        ensures { tops_left result ≡ self.now }
    {
        Tops {
            indexes: self.indexes,
            left: self.creators(),
        }
    }
}

impl Iterator for Tops {
    type Item = ActionId;

    ghost use Rattle.std.specs.Iterator.{YieldsFirst, item_count};
    ghost use Rattle.cg_base.specs.Iterators.{tops_left};

    ghost next_gives = { YieldsFirst tops_left };

    ghost remaining = { item_count tops_left };

    fn next(&mut self) -> Option<ActionId> {
        let creator = self.left.take_least()?;
        Some(ActionId {
            creator,
            index: self.indexes[usize::from(creator.get() - 1)],
        })
    }
}
