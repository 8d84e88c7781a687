ghost use Rattle.std.specs.Prelude.{◌≡◌, [], ◌∷◌, ◌++◌, ◌==◌, length, OnOk, OnErr, MatchOption};
ghost use Rattle.cg_group.specs.declared.phase.Phase.TheVariants.{Alone};
ghost use Rattle.cg_group.specs.State.{regular_in};

use crate::Phase;
use cg_base::{NoMemory, ReplicaId};
use std::alloc::Global;
use std::collections::VecDeque;
use std::marker::Model;

/// A replica that is up.
#[derive(Drop)]
pub(crate) struct Member<M> {
    id: ReplicaId,
    phase: Phase,
    // how many places of its configuration it was handed
    delivered: u64,
    // its messages without a place, oldest first
    unordered: VecDeque<M>,
}

impl<M> Model for Member<M> {
    ghost use Rattle.cg_group.specs.State.{Standing};

    ghost Value = { Standing M };

    ghost view = { λ m. record { id = m.id; phase = m.phase; delivered = m.delivered; unordered = m.unordered.items } };
}

impl<M> Member<M> {
    /// A replica that comes up.
    pub(crate) fn alone(alloc: Global, id: ReplicaId) -> Member<M>
        ensures { result ≡ record { id = id; phase = Alone; delivered = 0; unordered = [] } }
    {
        Member {
            id,
            phase: Phase::Alone,
            delivered: 0,
            unordered: VecDeque::new(alloc),
        }
    }

    pub(crate) fn id(&self) -> ReplicaId
        ensures { result ≡ self.now.id }
    {
        self.id
    }

    pub(crate) fn phase(&self) -> Phase
        ensures { result ≡ self.now.phase }
    {
        self.phase
    }

    /// The configuration in which the replica is regular, 0 for none.
    pub(crate) fn regular_in(&self) -> u64
        ensures { result ≡ regular_in self.now.phase }
    {
        match self.phase {
            Phase::Regular { conf } => conf,
            _ => 0,
        }
    }

    pub(crate) fn delivered(&self) -> u64
        ensures { result ≡ self.now.delivered }
    {
        self.delivered
    }

    /// How many messages without a place the replica has.
    pub(crate) fn unordered(&self) -> usize
        ensures { result ≡ length self.now.unordered }
    {
        self.unordered.len()
    }

    /// A message waits for a place, behind those that wait already.
    pub(crate) fn send(&mut self, message: M) -> Result<(), NoMemory>
    where
        M: Drop,
        ensures ok { OnOk result (self.new ≡ record self.old { unordered = self.old.unordered ++ message ∷ [] }) }
        ensures err { OnErr result (self.new ≡ self.old) }
        ensures id { self.new.id ≡ self.old.id }
    {
        self.unordered.push_back(message)?;
        Ok(())
    }

    /// The oldest message without a place leaves, if there is one.
    pub(crate) fn take_oldest(&mut self) -> Option<M>
        ensures id { self.new.id ≡ self.old.id }
        ensures taken { MatchOption result
            ((self.old.unordered ≡ []) × (self.new ≡ self.old))
            (λ m. (self.old.unordered ≡ m ∷ self.new.unordered)
            × (self.new ≡ record self.old { unordered = self.new.unordered })) }
    {
        self.unordered.pop_front()
    }

    /// The replica was handed so many places.
    pub(crate) fn hand_out(&mut self, count: u64)
        ensures { self.new ≡ record self.old { delivered = count } }
    {
        self.delivered = count;
    }

    /// The replica goes into another phase, and its messages without a place are dropped.
    pub(crate) fn enter(&mut self, phase: Phase, delivered: u64)
    where
        M: Drop,
        ensures { self.new ≡ record { id = self.old.id; phase = phase; delivered = delivered; unordered = [] } }
    {
        self.phase = phase;
        self.delivered = delivered;
        self.unordered.clear();
    }
}
