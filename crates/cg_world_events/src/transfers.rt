//! The snapshots under way.
ghost use Rattle.std.specs.Prelude.{◌≡◌, ◌++◌, ◌∷◌, [], ◌==◌, ◌&&◌, not, find, filter, position, OnOk};
ghost use Rattle.cg_model.specs.World.{TransferState};

use cg_base::{NoMemory, ReplicaId};
use cg_transfer::Transfer;
use std::alloc::Global;
use std::marker::Model;

/// The snapshots under way, in the order of their last transfers.
pub(crate) struct Transfers {
    list: Vec<Transfer>,
}

impl Drop for Transfers {
    fn drop(self) {
        let Transfers { list: _ } = self;
    }
}

impl Model for Transfers {
    ghost use Rattle.std.specs.Prelude.{List};
    ghost use Rattle.cg_model.specs.World.{TransferState};

    ghost Value = { List TransferState };

    ghost view = { λ t. t.list.items };
}

// It is the giver's for the joiner.
fn is_between(transfer: &Transfer, giver: ReplicaId, joiner: ReplicaId) -> bool
    ensures { result ≡ ((transfer.now.joiner == joiner) && (transfer.now.giver == giver)) }
{
    transfer.joiner() == joiner && transfer.giver() == giver
}

// It is for another joiner.
fn is_for_other(transfer: &Transfer, joiner: ReplicaId) -> bool
    ensures { result ≡ not (transfer.now.joiner == joiner) }
{
    transfer.joiner() != joiner
}

// It is another giver's.
fn is_of_other(transfer: &Transfer, giver: ReplicaId) -> bool
    ensures { result ≡ not (transfer.now.giver == giver) }
{
    transfer.giver() != giver
}

// Where the giver's snapshot for the joiner stands, from 0.
fn index_of(list: &[Transfer], giver: ReplicaId, joiner: ReplicaId) -> Option<usize>
    ensures { result ≡ position (λ s. (s.joiner == joiner) && (s.giver == giver)) list.now }
{
    list.iter().position(|t| is_between(t, giver, joiner))
}

impl Transfers {
    pub(crate) fn new(alloc: Global) -> Transfers
        ensures { result ≡ [] }
    {
        Transfers {
            list: Vec::new(alloc),
        }
    }

    /// The giver's snapshot for the joiner, where one is under way; then there is none for the joiner. It takes no memory.
    pub(crate) fn take(&mut self, giver: ReplicaId, joiner: ReplicaId) -> Option<Transfer>
        ensures taken { result ≡ find (λ s. (s.joiner == joiner) && (s.giver == giver)) self.old }
        ensures others { self.new ≡ filter (λ s. not (s.joiner == joiner)) self.old }
    {
        let found = self.take_out(giver, joiner);
        self.list.retain(|t| is_for_other(t, joiner));
        found
    }

    // It is taken out, where it is there.
    fn take_out(&mut self, giver: ReplicaId, joiner: ReplicaId) -> Option<Transfer>
        ensures taken { result ≡ find (λ s. (s.joiner == joiner) && (s.giver == giver)) self.old }
        ensures others { filter (λ s. not (s.joiner == joiner)) self.new ≡
            filter (λ s. not (s.joiner == joiner)) self.old }
    {
        match index_of(self.list.as_slice(), giver, joiner) {
            Some(index) => Some(self.list.remove(index)),
            None => None,
        }
    }

    /// The replica's snapshots end. It takes no memory.
    pub(crate) fn end_of(&mut self, giver: ReplicaId)
        ensures { self.new ≡ filter (λ s. not (s.giver == giver)) self.old }
    {
        self.list.retain(|t| is_of_other(t, giver));
    }

    /// A snapshot is under way, behind the others.
    pub(crate) fn push(&mut self, transfer: Transfer) -> Result<(), NoMemory>
        ensures { OnOk result (self.new ≡ self.old ++ transfer ∷ []) }
    {
        self.list.push(transfer)?;
        Ok(())
    }
}
