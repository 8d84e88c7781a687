ghost use Rattle.std.specs.Prelude.{◌≡◌};

use crate::Line;
use cg_action::{Answer, Effect, EntryList, Kind, Shared};
use cg_base::{ActionId, IdList, ReplicaId, Row};
use std::alloc::Global;

/// An action that is shown as made: its name, and what it does.
#[derive(PartialEq, Eq)]
pub struct Made {
    pub id: ActionId,
    pub kind: Shared<Kind>,
}

impl Drop for Made {
    fn drop(self) {
        let Made { id: _, kind: _ } = self;
    }
}

/// A place of the global order, counted from 1, and the name of its action.
#[derive(Clone, Copy, Debug, PartialEq, Eq)]
pub struct Placed {
    pub place: u64,
    pub id: ActionId,
}

/// What a client is told of its request: what the action did, and what its query finds behind it.
#[derive(PartialEq, Eq)]
pub struct Reply {
    pub id: ActionId,
    pub effect: Effect,
    pub answer: Option<Answer>,
}

impl Drop for Reply {
    fn drop(self) {
        let Reply {
            id: _,
            effect: _,
            answer: _,
        } = self;
    }
}

/// What an event asks to be shown.
#[derive(PartialEq, Eq)]
pub enum Shown {
    /// What the replica's green actions answer.
    Weak {
        p: ReplicaId,
        answer: Answer,
    },
    /// What all actions that the replica knows answer.
    Dirty {
        p: ReplicaId,
        answer: Answer,
    },
    /// How many pieces of a snapshot the joiner has taken, and of how many.
    Pieces {
        joiner: ReplicaId,
        taken: u64,
        all: u64,
    },
    /// A replica's green actions, in order.
    Greens {
        p: ReplicaId,
        list: IdList,
    },
    /// A replica's database, ascending by key.
    Database {
        p: ReplicaId,
        entries: EntryList,
    },
    /// The global order.
    All(IdList),
}

impl Drop for Shown {
    fn drop(self) {
        match self {
            Shown::Weak { p: _, answer: _ } => {}
            Shown::Dirty { p: _, answer: _ } => {}
            Shown::Pieces {
                joiner: _,
                taken: _,
                all: _,
            } => {}
            Shown::Greens { p: _, list: _ } => {}
            Shown::Database { p: _, entries: _ } => {}
            Shown::All(_) => {}
        }
    }
}

/// All that a step shows, part by part: the actions made in it; the places of the global order that a replica was the
/// first to reach; the lines of the replicas that differ from their last ones, ascending; the replies given; and what
/// its event asked for.
#[derive(PartialEq, Eq)]
pub struct Entry {
    pub made: Row<Made>,
    pub orders: Row<Placed>,
    pub lines: Row<Line>,
    pub replies: Row<Reply>,
    pub shown: Row<Shown>,
}

impl Drop for Entry {
    fn drop(self) {
        let Entry {
            made: _,
            orders: _,
            lines: _,
            replies: _,
            shown: _,
        } = self;
    }
}

impl Entry {
    ghost use Rattle.cg_report.specs.NoEntry.{no_entry};
    ghost use Rattle.cg_report.specs.EntryText.{is_silent};

    pub(crate) fn is_silent(&self) -> bool
        ensures { result ≡ is_silent self.now }
    {
        self.made.is_empty()
            && self.orders.is_empty()
            && self.lines.is_empty()
            && self.replies.is_empty()
            && self.shown.is_empty()
    }

    /// Nothing is shown.
    pub fn silent(alloc: Global) -> Entry
        ensures { result ≡ no_entry }
    {
        Entry {
            made: Row::new(alloc),
            orders: Row::new(alloc),
            lines: Row::new(alloc),
            replies: Row::new(alloc),
            shown: Row::new(alloc),
        }
    }
}
