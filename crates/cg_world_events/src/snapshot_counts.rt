//! How many snapshots each replica has given.
ghost use Rattle.std.specs.Prelude.{◌≡◌, suc, [], IfOk, MatchResult};
ghost use Rattle.cg_base.specs.Cuts.{index_in, raise};
ghost use Rattle.cg_records.specs.Limits.{IsNumber};

use cg_base::{COUNT_LIMIT, Cut, NoMemory, ReplicaId};
use std::alloc::Global;
use std::marker::Model;

/// How many snapshots each replica has given so far. It has a place of its own once one has. Clauses see of each giver its
/// last snapshot's number, ascending by giver.
pub(crate) struct SnapshotCounts {
    counts: Option<Box<Cut>>,
}

impl Drop for SnapshotCounts {
    fn drop(self) {
        let SnapshotCounts { counts: _ } = self;
    }
}

impl Model for SnapshotCounts {
    ghost use Rattle.std.specs.Prelude.{List, []};
    ghost use Rattle.std.specs.Option.{option_map_or};
    ghost use Rattle.cg_base.specs.declared.action_id.ActionId.{ActionId};

    ghost Value = { List ActionId };

    ghost view = { λ g. option_map_or (λ b. b.value) g.counts [] };
}

impl SnapshotCounts {
    /// No snapshot was given.
    pub(crate) fn none() -> SnapshotCounts
        ensures { result ≡ [] }
    {
        SnapshotCounts { counts: None }
    }

    /// The number of the next snapshot that the replica gives: it counts them from 1, so that none has the number of another.
    pub(crate) fn next_number(&mut self, alloc: Global, giver: ReplicaId) -> Result<u64, NoMemory>
        ensures number { IfOk result IsNumber }
        ensures counted { IfOk result (λ n. n ≡ suc (index_in self.old giver)) }
        ensures given { MatchResult result (λ n. self.new ≡
            raise self.old (record { creator = giver; index = n })) (λ e. self.new ≡ self.old) }
    {
        let mut counts = match self.counts.take() {
            Some(counts) => counts,
            None => Box::new(alloc, Cut::zero())?,
        };
        let last = counts.get(giver);
        if last >= COUNT_LIMIT {
            self.counts = Some(counts);
            return Err(NoMemory);
        }
        counts.raise(giver, last + 1);
        self.counts = Some(counts);
        Ok(last + 1)
    }
}
