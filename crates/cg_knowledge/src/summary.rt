ghost use Rattle.std.specs.Prelude.{◌≡◌, IfOk};

use cg_base::{Cut, IdSet, NoMemory, ReplicaId};
use cg_records::{Primary, Vulnerable, Yellow};
use std::alloc::Global;

/// What a replica tells the other members of a configuration as it enters an exchange.
pub struct Summary {
    pub id: ReplicaId,
    /// The number of the configuration.
    pub conf: u64,
    pub prim: Primary,
    pub attempt_index: u64,
    pub vulnerable: Option<Vulnerable>,
    pub yellow: Yellow,
    pub green_count: u64,
    /// The last green action of each creator.
    pub green_cut: Cut,
    /// The last known action of each creator.
    pub red_cut: Cut,
    /// The servers that have left, as far as the replica's greens say.
    pub left: IdSet,
}

impl Drop for Summary {
    fn drop(self) {
        let Summary {
            id: _,
            conf: _,
            prim: _,
            attempt_index: _,
            vulnerable: _,
            yellow: _,
            green_count: _,
            green_cut: _,
            red_cut: _,
            left: _,
        } = self;
    }
}

impl Summary {
    /// A copy of it.
    pub fn copy(&self, alloc: Global) -> Result<Summary, NoMemory>
        ensures { IfOk result (λ summary. summary ≡ self.now) }
    {
        let yellow = self.yellow.copy(alloc)?;
        Ok(Summary {
            id: self.id,
            conf: self.conf,
            prim: self.prim,
            attempt_index: self.attempt_index,
            vulnerable: self.vulnerable,
            yellow,
            green_count: self.green_count,
            green_cut: self.green_cut,
            red_cut: self.red_cut,
            left: self.left,
        })
    }
}
