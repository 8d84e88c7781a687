//! The snapshot of a replica that is up.
ghost use Rattle.std.specs.Prelude.{◌≡◌, IfOk};
ghost use Rattle.cg_records.specs.Limits.{IsNumber};
ghost use Rattle.cg_disk_records.specs.Holds.{Holds};
ghost use Rattle.cg_transfer.specs.Calls.{copy_of};

use crate::Transfer;
use cg_base::{NoMemory, ReplicaId};
use cg_client::Core;
use cg_disk_records::what_is_held_agrees;
use cg_join::joiners_agree;

impl Transfer {
    /// The giver's snapshot for a joiner: a copy of what the giver has green. The number is that of the snapshot among the
    /// giver's.
    pub fn of(
        core: &Core,
        giver: ReplicaId,
        number: u64,
        joiner: ReplicaId,
    ) -> Result<Transfer, NoMemory>
        requires number { IsNumber number }
        requires holds { Holds core.now }
        ensures { IfOk result (λ t. t ≡ copy_of joiner giver core.now) }
    {
        what_is_held_agrees();
        joiners_agree();
        Transfer::start(core, giver, number, joiner)
    }
}
