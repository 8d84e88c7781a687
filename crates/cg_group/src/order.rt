ghost use Rattle.std.specs.Prelude.{◌≡◌, length, IfOk, OnErr};
ghost use Rattle.cg_group.specs.State.{home};
ghost use Rattle.cg_group.specs.Events.{order};
ghost use Rattle.cg_group.specs.Refusals.{order_refusal};
ghost use Rattle.cg_group.specs.Answers.{IsAnswer};

use crate::{Group, GroupErr};
use cg_base::{NoMemory, ReplicaId};

impl<M: Drop> Group<M> {
    /// The oldest message of a replica gets the next place of its configuration, which is the answer; the replica has received it.
    ///
    /// It is refused by the first that holds: `NotUp`, `NotRegular`, `NothingToOrder`.
    pub fn order(&mut self, p: ReplicaId) -> Result<u64, GroupErr>
        ensures answer { IsAnswer (order_refusal self.old p) result }
        ensures ok { IfOk result (λ place. (self.new ≡ order self.old p) × (place ≡ length (home self.new p).ordered)) }
        ensures err { OnErr result (self.new ≡ self.old) }
    {
        match self.order_refusal(p) {
            Some(reason) => Err(GroupErr::Refused(reason)),
            None => {
                let place = self.order_admitted(p)?;
                Ok(place)
            }
        }
    }

    fn order_admitted(&mut self, p: ReplicaId) -> Result<u64, NoMemory>
        ensures ok { IfOk result (λ place. (self.new ≡ order self.old p) × (place ≡ length (home self.new p).ordered)) }
        ensures err { OnErr result (self.new ≡ self.old) }
    {
        self.order_next(p)?;
        Ok(self.last_place(p))
    }
}
