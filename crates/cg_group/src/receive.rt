ghost use Rattle.std.specs.Prelude.{◌≡◌, OnOk, OnErr};
ghost use Rattle.cg_group.specs.Events.{receive};
ghost use Rattle.cg_group.specs.Refusals.{receive_refusal};
ghost use Rattle.cg_group.specs.Answers.{IsAnswer};

use crate::{Group, GroupErr};
use cg_base::ReplicaId;

impl<M: Drop> Group<M> {
    /// A replica receives a place of its configuration.
    ///
    /// It is refused by the first that holds: `NotUp`, `NotRegular`, `NoSuchPlace`, `AlreadyReceived`; `EarlierMissing` with the
    /// earliest place of the same sender that the replica lacks.
    pub fn receive(&mut self, p: ReplicaId, place: u64) -> Result<(), GroupErr>
        ensures answer { IsAnswer (receive_refusal self.old p place) result }
        ensures ok { OnOk result (self.new ≡ receive self.old p place) }
        ensures err { OnErr result (self.new ≡ self.old) }
    {
        match self.receive_refusal(p, place) {
            Some(reason) => Err(GroupErr::Refused(reason)),
            None => {
                self.receive_place(p, place);
                Ok(())
            }
        }
    }
}
