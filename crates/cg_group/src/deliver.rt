ghost use Rattle.std.specs.Prelude.{◌≡◌, ◌+◌, ◌<◌, ◌^◌, [], ◌∷◌, ◌++◌, IfOk, OnOk, OnErr};
ghost use Rattle.cg_base.specs.Lists.{above_up_to};
ghost use Rattle.cg_group.specs.State.{home, delivered_to};
ghost use Rattle.cg_group.specs.Events.{deliver, deliveries_at};
ghost use Rattle.cg_group.specs.Refusals.{deliver_refusal};
ghost use Rattle.cg_group.specs.Answers.{IsAnswer};

use crate::{Delivery, Group, GroupErr, TryClone};
use cg_base::{NoMemory, ReplicaId, Row};

impl<M: Drop + TryClone> Group<M> {
    /// The next places of its configuration are handed to a replica, so many.
    ///
    /// It is refused by the first that holds: `NotUp`, `NotRegular`; `NotReady` with the number of places that are ready, where these
    /// are fewer.
    pub fn deliver(&mut self, p: ReplicaId, k: u64) -> Result<Row<Delivery<M>>, GroupErr>
        ensures answer { IsAnswer (deliver_refusal self.old p k) result }
        ensures ok { IfOk result (λ list. (self.new ≡ (deliver self.old p k).group)
            × (record { to = p; list = list } ∷ [] ≡ (deliver self.old p k).handed)) }
        ensures err { OnErr result (self.new ≡ self.old) }
    {
        match self.deliver_refusal(p, k) {
            Some(reason) => Err(GroupErr::Refused(reason)),
            None => {
                let list = self.deliver_admitted(p, k)?;
                Ok(list)
            }
        }
    }

    #[tactic(auto, unfolding(crate::specs::Events::deliver))]
    fn deliver_admitted(&mut self, p: ReplicaId, k: u64) -> Result<Row<Delivery<M>>, NoMemory>
        requires { delivered_to self.old p + k < 2 ^ 64 }
        ensures ok { IfOk result (λ list. (self.new ≡ (deliver self.old p k).group)
            × (record { to = p; list = list } ∷ [] ≡ (deliver self.old p k).handed)) }
        ensures err { OnErr result (self.new ≡ self.old) }
    {
        let from = self.delivered(p);
        let mut list = Vec::with_capacity(self.alloc(), k as usize)?;
        self.put_deliveries(p, from, from + k, &mut list)?;
        self.hand_out(p, from + k);
        Ok(Row::from_vec(list))
    }

    // puts the messages of a replica's configuration above the first place and up to the second behind what is handed out already
    pub(crate) fn put_deliveries(
        &self,
        p: ReplicaId,
        from: u64,
        to: u64,
        out: &mut Vec<Delivery<M>>,
    ) -> Result<(), NoMemory>
        ensures { OnOk result (out.new.items ≡ out.old.items ++ deliveries_at (home self.now p) (above_up_to from to)) }
    {
        match self.home(p) {
            Some(log) => log.put_deliveries(self.alloc(), from, to, out),
            None => Ok(()),
        }
    }
}
