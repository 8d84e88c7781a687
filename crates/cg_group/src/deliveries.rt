ghost use Rattle.std.specs.Prelude.{◌≡◌, ◌++◌, OnOk};
ghost use Rattle.cg_base.specs.Lists.{above_up_to};
ghost use Rattle.cg_group.specs.Events.{delivery_at, deliveries_at};

use crate::configuration_log::ConfigurationLog;
use crate::{Delivery, TryClone};
use cg_base::NoMemory;
use std::alloc::Global;

impl<M: Drop + TryClone> ConfigurationLog<M> {
    /// Puts the message of a place behind what is handed out already, where there is such a place.
    #[tactic(auto, unfolding(crate::specs::Events::delivery_at))]
    pub(crate) fn put_delivery(
        &self,
        alloc: Global,
        place: u64,
        out: &mut Vec<Delivery<M>>,
    ) -> Result<(), NoMemory>
        ensures { OnOk result (out.new.items ≡ out.old.items ++ delivery_at self.now.configuration place) }
    {
        match self.get(place) {
            Some(placed) => {
                let bytes = placed.message.try_clone(alloc)?;
                let from = placed.from;
                out.push(Delivery::Message { place, from, bytes })?;
                Ok(())
            }
            None => Ok(()),
        }
    }

    /// Puts the messages of the places above `from` and up to `to` behind what is handed out already.
    pub(crate) fn put_deliveries(
        &self,
        alloc: Global,
        from: u64,
        to: u64,
        out: &mut Vec<Delivery<M>>,
    ) -> Result<(), NoMemory>
        ensures { OnOk result (out.new.items ≡ out.old.items
            ++ deliveries_at self.now.configuration (above_up_to from to)) }
    {
        for place in from..to {
            self.put_delivery(alloc, place + 1, out)?;
        }
        Ok(())
    }
}
