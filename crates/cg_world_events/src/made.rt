//! Which actions were shown as made.
ghost use Rattle.std.specs.Prelude.{◌≡◌, [], IfOk};

use cg_base::{Cut, NoMemory};
use std::alloc::Global;
use std::marker::Model;

/// The cut of the actions that were shown as made. It has a place of its own from the first event on that tells of a
/// replica: the world goes from call to call as a value. Clauses see the cut.
pub(crate) struct MadeCut {
    cut: Option<Box<Cut>>,
}

impl Drop for MadeCut {
    fn drop(self) {
        let MadeCut { cut: _ } = self;
    }
}

impl Model for MadeCut {
    ghost use Rattle.std.specs.Prelude.{List, []};
    ghost use Rattle.std.specs.Option.{option_map_or};
    ghost use Rattle.cg_base.specs.declared.action_id.ActionId.{ActionId};

    ghost Value = { List ActionId };

    ghost view = { λ m. option_map_or (λ b. b.value) m.cut [] };
}

impl MadeCut {
    /// No action was shown.
    pub(crate) fn zero() -> MadeCut
        ensures { result ≡ [] }
    {
        MadeCut { cut: None }
    }

    pub(crate) fn of(cut: Box<Cut>) -> MadeCut
        ensures { result ≡ cut.value }
    {
        MadeCut { cut: Some(cut) }
    }

    /// The cut, to be put back by `of`.
    pub(crate) fn take_out(&mut self, alloc: Global) -> Result<Box<Cut>, NoMemory>
        ensures { IfOk result (λ cut. cut.value ≡ self.old) }
    {
        match self.cut.take() {
            Some(cut) => Ok(cut),
            None => Ok(Box::new(alloc, Cut::zero())?),
        }
    }

    pub(crate) fn get(&self) -> Cut
        ensures { result ≡ self.now }
    {
        match &self.cut {
            Some(cut) => **cut,
            None => Cut::zero(),
        }
    }
}
