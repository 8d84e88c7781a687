//! Changes that aren't written yet.

ghost use Rattle.std.specs.Prelude.{◌≡◌, ◌++◌, ◌∷◌, [], length, OnOk};
ghost use Rattle.cg_db.specs.Plan.{listed};

use cg_action::Value;
use cg_base::NoMemory;
use cg_text::Txt;
use std::alloc::Global;

/// What a key is going to have; `None` takes it out.
#[derive(Drop)]
pub(crate) struct KeyChange {
    pub(crate) key: Txt,
    pub(crate) value: Option<Value>,
}

/// Changes in the order in which they are written. The last one lies in the value itself, so that one alone takes no memory.
#[derive(Drop)]
pub(crate) struct Changes {
    pub(crate) earlier: Vec<KeyChange>,
    pub(crate) last: Option<KeyChange>,
}

impl Changes {
    pub(crate) fn new(alloc: Global) -> Changes
        ensures { listed result ≡ [] }
    {
        Changes {
            earlier: Vec::new(alloc),
            last: None,
        }
    }

    pub(crate) fn len(&self) -> usize
        ensures { result ≡ length (listed self.now) }
    {
        match &self.last {
            Some(_) => self.earlier.len() + 1,
            None => self.earlier.len(),
        }
    }

    pub(crate) fn push(&mut self, change: KeyChange) -> Result<(), NoMemory>
        ensures { OnOk result (listed self.new ≡ listed self.old ++ change ∷ []) }
    {
        if let Some(previous) = self.last.take() {
            self.earlier.push(previous)?;
        }
        self.last = Some(change);
        Ok(())
    }
}
