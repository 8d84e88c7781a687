ghost use Rattle.std.specs.Prelude.{◌≡◌, IfOk};

use cg_base::NoMemory;
use cg_text::Txt;
use std::alloc::Global;

/// Whose part of a sum it is, and of which key.
#[derive(Drop, PartialEq, Eq, Hash)]
pub(crate) struct SumKey {
    pub(crate) creator: u8,
    pub(crate) key: Txt,
}

impl SumKey {
    /// Another one that is the same.
    pub(crate) fn copy(&self, alloc: Global) -> Result<SumKey, NoMemory>
        ensures { IfOk result (λ part. part ≡ self.now) }
    {
        let key = self.key.copy(alloc)?;
        Ok(SumKey {
            creator: self.creator,
            key,
        })
    }
}
