ghost use Rattle.std.specs.Prelude.{◌≡◌, IfOk};

use cg_base::{Bytes, NoMemory, Row};
use std::alloc::Global;

/// What a group can hand out more than once: a thing with a copy, where there is memory for it.
pub trait TryClone: Sized {
    /// The same thing once more.
    fn try_clone(&self, alloc: Global) -> Result<Self, NoMemory>
        ensures { IfOk result (λ copy. copy ≡ self.now) };
}

impl TryClone for Bytes {
    fn try_clone(&self, alloc: Global) -> Result<Bytes, NoMemory> {
        Row::from_slice(alloc, self.as_slice())
    }
}
