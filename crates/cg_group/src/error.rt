use crate::Reason;
use cg_base::NoMemory;
use thiserror::Error;

/// Why a call of the group isn't done. The group is as before the call.
#[derive(Clone, Copy, Debug, PartialEq, Eq, Error)]
pub enum GroupErr {
    /// The call isn't admitted.
    #[error("the call isn't admitted: {0}")]
    Refused(Reason),
    /// Memory was refused.
    #[error("memory was refused")]
    NoMemory,
}

impl From<NoMemory> for GroupErr {
    ghost use Rattle.std.specs.Prelude.{◌≡◌};
    ghost use Rattle.cg_group.specs.declared.error.GroupErr.TheVariants.{NoMemory as OutOfMemory};

    ghost from_gives = { λ _ e. e ≡ OutOfMemory };

    fn from(_: NoMemory) -> Self {
        GroupErr::NoMemory
    }
}
