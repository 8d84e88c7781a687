ghost use Rattle.std.specs.Prelude.{◌≡◌};
ghost use Rattle.cg_session.specs.ActionKey.{key_of};

use cg_base::ActionId;

/// The name of an action as a key that is hashed.
#[derive(Clone, Copy, PartialEq, Eq, Hash)]
pub(crate) struct ActionKey {
    pub(crate) creator: u8,
    pub(crate) index: u64,
}

impl ActionKey {
    pub(crate) fn of(id: &ActionId) -> ActionKey
        ensures { result ≡ key_of id.now }
    {
        ActionKey {
            creator: id.creator.get(),
            index: id.index,
        }
    }
}
