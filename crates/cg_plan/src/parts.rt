ghost use Rattle.std.specs.Prelude.{◌≡◌, ◌<◌};
ghost use Rattle.cg_plan.specs.Parts.{IsFilled, size_of, item_behind};

use cg_base::{ActionId, ReplicaId};
use thiserror::Error;

/// What is sent in one message of a plan.
#[derive(Clone, Copy, Debug, PartialEq, Eq)]
pub enum Item {
    /// The green action at a place, counted from 1.
    Green { at: u64 },
    Red { id: ActionId },
}

/// Items in a row: the green places, or the indexes of a creator's red actions, from the first number to the last.
#[derive(Clone, Copy, Debug, PartialEq, Eq)]
pub enum Part {
    Greens {
        from: u64,
        to: u64,
    },
    Reds {
        creator: ReplicaId,
        from: u64,
        to: u64,
    },
}

/// A part with its sender.
#[derive(Clone, Copy, Debug, PartialEq, Eq)]
pub struct SentPart {
    pub sender: ReplicaId,
    pub part: Part,
}

/// An item with its sender.
#[derive(Clone, Copy, Debug, PartialEq, Eq)]
pub struct SentItem {
    pub sender: ReplicaId,
    pub item: Item,
}

/// Another item was wanted, or from another sender. None says that no item is wanted any more.
#[derive(Clone, Copy, Debug, PartialEq, Eq, Error)]
#[error("another item was wanted, or from another sender")]
pub struct Other {
    pub want: Option<Item>,
}

impl Part {
    // how many items it has
    pub(crate) fn size(&self) -> u64
        requires { IsFilled self.now }
        ensures { result ≡ size_of self.now }
    {
        match self {
            Part::Greens { from, to } => *to - (*from - 1),
            Part::Reds { from, to, .. } => *to - (*from - 1),
        }
    }

    // the item behind so many others
    pub(crate) fn item(&self, made: u64) -> Item
        requires filled { IsFilled self.now }
        requires few { made < size_of self.now }
        ensures { result ≡ item_behind self.now made }
    {
        match self {
            Part::Greens { from, to } => {
                prove!(made <= *to - *from);
                Item::Green { at: *from + made }
            }
            Part::Reds { creator, from, to } => {
                prove!(made <= *to - *from);
                let index = *from + made;
                Item::Red {
                    id: ActionId {
                        creator: *creator,
                        index,
                    },
                }
            }
        }
    }
}
