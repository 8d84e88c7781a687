ghost use Rattle.std.specs.Prelude.{◌≡◌, IfOk};

use crate::value::{copy_boxed, copy_want};
use crate::{Boxed, BoxedOption, Value};
use cg_base::NoMemory;
use cg_text::Txt;
use std::alloc::Global;

/// A change of the database, which may fail. A key has 1 to 64 bytes.
#[derive(Drop, PartialEq, Eq)]
pub enum Cmd {
    /// Sets the key to the value.
    Put {
        key: Txt,
        value: Value,
    },
    /// Removes the key, if it is there.
    Del {
        key: Txt,
    },
    /// Adds to the key's number.
    Inc {
        key: Txt,
        by: i64,
    },
    /// Sets the key to the value where it has the wanted value, or where it is absent for `None`.
    Cas {
        key: Txt,
        want: BoxedOption<Value>,
        value: Boxed<Value>,
    },
    /// Takes the amount, 0 or more, from the source's number and adds it to the target's.
    Move {
        source: Txt,
        target: Txt,
        amount: i64,
    },
    /// Fails where the key doesn't have the wanted value, or isn't absent for `None`.
    Need {
        key: Txt,
        want: BoxedOption<Value>,
    },
}

impl Cmd {
    /// Another command that is the same.
    pub fn copy(&self, alloc: Global) -> Result<Cmd, NoMemory>
        ensures { IfOk result (λ cmd. cmd ≡ self.now) }
    {
        match self {
            Cmd::Put { key, value } => {
                let key = key.copy(alloc)?;
                let value = value.copy(alloc)?;
                Ok(Cmd::Put { key, value })
            }
            Cmd::Del { key } => {
                let key = key.copy(alloc)?;
                Ok(Cmd::Del { key })
            }
            Cmd::Inc { key, by } => {
                let key = key.copy(alloc)?;
                Ok(Cmd::Inc { key, by: *by })
            }
            Cmd::Cas { key, want, value } => {
                let key = key.copy(alloc)?;
                let want = copy_want(alloc, want)?;
                let value = copy_boxed(alloc, value)?;
                Ok(Cmd::Cas { key, want, value })
            }
            Cmd::Move {
                source,
                target,
                amount,
            } => {
                let source = source.copy(alloc)?;
                let target = target.copy(alloc)?;
                Ok(Cmd::Move {
                    source,
                    target,
                    amount: *amount,
                })
            }
            Cmd::Need { key, want } => {
                let key = key.copy(alloc)?;
                let want = copy_want(alloc, want)?;
                Ok(Cmd::Need { key, want })
            }
        }
    }
}
