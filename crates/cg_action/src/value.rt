ghost use Rattle.std.specs.Prelude.{◌≡◌, IfOk};

use crate::{Boxed, BoxedOption};
use cg_base::NoMemory;
use cg_text::Txt;
use std::alloc::Global;

/// What a key may stand for.
#[derive(PartialEq, Eq)]
pub enum Value {
    Text(Txt),
    Int(i64),
}

impl Drop for Value {
    fn drop(self) {
        match self {
            Value::Text(_) => {}
            Value::Int(_) => {}
        }
    }
}

impl Value {
    /// Another value that is the same.
    pub fn copy(&self, alloc: Global) -> Result<Value, NoMemory>
        ensures { IfOk result (λ value. value ≡ self.now) }
    {
        match self {
            Value::Text(text) => Ok(Value::Text(text.copy(alloc)?)),
            Value::Int(n) => Ok(Value::Int(*n)),
        }
    }
}

pub(crate) fn copy_boxed(alloc: Global, value: &Boxed<Value>) -> Result<Boxed<Value>, NoMemory>
    ensures { IfOk result (λ copy. copy ≡ value.now) }
{
    let copy = value.get().copy(alloc)?;
    Boxed::new(alloc, copy)
}

pub(crate) fn copy_want(
    alloc: Global,
    want: &BoxedOption<Value>,
) -> Result<BoxedOption<Value>, NoMemory>
    ensures { IfOk result (λ copy. copy ≡ want.now) }
{
    match want.get() {
        Some(value) => {
            let copy = value.copy(alloc)?;
            BoxedOption::some(alloc, copy)
        }
        None => Ok(BoxedOption::none()),
    }
}
