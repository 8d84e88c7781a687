//! Writes of a register, and which of two is the later one.

ghost use Rattle.std.specs.Prelude.{◌≡◌, Some, IfOk};
ghost use Rattle.std.specs.Option.{option_copied};
ghost use Rattle.cg_relaxed.specs.Writes.{stamp_before, later_of, later, value_in};

use cg_action::Value;
use cg_base::NoMemory;
use std::alloc::Global;

/// When a register was written. The fields are compared in this order.
#[derive(Clone, Copy, Debug)]
pub(crate) struct Stamp {
    /// The green line of the action.
    pub(crate) green_line: u64,
    /// The index of the action.
    pub(crate) index: u64,
    /// The creator of the action.
    pub(crate) creator: u8,
    /// The place of the command in its action, from 1.
    pub(crate) place: u64,
}

/// A write: what the register is then, or none where its key was removed.
#[derive(Drop)]
pub(crate) struct Write {
    pub(crate) stamp: Stamp,
    pub(crate) value: Option<Value>,
}

impl Stamp {
    pub(crate) fn is_before(&self, other: &Stamp) -> bool
        ensures { result ≡ stamp_before self.now other.now }
    {
        self.green_line < other.green_line
            || self.green_line == other.green_line
                && (self.index < other.index
                    || self.index == other.index
                        && (self.creator < other.creator
                            || self.creator == other.creator && self.place < other.place))
    }
}

impl Write {
    /// Another write that is the same.
    pub(crate) fn copy(&self, alloc: Global) -> Result<Write, NoMemory>
        ensures { IfOk result (λ write. write ≡ self.now) }
    {
        let value = copy_value(alloc, &self.value)?;
        Ok(Write {
            stamp: self.stamp,
            value,
        })
    }
}

/// The value of a register that was last written so, or never.
pub(crate) fn value_in(alloc: Global, register: Option<&Write>) -> Result<Option<Value>, NoMemory>
    ensures { IfOk result (λ value. value ≡ value_in (option_copied register.entry)) }
{
    match register {
        Some(write) => copy_value(alloc, &write.value),
        None => Ok(None),
    }
}

fn copy_value(alloc: Global, value: &Option<Value>) -> Result<Option<Value>, NoMemory>
    ensures { IfOk result (λ copy. copy ≡ value.now) }
{
    match value {
        Some(value) => Ok(Some(value.copy(alloc)?)),
        None => Ok(None),
    }
}

/// A copy of the later one; of the first where neither is later.
pub(crate) fn copy_later(
    alloc: Global,
    first: Option<&Write>,
    other: &Write,
) -> Result<Write, NoMemory>
    ensures { IfOk result (λ write. Some write ≡ later (option_copied first.entry) (Some other.now)) }
{
    match first {
        None => other.copy(alloc),
        Some(first) => later_of(first, other).copy(alloc),
    }
}

/// Of two registers the one that was written later; the first where neither was.
pub(crate) fn later<'a>(first: Option<&'a Write>, other: Option<&'a Write>) -> Option<&'a Write>
    ensures { option_copied result ≡ later (option_copied first.entry) (option_copied other.entry) }
{
    match (first, other) {
        (Some(first), Some(other)) => Some(later_of(first, other)),
        (Some(_), None) => first,
        (None, _) => other,
    }
}

fn later_of<'a>(first: &'a Write, other: &'a Write) -> &'a Write
    ensures { result.now ≡ later_of first.now other.now }
{
    if first.stamp.is_before(&other.stamp) {
        other
    } else {
        first
    }
}
