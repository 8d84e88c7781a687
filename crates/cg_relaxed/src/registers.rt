//! Registers, each with its last write.

ghost use Rattle.std.specs.Prelude.{◌≡◌, ℕ, ◌<◌, ◌≤◌, ◌+◌, List, drop, length, Some, OnOk, if◌then◌else◌};
ghost use Rattle.indexmap.specs.IndexMap.{spare};
ghost use Rattle.cg_text.specs.Order.{same_text};
ghost use Rattle.cg_relaxed.specs.declared.write.Write.{Write as WriteOf};
ghost use Rattle.cg_relaxed.specs.Writes.{later};
ghost use Rattle.cg_relaxed.specs.RelaxedState.{write_at, merged};

use crate::write::{Write, copy_later};
use cg_base::NoMemory;
use cg_text::Txt;
use indexmap::IndexMap;
use std::alloc::Global;

pub(crate) type Registers = IndexMap<Txt, Write>;

/// Writes a register unless its last write is later, where there is room for one more.
pub(crate) fn write_to(registers: &mut Registers, key: Txt, write: Write)
    requires { 0 < spare registers.old }
    ensures written { (q : List ℕ) → write_at registers.new.entries q ≡
        (if same_text q key then later (write_at registers.old.entries q) (Some write)
        else write_at registers.old.entries q) }
    ensures room { spare registers.old ≤ spare registers.new + 1 }
{
    if let Some(last) = registers.get_mut(&key) {
        replace(last, write);
        return;
    }
    let _ = registers.insert(key, write);
}

fn replace(last: &mut Write, write: Write)
    ensures { later (Some last.old) (Some write) ≡ Some last.new }
{
    if last.stamp.is_before(&write.stamp) {
        *last = write;
    }
}

/// Writes what the one has written last, each merged with the last write of the other.
pub(crate) fn merge(
    alloc: Global,
    from: &Registers,
    other: &Registers,
    to: &mut Registers,
) -> Result<(), NoMemory>
    ensures { OnOk result ((q : List ℕ) → write_at to.new.entries q ≡
        merged (write_at from.now.entries q) (write_at other.now.entries q) (write_at to.old.entries q)) }
{
    let mut left = from.len();
    while left > 0 {
        left -= 1;
        merge_one(alloc, from, left, other, to)?;
    }
    Ok(())
}

// the register at an index, before those that stand after it
fn merge_one(
    alloc: Global,
    from: &Registers,
    index: usize,
    other: &Registers,
    to: &mut Registers,
) -> Result<(), NoMemory>
    requires { index < length from.now.entries }
    ensures { OnOk result ((base : List (List ℕ × WriteOf)) (q : List ℕ) →
        write_at to.old.entries q ≡ merged (write_at (drop (index + 1) from.now.entries) q)
        (write_at other.now.entries q) (write_at base q) →
        write_at to.new.entries q ≡ merged (write_at (drop index from.now.entries) q)
        (write_at other.now.entries q) (write_at base q)) }
{
    let Some((key, write)) = from.get_index(index) else {
        return Ok(());
    };
    let write = copy_later(alloc, other.get(key), write)?;
    let key = key.copy(alloc)?;
    to.insert(key, write)?;
    Ok(())
}
