//! What the commands of an action write.

ghost use Rattle.std.specs.Prelude.{◌≡◌, ℕ, ◌<◌, ◌≤◌, ◌+◌, ◌^◌, List, [], length, IfOk, All, if◌then◌else◌, ◌==◌, ◌+ℤ◌};
ghost use Rattle.std.specs.List.{list_all};
ghost use Rattle.indexmap.specs.IndexMap.{spare};
ghost use Rattle.cg_action.specs.ActionLimits.{IsCommand};
ghost use Rattle.cg_relaxed.specs.Writes.{is_plain, counted, adds, sum_after, write_of, written_from, later, first_stamp};
ghost use Rattle.cg_relaxed.specs.RelaxedState.{sum_at, write_at, IsWithin};

use crate::registers::{Registers, write_to};
use crate::sum_key::SumKey;
use crate::sums::{Sums, add_to};
use crate::write::{Stamp, Write};
use cg_action::{Action, Cmd, Kind};
use cg_base::NoMemory;
use std::alloc::Global;

/// The commands that count: those of an update of plain commands alone.
pub(crate) fn counted(kind: &Kind) -> &[Cmd]
    ensures { result.now ≡ counted kind.now }
{
    match kind {
        Kind::Update { cmds, .. } => all_plain(cmds.as_slice()),
        Kind::Join(..) => &[],
        Kind::Leave(_) => &[],
    }
}

fn all_plain(cmds: &[Cmd]) -> &[Cmd]
    ensures { result.now ≡ (if list_all is_plain cmds.now then cmds.now else []) }
{
    if are_plain(cmds) { cmds } else { &[] }
}

fn are_plain(cmds: &[Cmd]) -> bool
    ensures { result ≡ list_all is_plain cmds.now }
{
    cmds.iter().all(|cmd| is_plain(cmd))
}

// a command that asks nothing of what stands there
fn is_plain(cmd: &Cmd) -> bool
    ensures { result ≡ is_plain cmd.now }
{
    matches!(cmd, Cmd::Put { .. } | Cmd::Del { .. } | Cmd::Inc { .. })
}

/// Other commands that are the same.
pub(crate) fn copy_all(alloc: Global, cmds: &[Cmd]) -> Result<Vec<Cmd>, NoMemory>
    ensures { IfOk result (λ copies. copies.items ≡ cmds.now) }
{
    let mut copies = Vec::with_capacity(alloc, cmds.len())?;
    for cmd in cmds {
        copies.push(cmd.copy(alloc)?)?;
    }
    Ok(copies)
}

/// The stamp of an action's first command.
pub(crate) fn first_stamp(a: &Action) -> Stamp
    ensures { result ≡ first_stamp a.now }
{
    Stamp {
        green_line: a.green_line,
        index: a.id.index,
        creator: a.id.creator.get(),
        place: 1,
    }
}

/// Runs commands, of which the first has the stamp, where there is room for all of them.
pub(crate) fn run_each(sums: &mut Sums, registers: &mut Registers, first: Stamp, cmds: Vec<Cmd>)
    requires few { length cmds.items ≤ 16 }
    requires each { All IsCommand cmds.items }
    requires place { first.place ≡ 1 }
    requires within { (key : List ℕ) → IsWithin (2 ^ 107) (sum_at sums.old.entries key first.creator) }
    requires sums_room { length cmds.items ≤ spare sums.old }
    requires registers_room { length cmds.items ≤ spare registers.old }
    ensures sums { (key : List ℕ) (p : ℕ) → sum_at sums.new.entries key p ≡
        (if p == first.creator then sum_after (sum_at sums.old.entries key p) key cmds.items
        else sum_at sums.old.entries key p) }
    ensures registers { (key : List ℕ) → write_at registers.new.entries key ≡
        later (write_at registers.old.entries key) (written_from key first cmds.items) }
{
    let mut stamp = first;
    for cmd in cmds {
        run_one(sums, registers, stamp, cmd);
        stamp.place += 1;
    }
}

fn run_one(sums: &mut Sums, registers: &mut Registers, stamp: Stamp, cmd: Cmd)
    requires command { IsCommand cmd }
    requires within { (key : List ℕ) → IsWithin (2 ^ 108) (sum_at sums.old.entries key stamp.creator) }
    requires sums_room { 0 < spare sums.old }
    requires registers_room { 0 < spare registers.old }
    ensures sums { (key : List ℕ) (p : ℕ) → sum_at sums.new.entries key p ≡
        (if p == stamp.creator then sum_at sums.old.entries key p +ℤ adds key cmd
        else sum_at sums.old.entries key p) }
    ensures registers { (key : List ℕ) → write_at registers.new.entries key ≡
        later (write_at registers.old.entries key) (write_of key stamp cmd) }
    ensures left_sums { spare sums.old ≤ spare sums.new + 1 }
    ensures left_registers { spare registers.old ≤ spare registers.new + 1 }
{
    match cmd {
        Cmd::Put { key, value } => write_to(
            registers,
            key,
            Write {
                stamp,
                value: Some(value),
            },
        ),
        Cmd::Del { key } => write_to(registers, key, Write { stamp, value: None }),
        Cmd::Inc { key, by } => add_to(
            sums,
            SumKey {
                creator: stamp.creator,
                key,
            },
            by,
        ),
        _ => {}
    }
}
