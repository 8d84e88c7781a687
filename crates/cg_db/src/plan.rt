//! What an action is going to change, worked out before anything is written.

ghost use Rattle.std.specs.Prelude.{◌≡◌, ◌≤◌, ◌≤ℤ◌, pos, length, All, IfOk, OnOk};
ghost use Rattle.std.specs.Option.{option_copied};
ghost use Rattle.cg_action.specs.ActionLimits.{IsCommand};
ghost use Rattle.cg_action.specs.declared.command.Cmd.TheVariants.{Cas, Move};
ghost use Rattle.cg_db.specs.Map.{value_of, has_value};
ghost use Rattle.cg_db.specs.Apply.{Changed, number_of, add_to, move_number, run_command, run_commands};
ghost use Rattle.cg_db.specs.Plan.{listed, set_option, with_changes, ran, left_by};

use crate::Db;
use crate::changes::{Changes, KeyChange};
use cg_action::{Boxed, BoxedOption, Cmd, Effect, Value};
use cg_base::NoMemory;
use cg_text::Txt;

/// How a command ended.
#[derive(Clone, Copy, Debug, PartialEq, Eq)]
pub(crate) enum CommandEnd {
    Goes,
    Fails,
    Overflows,
}

/// Works out the changes of the commands, behind changes that aren't written yet.
pub(crate) fn plan(db: &Db, changes: &mut Changes, cmds: &[Cmd]) -> Result<Effect, NoMemory>
    requires few { length cmds.now ≤ 16 }
    requires each { All IsCommand cmds.now }
    ensures { IfOk result (λ effect. run_commands db.now 0 cmds.now (Changed (with_changes db.now (listed changes.old)))
        ≡ record { db = left_by effect db.now (with_changes db.now (listed changes.new)); effect = effect }) }
{
    for (i, cmd) in cmds.iter().enumerate() {
        let number = i as u8 + 1;
        match run_command(db, changes, cmd)? {
            CommandEnd::Goes => {}
            CommandEnd::Fails => return Ok(Effect::Aborted(number)),
            CommandEnd::Overflows => return Ok(Effect::Range(number)),
        }
    }
    Ok(Effect::Done)
}

fn run_command(db: &Db, changes: &mut Changes, cmd: &Cmd) -> Result<CommandEnd, NoMemory>
    requires { IsCommand cmd.now }
    ensures { IfOk result (λ step. run_command (with_changes db.now (listed changes.old)) cmd.now ≡
        ran step (with_changes db.now (listed changes.new))) }
{
    match cmd {
        Cmd::Put { key, value } => {
            let value = value.copy(db.alloc())?;
            set(db, changes, key, Some(value))?;
            Ok(CommandEnd::Goes)
        }
        Cmd::Del { key } => {
            set(db, changes, key, None)?;
            Ok(CommandEnd::Goes)
        }
        Cmd::Inc { key, by } => add(db, changes, key, *by),
        Cmd::Cas { key, want, value } => swap(db, changes, key, want, value),
        Cmd::Move {
            source,
            target,
            amount,
        } => move_amount(db, changes, source, target, *amount),
        Cmd::Need { key, want } => {
            if has(db, changes, key, want) {
                Ok(CommandEnd::Goes)
            } else {
                Ok(CommandEnd::Fails)
            }
        }
    }
}

// one more change
fn set(db: &Db, changes: &mut Changes, key: &Txt, value: Option<Value>) -> Result<(), NoMemory>
    ensures { OnOk result (with_changes db.now (listed changes.new) ≡
        set_option (with_changes db.now (listed changes.old)) key.now value) }
{
    let key = key.copy(db.alloc())?;
    changes.push(KeyChange { key, value })?;
    Ok(())
}

fn add(db: &Db, changes: &mut Changes, key: &Txt, by: i64) -> Result<CommandEnd, NoMemory>
    ensures { IfOk result (λ step. add_to (with_changes db.now (listed changes.old)) key.now by ≡
        ran step (with_changes db.now (listed changes.new))) }
{
    let Some(number) = number_in(db, changes, key) else {
        return Ok(CommandEnd::Fails);
    };
    let Some(sum) = number.checked_add(by) else {
        return Ok(CommandEnd::Overflows);
    };
    set(db, changes, key, Some(Value::Int(sum)))?;
    Ok(CommandEnd::Goes)
}

// sets the key where it has what is wanted
fn swap(
    db: &Db,
    changes: &mut Changes,
    key: &Txt,
    want: &BoxedOption<Value>,
    value: &Boxed<Value>,
) -> Result<CommandEnd, NoMemory>
    ensures { IfOk result (λ step. run_command (with_changes db.now (listed changes.old)) (Cas key.now want.now
        value.now) ≡ ran step (with_changes db.now (listed changes.new))) }
{
    if !has(db, changes, key, want) {
        return Ok(CommandEnd::Goes);
    }
    let value = value.get().copy(db.alloc())?;
    set(db, changes, key, Some(value))?;
    Ok(CommandEnd::Goes)
}

// The target may be the source: its number is read behind the first change.
fn move_amount(
    db: &Db,
    changes: &mut Changes,
    source: &Txt,
    target: &Txt,
    amount: i64,
) -> Result<CommandEnd, NoMemory>
    requires { pos 0 ≤ℤ amount }
    ensures { IfOk result (λ step. run_command (with_changes db.now (listed changes.old)) (Move source.now target.now
        amount) ≡ ran step (with_changes db.now (listed changes.new))) }
{
    let Some(number) = number_in(db, changes, source) else {
        return Ok(CommandEnd::Fails);
    };
    if number < amount {
        return Ok(CommandEnd::Fails);
    }
    set(db, changes, source, Some(Value::Int(number - amount)))?;
    add(db, changes, target, amount)
}

// what a key has behind the changes
fn value_in<'a>(db: &'a Db, changes: &'a Changes, key: &Txt) -> Option<&'a Value>
    ensures { option_copied result ≡ value_of (with_changes db.now (listed changes.now)) key.now }
{
    let mut value = value_behind(db, changes.earlier.as_slice(), key);
    if let Some(last) = &changes.last {
        if *key == last.key {
            value = last.value.as_ref();
        }
    }
    value
}

fn value_behind<'a>(db: &'a Db, changes: &'a [KeyChange], key: &Txt) -> Option<&'a Value>
    ensures { option_copied result ≡ value_of (with_changes db.now changes.now) key.now }
{
    let mut value = db.value(key);
    for change in changes {
        if *key == change.key {
            value = change.value.as_ref();
        }
    }
    value
}

// the number of a key behind the changes, 0 where it is absent; None says that it has a text
fn number_in(db: &Db, changes: &Changes, key: &Txt) -> Option<i64>
    ensures { result ≡ number_of (value_of (with_changes db.now (listed changes.now)) key.now) }
{
    match value_in(db, changes, key) {
        None => Some(0),
        Some(value) => match value {
            Value::Int(number) => Some(*number),
            Value::Text(_) => None,
        },
    }
}

// the key has what is wanted behind the changes
fn has(db: &Db, changes: &Changes, key: &Txt, want: &BoxedOption<Value>) -> bool
    ensures { result ≡ has_value (with_changes db.now (listed changes.now)) key.now want.now }
{
    value_in(db, changes, key) == want.get()
}
