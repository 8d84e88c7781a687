//! What actions do.

ghost use Rattle.cg_base.specs.Lists.{Each};
ghost use Rattle.cg_short.specs.Short.{IfAny, IsShortInt, IsShortValue, IsShortCommand, IsShortKind};

use crate::names::{byte_is_short, replica_is_short};
use cg_action::{BoxedOption, Cmd, Kind, Value};

pub fn integer_is_short(n: i64)
    ensures { IsShortInt n }
{}

pub fn value_is_short(value: &Value)
    ensures { IsShortValue value.now }
{
    match value {
        Value::Text(_) => {}
        Value::Int(n) => integer_is_short(*n),
    }
}

fn want_is_short(want: &BoxedOption<Value>)
    ensures { IfAny IsShortValue want.now }
{
    match want.get() {
        Some(value) => value_is_short(value),
        None => {}
    }
}

fn command_is_short(cmd: &Cmd)
    ensures { IsShortCommand cmd.now }
{
    match cmd {
        Cmd::Put { key: _, value } => value_is_short(value),
        Cmd::Del { key: _ } => {}
        Cmd::Inc { key: _, by } => integer_is_short(*by),
        Cmd::Cas {
            key: _,
            want,
            value,
        } => {
            want_is_short(want);
            value_is_short(value.get());
        }
        Cmd::Move {
            source: _,
            target: _,
            amount,
        } => integer_is_short(*amount),
        Cmd::Need { key: _, want } => want_is_short(want),
    }
}

fn commands_are_short(cmds: &[Cmd])
    ensures { Each IsShortCommand cmds.now }
{
    for cmd in cmds {
        command_is_short(cmd);
    }
}

pub fn kind_is_short(kind: &Kind)
    ensures { IsShortKind kind.now }
{
    match kind {
        Kind::Update { cmds, query: _ } => commands_are_short(cmds.as_slice()),
        Kind::Join(joiner, weight) => {
            replica_is_short(*joiner);
            byte_is_short(*weight);
        }
        Kind::Leave(server) => replica_is_short(*server),
    }
}
