//! Actions in bytes.

ghost use Rattle.std.specs.Prelude.{◌≡◌, ◌≤◌, ◌++◌, length, All, OnOk, OnErr, IfSome};
ghost use Rattle.cg_base.specs.Fronts.{KeepsFront};
ghost use Rattle.cg_codec.specs.Laws.{HasOptional};
ghost use Rattle.cg_codec.specs.Fields.{byte, list, optional, text, spelled_id};
ghost use Rattle.cg_action.specs.Limits.{IsQuery, IsUpdate, IsKind};
ghost use Rattle.cg_action.specs.ActionLimits.{IsAction, IsKey, IsValue, IsWant, IsCommand};
ghost use Rattle.cg_action.specs.Bytes.{spelled_value, spelled_want, spelled_command, spelled_query, spelled_join, spelled_kind, spelled_action};

use crate::{Action, Boxed, BoxedOption, Cmd, Kind, Query, Value};
use cg_base::{NoMemory, ReplicaId};
use cg_codec::{put_action_id, put_i64, put_text, put_truth, put_u8, put_u32, put_u64};
use cg_text::Txt;

/// Puts an action at the end. Where memory is refused nothing is put.
pub fn encode(a: &Action, out: &mut Vec<u8>) -> Result<(), NoMemory>
    requires { IsAction a.now }
    ensures ok { OnOk result (out.new.items ≡ out.old.items ++ spelled_action a.now) }
    ensures err { OnErr result (out.new.items ≡ out.old.items) }
{
    put_action(out, a)
}

/// Puts an action at the end. Where memory is refused nothing is put.
pub fn put_action(out: &mut Vec<u8>, v: &Action) -> Result<(), NoMemory>
    requires { IsAction v.now }
    ensures ok { OnOk result (out.new.items ≡ out.old.items ++ spelled_action v.now) }
    ensures err { OnErr result (out.new.items ≡ out.old.items) }
{
    let before = out.len();
    let written = write_action(out, v);
    if written.is_err() {
        out.truncate(before);
    }
    written
}

/// Puts a value at the end. Where memory is refused nothing is put.
pub fn put_value(out: &mut Vec<u8>, v: &Value) -> Result<(), NoMemory>
    requires { IsValue v.now }
    ensures ok { OnOk result (out.new.items ≡ out.old.items ++ spelled_value v.now) }
    ensures err { OnErr result (out.new.items ≡ out.old.items) }
{
    let before = out.len();
    let written = write_value(out, v);
    if written.is_err() {
        out.truncate(before);
    }
    written
}

// Each of these leaves what was there in front of what it wrote before memory was refused.

fn write_action(out: &mut Vec<u8>, action: &Action) -> Result<(), NoMemory>
    requires { IsAction action.now }
    ensures ok { OnOk result (out.new.items ≡ out.old.items ++ spelled_action action.now) }
    ensures err { OnErr result (KeepsFront out.old.items out.new.items) }
{
    put_action_id(out, &action.id)?;
    put_u64(out, action.green_line)?;
    write_kind(out, action.kind.get())
}

fn write_value(out: &mut Vec<u8>, value: &Value) -> Result<(), NoMemory>
    requires { IsValue value.now }
    ensures ok { OnOk result (out.new.items ≡ out.old.items ++ spelled_value value.now) }
    ensures err { OnErr result (KeepsFront out.old.items out.new.items) }
{
    match value {
        Value::Text(t) => {
            put_u8(out, 1)?;
            put_text(out, t.as_str())
        }
        Value::Int(n) => {
            put_u8(out, 2)?;
            put_i64(out, *n)
        }
    }
}

fn write_want(out: &mut Vec<u8>, want: &BoxedOption<Value>) -> Result<(), NoMemory>
    requires { IsWant want.now }
    ensures ok { OnOk result (out.new.items ≡ out.old.items ++ spelled_want want.now) }
    ensures err { OnErr result (KeepsFront out.old.items out.new.items) }
{
    match want.get() {
        None => put_u8(out, 0),
        Some(value) => write_value(out, value),
    }
}

fn write_command(out: &mut Vec<u8>, cmd: &Cmd) -> Result<(), NoMemory>
    requires { IsCommand cmd.now }
    ensures ok { OnOk result (out.new.items ≡ out.old.items ++ spelled_command cmd.now) }
    ensures err { OnErr result (KeepsFront out.old.items out.new.items) }
{
    match cmd {
        Cmd::Put { key, value } => {
            write_keyed(out, 1, key)?;
            write_value(out, value)
        }
        Cmd::Del { key } => write_keyed(out, 2, key),
        Cmd::Inc { key, by } => {
            write_keyed(out, 3, key)?;
            put_i64(out, *by)
        }
        Cmd::Cas { key, want, value } => {
            write_keyed(out, 4, key)?;
            write_swap(out, want, value)
        }
        Cmd::Move {
            source,
            target,
            amount,
        } => {
            write_keyed(out, 5, source)?;
            put_text(out, target.as_str())?;
            put_i64(out, *amount)
        }
        Cmd::Need { key, want } => {
            write_keyed(out, 6, key)?;
            write_want(out, want)
        }
    }
}

// a command's tag and its first key
fn write_keyed(out: &mut Vec<u8>, tag: u8, key: &Txt) -> Result<(), NoMemory>
    requires { IsKey key.now }
    ensures ok { OnOk result (out.new.items ≡ out.old.items ++ byte tag ++ text key.now) }
    ensures err { OnErr result (KeepsFront out.old.items out.new.items) }
{
    put_u8(out, tag)?;
    put_text(out, key.as_str())
}

// what a key is wanted to have, and what it is set to
fn write_swap(
    out: &mut Vec<u8>,
    want: &BoxedOption<Value>,
    value: &Boxed<Value>,
) -> Result<(), NoMemory>
    requires want { IsWant want.now }
    requires value { IsValue value.now }
    ensures ok { OnOk result (out.new.items ≡ out.old.items ++ spelled_want want.now ++ spelled_value value.now) }
    ensures err { OnErr result (KeepsFront out.old.items out.new.items) }
{
    write_want(out, want)?;
    write_value(out, value.get())
}

fn write_commands(out: &mut Vec<u8>, cmds: &[Cmd]) -> Result<(), NoMemory>
    requires few { length cmds.now ≤ 16 }
    requires each { All IsCommand cmds.now }
    ensures ok { OnOk result (out.new.items ≡ out.old.items ++ list spelled_command cmds.now) }
    ensures err { OnErr result (KeepsFront out.old.items out.new.items) }
{
    put_u32(out, cmds.len() as u32)?;
    for cmd in cmds {
        write_command(out, cmd)?;
    }
    Ok(())
}

fn write_query(out: &mut Vec<u8>, query: &Query) -> Result<(), NoMemory>
    requires { IsQuery query.now }
    ensures ok { OnOk result (out.new.items ≡ out.old.items ++ spelled_query query.now) }
    ensures err { OnErr result (KeepsFront out.old.items out.new.items) }
{
    match query {
        Query::Get(key) => {
            put_u8(out, 1)?;
            put_text(out, key.as_str())
        }
        Query::Keys(prefix) => {
            put_u8(out, 2)?;
            put_text(out, prefix.as_str())
        }
        Query::Count => put_u8(out, 3),
    }
}

fn write_query_or_none(out: &mut Vec<u8>, query: &Option<Query>) -> Result<(), NoMemory>
    requires { HasOptional IsQuery query.now }
    ensures ok { OnOk result (out.new.items ≡ out.old.items ++ optional spelled_query query.now) }
    ensures err { OnErr result (KeepsFront out.old.items out.new.items) }
{
    match query {
        None => put_u8(out, 0),
        Some(query) => {
            put_u8(out, 1)?;
            write_query(out, query)
        }
    }
}

fn write_join(out: &mut Vec<u8>, joiner: ReplicaId, weight: u8) -> Result<(), NoMemory>
    ensures ok { OnOk result (out.new.items ≡ out.old.items ++ spelled_join joiner weight) }
    ensures err { OnErr result (KeepsFront out.old.items out.new.items) }
{
    if weight == 1 {
        put_u8(out, 2)?;
        put_u8(out, joiner.get())
    } else {
        put_u8(out, 4)?;
        put_u8(out, joiner.get())?;
        put_u8(out, weight)
    }
}

fn write_kind(out: &mut Vec<u8>, kind: &Kind) -> Result<(), NoMemory>
    requires { IsKind kind.now }
    ensures ok { OnOk result (out.new.items ≡ out.old.items ++ spelled_kind kind.now) }
    ensures err { OnErr result (KeepsFront out.old.items out.new.items) }
{
    match kind {
        Kind::Update { cmds, query } => {
            put_u8(out, 1)?;
            write_commands(out, cmds.as_slice())?;
            write_query_or_none(out, query)
        }
        Kind::Join(joiner, weight) => write_join(out, *joiner, *weight),
        Kind::Leave(server) => {
            put_u8(out, 3)?;
            put_u8(out, server.get())
        }
    }
}
