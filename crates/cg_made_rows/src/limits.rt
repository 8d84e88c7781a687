//! The limits within which all actions lie that replicas create.

ghost use Rattle.std.specs.Prelude.{◌≡◌, true, All, FitsSigned};
ghost use Rattle.std.specs.Int.{w64};
ghost use Rattle.cg_action.specs.ActionLimits.{IsAction, IsCommand, IsKey, IsValue, IsWant};
ghost use Rattle.cg_action.specs.Limits.{IsAskedOf, IsKind, IsTextWithin, IsUpdate};

use cg_action::{Action, BoxedOption, Cmd, Kind, Query, Value};
use cg_base::NUMBER_LIMIT;
use cg_text::Txt;

/// The action lies within the limits.
pub(crate) fn is_action(action: &Action) -> bool
    ensures { result ≡ true → IsAction action.now }
{
    action.id.creator.holds();
    let index = action.id.index;
    0 < index
        && index < NUMBER_LIMIT
        && action.green_line < NUMBER_LIMIT
        && is_kind(action.kind.get())
}

fn is_kind(kind: &Kind) -> bool
    ensures { result ≡ true → IsKind kind.now }
{
    match kind {
        Kind::Update { cmds, query } => is_update(cmds.as_slice(), query),
        Kind::Join(joiner, weight) => {
            joiner.holds();
            *weight >= 1
        }
        Kind::Leave(server) => {
            server.holds();
            true
        }
    }
}

fn is_update(cmds: &[Cmd], query: &Option<Query>) -> bool
    ensures { result ≡ true → IsUpdate cmds.now query.now }
{
    let does = !cmds.is_empty() || query.is_some();
    does && cmds.len() <= 16 && are_commands(cmds) && is_asked(query)
}

fn are_commands(cmds: &[Cmd]) -> bool
    ensures { result ≡ true → All IsCommand cmds.now }
{
    for cmd in cmds {
        if !is_command(cmd) {
            return false;
        }
    }
    true
}

fn is_command(cmd: &Cmd) -> bool
    ensures { result ≡ true → IsCommand cmd.now }
{
    match cmd {
        Cmd::Put { key, value } => is_key(key) && is_value(value),
        Cmd::Del { key } => is_key(key),
        Cmd::Inc { key, by } => {
            integer_fits(*by);
            is_key(key)
        }
        Cmd::Cas { key, want, value } => is_key(key) && is_want(want) && is_value(value.get()),
        Cmd::Move {
            source,
            target,
            amount,
        } => {
            let amount = *amount;
            is_key(source) && is_key(target) && amount >= 0
        }
        Cmd::Need { key, want } => is_key(key) && is_want(want),
    }
}

fn is_asked(query: &Option<Query>) -> bool
    ensures { result ≡ true → IsAskedOf IsTextWithin query.now }
{
    match query {
        Some(Query::Get(key)) => is_key(key),
        Some(Query::Keys(prefix)) => is_text(prefix, 0, 64),
        _ => true,
    }
}

fn is_want(want: &BoxedOption<Value>) -> bool
    ensures { result ≡ true → IsWant want.now }
{
    match want.get() {
        Some(value) => is_value(value),
        None => true,
    }
}

fn is_value(value: &Value) -> bool
    ensures { result ≡ true → IsValue value.now }
{
    match value {
        Value::Text(text) => is_text(text, 0, 1024),
        Value::Int(number) => {
            integer_fits(*number);
            true
        }
    }
}

// what holds of every integer
fn integer_fits(n: i64)
    ensures { FitsSigned w64 n }
{}

fn is_key(key: &Txt) -> bool
    ensures { result ≡ true → IsKey key.now }
{
    is_text(key, 1, 64)
}

fn is_text(text: &Txt, low: usize, high: usize) -> bool
    ensures { result ≡ true → IsTextWithin low high text.now }
{
    let len = text.as_str().len();
    low <= len && len <= high
}
