//! Actions and their parts, as lines show them.

ghost use Rattle.std.specs.Prelude.{◌≡◌, ◌++◌, Some, codes, OnOk, OnErr};
ghost use Rattle.std.specs.Fmt.{WritesOnOk};
ghost use Rattle.cg_base.specs.Text.{id_text};
ghost use Rattle.cg_action.specs.Print.{value_text, want_text, command_text, commands_text, query_text, update_text, kind_text};

use crate::{Action, BoxedOption, Cmd, Kind, Query, Value};
use cg_base::{NoMemory, Weighted, put_shown};
use cg_text::Quoted;
use std::fmt;
use std::fmt::{Display, Formatter, Write};

impl Display for Value {
    ghost output = { λ value. Some (value_text value) };

    fn fmt<W: Write>(&self, f: &mut Formatter<W>) -> fmt::Result {
        match self {
            Value::Text(text) => write!(f, "{}", Quoted(text)),
            Value::Int(n) => write!(f, "{n}"),
        }
    }
}

// a wanted value, or that there is none
#[derive(Clone, Copy)]
struct Want<'a>(&'a BoxedOption<Value>);

impl Display for Want<'_> {
    ghost output = { λ want. Some (want_text want.0.now) };

    fn fmt<W: Write>(&self, f: &mut Formatter<W>) -> fmt::Result {
        match self.0.get() {
            None => f.write_str("absent"),
            Some(value) => write!(f, "{value}"),
        }
    }
}

/// As it stands in a line.
impl Display for Cmd {
    ghost output = { λ cmd. Some (command_text cmd) };

    fn fmt<W: Write>(&self, f: &mut Formatter<W>) -> fmt::Result {
        match self {
            Cmd::Put { key, value } => write!(f, "put {} {value}", Quoted(key)),
            Cmd::Del { key } => write!(f, "del {}", Quoted(key)),
            Cmd::Inc { key, by } => write!(f, "inc {} {by}", Quoted(key)),
            Cmd::Cas { key, want, value } => {
                let value = value.get();
                write!(f, "cas {} {} {value}", Quoted(key), Want(want))
            }
            Cmd::Move {
                source,
                target,
                amount,
            } => write!(f, "move {} {} {amount}", Quoted(source), Quoted(target)),
            Cmd::Need { key, want } => write!(f, "need {} {}", Quoted(key), Want(want)),
        }
    }
}

/// As it stands in a line.
impl Display for Query {
    ghost output = { λ query. Some (query_text query) };

    fn fmt<W: Write>(&self, f: &mut Formatter<W>) -> fmt::Result {
        match self {
            Query::Get(key) => write!(f, "get {}", Quoted(key)),
            Query::Keys(prefix) => write!(f, "keys {}", Quoted(prefix)),
            Query::Count => f.write_str("count"),
        }
    }
}

/// Commands, and a query behind them where there is one, as they are shown.
#[derive(Clone, Copy)]
pub struct Update<'a> {
    pub cmds: &'a [Cmd],
    pub query: &'a Option<Query>,
}

impl Display for Update<'_> {
    ghost output = { λ update. Some (update_text update.cmds.now update.query.now) };

    fn fmt<W: Write>(&self, f: &mut Formatter<W>) -> fmt::Result {
        let Some(query) = self.query else {
            return write_commands(f, self.cmds);
        };
        if self.cmds.is_empty() {
            return write!(f, "? {query}");
        }
        write_commands(f, self.cmds)?;
        write!(f, " ? {query}")
    }
}

fn write_commands<W: Write>(f: &mut Formatter<W>, cmds: &[Cmd]) -> fmt::Result
    ensures { WritesOnOk W.write_str_gives f.old result (commands_text cmds.now) f.new }
{
    let Some((first, others)) = cmds.split_first() else {
        return Ok(());
    };
    write!(f, "{first}")?;
    for cmd in others {
        write!(f, "; {cmd}")?;
    }
    Ok(())
}

/// The commands and the query, or the join or leave, as lines show them.
impl Display for Kind {
    ghost output = { λ kind. Some (kind_text kind) };

    fn fmt<W: Write>(&self, f: &mut Formatter<W>) -> fmt::Result {
        match self {
            Kind::Update { cmds, query } => {
                let cmds = cmds.as_slice();
                write!(f, "{}", Update { cmds, query })
            }
            Kind::Join(joiner, weight) => {
                let (id, weight) = (*joiner, *weight);
                write!(f, "join {}", Weighted { id, weight })
            }
            Kind::Leave(server) => write!(f, "leave {server}"),
        }
    }
}

/// Its name and what it does, as a report shows it where it is made. Its green line isn't shown.
impl Display for Action {
    ghost output = { λ action. Some (id_text action.id ++ codes " " ++ kind_text action.kind) };

    fn fmt<W: Write>(&self, f: &mut Formatter<W>) -> fmt::Result {
        write!(f, "{} {}", self.id, self.kind.get())
    }
}

/// Puts the commands and the query, or the join or leave, as lines show it. Where memory is refused nothing is put.
pub fn print_kind(k: &Kind, out: &mut Vec<u8>) -> Result<(), NoMemory>
    ensures ok { OnOk result (out.new.items ≡ out.old.items ++ kind_text k.now) }
    ensures err { OnErr result (out.new.items ≡ out.old.items) }
{
    put_shown(out, k)
}

/// Puts a value as lines show it. Where memory is refused nothing is put.
pub fn print_value(value: &Value, out: &mut Vec<u8>) -> Result<(), NoMemory>
    ensures ok { OnOk result (out.new.items ≡ out.old.items ++ value_text value.now) }
    ensures err { OnErr result (out.new.items ≡ out.old.items) }
{
    put_shown(out, value)
}
