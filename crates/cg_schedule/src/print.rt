//! Events as the lines that spell them.

ghost use Rattle.std.specs.Prelude.{◌≡◌, ◌++◌, Some, codes, flat_map, OnOk, OnErr};
ghost use Rattle.std.specs.Fmt.{WritesOnOk};
ghost use Rattle.cg_schedule.specs.Print.{id_behind, member_behind, hex_text, fill_text, line_of};

use crate::Event;
use cg_action::Update;
use cg_base::{IdSet, NoMemory, WeightSet, Weighted, put_shown};
use std::fmt;
use std::fmt::{Display, Formatter, Write};

/// Its line, without the line's end.
impl Display for Event {
    ghost output = { λ event. Some (line_of event) };

    fn fmt<W: Write>(&self, f: &mut Formatter<W>) -> fmt::Result {
        match self {
            Event::Start(set) => write_members(f, set),
            Event::Split(set) => write!(f, "split{}", Behind(set)),
            Event::Merge(set) => write!(f, "merge{}", Behind(set)),
            Event::Request { p, cmds, query } => {
                let cmds = cmds.as_slice();
                write!(f, "request {p} {}", Update { cmds, query })
            }
            Event::Weak { p, query } => write!(f, "weak {p} {query}"),
            Event::Dirty { p, query } => write!(f, "dirty {p} {query}"),
            Event::Order(p) => write!(f, "order {p}"),
            Event::Recover(p) => write!(f, "recover {p}"),
            Event::RecoverStopped { p, call, fill } => {
                write!(f, "recover {p} {call} {}", Fill(fill.as_slice()))
            }
            Event::Downgrade(p) => write!(f, "downgrade {p}"),
            Event::Show(p) => write!(f, "show {p}"),
            Event::ShowOrder => f.write_str("show order"),
            Event::Gather => f.write_str("gather"),
            Event::End => f.write_str("end"),
            Event::Receive { p, place } => write!(f, "receive {p} {place}"),
            Event::Deliver { p, count } => write!(f, "deliver {p} {count}"),
            Event::Rounds(count) => write!(f, "rounds {count}"),
            Event::Stop { p, call, fill } => write!(f, "stop {p} {call} {}", Fill(fill.as_slice())),
            Event::Fail { p, call } => write!(f, "fail {p} {call}"),
            Event::Join { p, joiner, weight } => {
                let (id, weight) = (*joiner, *weight);
                write!(f, "join {p} {}", Weighted { id, weight })
            }
            Event::Leave { p, server } => write!(f, "leave {p} {server}"),
            Event::Transfer { p, joiner, pieces } => write!(f, "transfer {p} {joiner} {pieces}"),
        }
    }
}

/// Puts the line of the event at the end, without the line's end. Where memory is refused nothing is put.
pub fn print_line(e: &Event, out: &mut Vec<u8>) -> Result<(), NoMemory>
    ensures ok { OnOk result (out.new.items ≡ out.old.items ++ line_of e.now) }
    ensures err { OnErr result (out.new.items ≡ out.old.items) }
{
    put_shown(out, e)
}

// the servers of a start
fn write_members<W: Write>(f: &mut Formatter<W>, set: &WeightSet) -> fmt::Result
    ensures { WritesOnOk W.write_str_gives f.old result (codes "start" ++ flat_map member_behind set.now) f.new }
{
    f.write_str("start")?;
    for m in set.iter() {
        write!(f, " {m}")?;
    }
    Ok(())
}

// identifiers, each behind a blank
#[derive(Clone, Copy)]
struct Behind<'a>(&'a IdSet);

impl Display for Behind<'_> {
    ghost output = { λ set. Some (flat_map id_behind set.0.now) };

    fn fmt<W: Write>(&self, f: &mut Formatter<W>) -> fmt::Result {
        for p in self.0.iter() {
            write!(f, " {p}")?;
        }
        Ok(())
    }
}

// bytes in hexadecimal digits, a hyphen for none
#[derive(Clone, Copy)]
struct Fill<'a>(&'a [u8]);

impl Display for Fill<'_> {
    ghost output = { λ fill. Some (fill_text fill.0.now) };

    fn fmt<W: Write>(&self, f: &mut Formatter<W>) -> fmt::Result {
        if self.0.is_empty() {
            return f.write_str("-");
        }
        write_digits(f, self.0)
    }
}

fn write_digits<W: Write>(f: &mut Formatter<W>, bytes: &[u8]) -> fmt::Result
    ensures { WritesOnOk W.write_str_gives f.old result (flat_map hex_text bytes.now) f.new }
{
    for byte in bytes {
        write_byte(f, *byte)?;
    }
    Ok(())
}

#[tactic(auto, using(std::proofs::lemmas::Fmt::hex_byte))]
fn write_byte<W: Write>(f: &mut Formatter<W>, byte: u8) -> fmt::Result
    ensures { WritesOnOk W.write_str_gives f.old result (hex_text byte) f.new }
{
    write!(f, "{byte:02x}")
}
