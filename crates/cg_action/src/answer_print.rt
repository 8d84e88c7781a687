//! Effects, answers and entries, as lines show them.

ghost use Rattle.std.specs.Prelude.{◌++◌, Some, codes};
ghost use Rattle.std.specs.List.{flat_map};
ghost use Rattle.std.specs.Fmt.{WritesOnOk};
ghost use Rattle.cg_text.specs.Quoted.{quoted};
ghost use Rattle.cg_action.specs.Print.{value_text};
ghost use Rattle.cg_action.specs.AnswerPrint.{effect_text, next_key_text, answer_text};

use crate::{Answer, DbEntry, Effect};
use cg_text::{Quoted, Txt};
use std::fmt;
use std::fmt::{Display, Formatter, Write};

impl Display for Effect {
    ghost output = { λ effect. Some (effect_text effect) };

    fn fmt<W: Write>(&self, f: &mut Formatter<W>) -> fmt::Result {
        match self {
            Effect::Done => f.write_str("done"),
            Effect::Aborted(number) => write!(f, "aborted {number}"),
            Effect::Range(number) => write!(f, "range {number}"),
        }
    }
}

impl Display for Answer {
    ghost output = { λ answer. Some (answer_text answer) };

    fn fmt<W: Write>(&self, f: &mut Formatter<W>) -> fmt::Result {
        match self {
            Answer::Absent => f.write_str("absent"),
            Answer::Text(text) => write!(f, "{}", Quoted(text)),
            Answer::Int(n) => write!(f, "{n}"),
            Answer::Keys(keys) => write_keys(f, keys.as_slice()),
            Answer::Count(n) => write!(f, "count {n}"),
        }
    }
}

fn write_keys<W: Write>(f: &mut Formatter<W>, keys: &[Txt]) -> fmt::Result
    ensures { WritesOnOk W.write_str_gives f.old result (codes "keys" ++ flat_map next_key_text keys.now) f.new }
{
    f.write_str("keys")?;
    for key in keys {
        write!(f, " {}", Quoted(key))?;
    }
    Ok(())
}

/// As `"key"=value`.
impl Display for DbEntry {
    ghost output = { λ entry. Some (quoted entry.key ++ codes "=" ++ value_text entry.value) };

    fn fmt<W: Write>(&self, f: &mut Formatter<W>) -> fmt::Result {
        write!(f, "{}={}", Quoted(&self.key), &self.value)
    }
}
