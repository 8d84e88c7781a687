//! What actions did, and what queries found.

ghost use Rattle.cg_base.specs.Lists.{Each};
ghost use Rattle.cg_short.specs.Short.{IfAny, IsShortEffect, IsShortAnswer, IsShortDbEntry};

use crate::actions::{integer_is_short, value_is_short};
use crate::names::{byte_is_short, number_is_short};
use cg_action::{Answer, DbEntry, Effect};

pub fn effect_is_short(effect: Effect)
    ensures { IsShortEffect effect }
{
    match effect {
        Effect::Done => {}
        Effect::Aborted(place) => byte_is_short(place),
        Effect::Range(place) => byte_is_short(place),
    }
}

pub fn answer_is_short(answer: &Answer)
    ensures { IsShortAnswer answer.now }
{
    match answer {
        Answer::Absent => {}
        Answer::Text(_) => {}
        Answer::Int(n) => integer_is_short(*n),
        Answer::Keys(_) => {}
        Answer::Count(n) => number_is_short(*n),
    }
}

pub fn told_is_short(answer: &Option<Answer>)
    ensures { IfAny IsShortAnswer answer.now }
{
    match answer {
        Some(answer) => answer_is_short(answer),
        None => {}
    }
}

pub fn entries_are_short(entries: &[DbEntry])
    ensures { Each IsShortDbEntry entries.now }
{
    for entry in entries {
        value_is_short(&entry.value);
    }
}
