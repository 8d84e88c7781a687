//! The reader of the lines of sessions.

ghost use Rattle.std.specs.Prelude.{◌≡◌};
ghost use Rattle.std.specs.Str.{is_utf8};
ghost use Rattle.cg_schedule.specs.Fault.{Gives};
ghost use Rattle.cg_schedule.specs.Reading.{Takes, TakesWithMemory, whole};
ghost use Rattle.cg_session.specs.Line.{begin_reading, write_reading, weak_reading, event_reading, session_reading};

use crate::SessionEvent;
use crate::word::SessionWord;
use cg_schedule::{LineFault, SyntaxReason, take_id, take_query, take_update};
use cg_text::{Words, is_passed_over};
use std::alloc::Global;
use std::str::from_utf8;

/// The event that the line is, without its end. None says that it is no line of sessions: it is passed over, or its
/// first token is none of their words.
#[tactic(auto, unfolding(crate::specs::Line::session_reading))]
pub fn read_session(alloc: Global, line: &[u8]) -> Result<Option<SessionEvent>, LineFault>
    ensures { Gives (session_reading line.now) result }
{
    if is_passed_over(line) {
        return Ok(None);
    }
    let mut words = Words::new(line);
    let Some(token) = words.next() else {
        return Ok(None);
    };
    let Some(word) = SessionWord::of(token) else {
        return Ok(None);
    };
    if !is_utf8(line) {
        return Err(LineFault::Syntax(SyntaxReason::NotUtf8));
    }
    let event = whole_event(alloc, word, words)?;
    Ok(Some(event))
}

fn is_utf8(line: &[u8]) -> bool
    ensures { result ≡ is_utf8 line.now }
{
    match from_utf8(line) {
        Ok(_) => true,
        Err(_) => false,
    }
}

// the event that all of the tokens are
fn whole_event(alloc: Global, word: SessionWord, words: Words) -> Result<SessionEvent, LineFault>
    ensures { Gives (whole (event_reading word) words.entry) result }
{
    let mut words = words;
    let event = take_event(alloc, &mut words, word)?;
    match words.next() {
        None => Ok(event),
        Some(_) => Err(LineFault::Syntax(SyntaxReason::ExtraPart)),
    }
}

#[tactic(auto, unfolding(crate::specs::Line::event_reading))]
fn take_event(
    alloc: Global,
    words: &mut Words,
    word: SessionWord,
) -> Result<SessionEvent, LineFault>
    ensures { TakesWithMemory (λ e. e) (event_reading word) words.old words.new result }
{
    match word {
        SessionWord::Session => take_begin(words),
        SessionWord::Swrite => take_write(alloc, words),
        SessionWord::Sweak => take_weak(alloc, words),
    }
}

#[tactic(auto, unfolding(crate::specs::Line::begin_reading))]
fn take_begin(words: &mut Words) -> Result<SessionEvent, LineFault>
    ensures { Takes (λ e. e) begin_reading words.old words.new result }
{
    let s = take_id(words)?;
    Ok(SessionEvent::Begin(s.get()))
}

#[tactic(auto, unfolding(crate::specs::Line::write_reading))]
fn take_write(alloc: Global, words: &mut Words) -> Result<SessionEvent, LineFault>
    ensures { TakesWithMemory (λ e. e) write_reading words.old words.new result }
{
    let s = take_id(words)?.get();
    let p = take_id(words)?;
    let (cmds, query) = take_update(alloc, words)?;
    Ok(SessionEvent::Write { s, p, cmds, query })
}

#[tactic(auto, unfolding(crate::specs::Line::weak_reading))]
fn take_weak(alloc: Global, words: &mut Words) -> Result<SessionEvent, LineFault>
    ensures { TakesWithMemory (λ e. e) weak_reading words.old words.new result }
{
    let s = take_id(words)?.get();
    let p = take_id(words)?;
    let query = take_query(alloc, words)?;
    Ok(SessionEvent::Weak { s, p, query })
}
