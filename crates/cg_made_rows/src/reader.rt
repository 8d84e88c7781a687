//! The reader of the lines that ask for the relaxed database.

ghost use Rattle.std.specs.Prelude.{◌≡◌};
ghost use Rattle.std.specs.Str.{is_utf8};
ghost use Rattle.cg_schedule.specs.Fault.{Gives, of_text_fault};
ghost use Rattle.cg_schedule.specs.Part.{text};
ghost use Rattle.cg_schedule.specs.Command.{key_part};
ghost use Rattle.cg_schedule.specs.Reading.{TakesWithMemory, whole};
ghost use Rattle.cg_made_rows.specs.Line.{one_reading, both_reading, event_reading, relaxed_reading};

use crate::RelaxedEvent;
use crate::word::RelaxedWord;
use cg_schedule::{LineFault, SyntaxReason, take_id, take_token};
use cg_text::{TextFault, Txt, Words, is_passed_over, read_quoted};
use std::alloc::Global;
use std::str::from_utf8;

/// The event that the line is, without its end. None says that it is no line that asks for the relaxed database: it is
/// passed over, or its first token is none of their words.
#[tactic(auto, unfolding(crate::specs::Line::relaxed_reading))]
pub fn read_relaxed(alloc: Global, line: &[u8]) -> Result<Option<RelaxedEvent>, LineFault>
    ensures { Gives (relaxed_reading line.now) result }
{
    if is_passed_over(line) {
        return Ok(None);
    }
    let mut words = Words::new(line);
    let Some(token) = words.next() else {
        return Ok(None);
    };
    let Some(word) = RelaxedWord::of(token) else {
        return Ok(None);
    };
    if !is_utf8(line) {
        return Err(LineFault::Syntax(SyntaxReason::NotUtf8));
    }
    let event = whole_event(alloc, word, words)?;
    Ok(Some(event))
}

fn is_utf8(line: &[u8]) -> bool
    ensures { result ≡ is_utf8 line.now }
{
    match from_utf8(line) {
        Ok(_) => true,
        Err(_) => false,
    }
}

// the event that all of the tokens are
fn whole_event(alloc: Global, word: RelaxedWord, words: Words) -> Result<RelaxedEvent, LineFault>
    ensures { Gives (whole (event_reading word) words.entry) result }
{
    let mut words = words;
    let event = take_event(alloc, &mut words, word)?;
    match words.next() {
        None => Ok(event),
        Some(_) => Err(LineFault::Syntax(SyntaxReason::ExtraPart)),
    }
}

#[tactic(auto, unfolding(crate::specs::Line::event_reading))]
fn take_event(
    alloc: Global,
    words: &mut Words,
    word: RelaxedWord,
) -> Result<RelaxedEvent, LineFault>
    ensures { TakesWithMemory (λ e. e) (event_reading word) words.old words.new result }
{
    match word {
        RelaxedWord::Relaxed => take_one(alloc, words),
        RelaxedWord::Joined => take_both(alloc, words),
    }
}

#[tactic(auto, unfolding(crate::specs::Line::one_reading))]
fn take_one(alloc: Global, words: &mut Words) -> Result<RelaxedEvent, LineFault>
    ensures { TakesWithMemory (λ e. e) one_reading words.old words.new result }
{
    let p = take_id(words)?;
    let key = take_key(alloc, words)?;
    Ok(RelaxedEvent::One { p, key })
}

#[tactic(auto, unfolding(crate::specs::Line::both_reading))]
fn take_both(alloc: Global, words: &mut Words) -> Result<RelaxedEvent, LineFault>
    ensures { TakesWithMemory (λ e. e) both_reading words.old words.new result }
{
    let p = take_id(words)?;
    let q = take_id(words)?;
    let key = take_key(alloc, words)?;
    Ok(RelaxedEvent::Both { p, q, key })
}

#[tactic(auto, unfolding(cg_schedule::specs::Part::text_part))]
fn take_key(alloc: Global, words: &mut Words) -> Result<Txt, LineFault>
    ensures { TakesWithMemory (λ key. key) key_part words.old words.new result }
{
    let token = take_token(words)?;
    key(alloc, token)
}

// a text of 1 to 64 bytes between quotes
#[tactic(auto, unfolding(cg_schedule::specs::Part::text))]
fn key(alloc: Global, token: &[u8]) -> Result<Txt, LineFault>
    ensures { Gives (text 1 64 token.now) result }
{
    let text = match read_quoted(alloc, token, 64) {
        Ok(text) => text,
        Err(fault) => return Err(line_fault(fault)),
    };
    if text.len() < 1 {
        return Err(LineFault::Syntax(SyntaxReason::BadText));
    }
    Ok(text)
}

// what the fault of a text says of the line
fn line_fault(fault: TextFault) -> LineFault
    ensures { result ≡ of_text_fault fault }
{
    match fault {
        TextFault::NoMemory => LineFault::NoMemory,
        _ => LineFault::Syntax(SyntaxReason::BadText),
    }
}
