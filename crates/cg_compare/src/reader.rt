//! The reader of the lines of logs.

ghost use Rattle.std.specs.Prelude.{◌≡◌, ◌≤◌, [], Some, None, Ok, Err, IfOk, MatchOption};
ghost use Rattle.std.specs.Option.{option_map_or};
ghost use Rattle.std.specs.Str.{is_utf8};
ghost use Rattle.cg_schedule.specs.Fault.{Gives, bad_number};
ghost use Rattle.cg_schedule.specs.Part.{number};
ghost use Rattle.cg_schedule.specs.Reading.{TakesWithMemory, whole};
ghost use Rattle.cg_compare.specs.Lines.{each_id, ids_part, line_reading, log_reading, opening, read_id, read_ids, reading, within_brackets};

use crate::LogLine;
use crate::log_line::LogWord;
use cg_base::{ActionId, COUNT_LIMIT, IdList, Pieces, ReplicaId, Row};
use cg_schedule::{LineFault, SyntaxReason, take_number, take_token};
use cg_text::{Words, is_passed_over, read_u64};
use std::alloc::Global;
use std::str::from_utf8;

/// What the line says, without its end, or None where it is passed over. `has_ended` says that the end stood before it.
pub fn read_log_line(
    alloc: Global,
    has_ended: bool,
    line: &[u8],
) -> Result<Option<LogLine>, LineFault>
    ensures { Gives (reading has_ended line.now) result }
{
    let Some((word, words)) = begin_line(has_ended, line)? else {
        return Ok(None);
    };
    let said = finish_line(alloc, word, words)?;
    Ok(Some(said))
}

// the word with which the line begins, and the tokens after it
#[tactic(auto, unfolding(crate::specs::Lines::opening))]
fn begin_line<'a>(
    has_ended: bool,
    line: &'a [u8],
) -> Result<Option<(LogWord, Words<'a>)>, LineFault>
    ensures { result ≡ opening has_ended line.now }
{
    if is_passed_over(line) {
        return Ok(None);
    }
    if !is_utf8(line) {
        return Err(LineFault::Syntax(SyntaxReason::NotUtf8));
    }
    let mut words = Words::new(line);
    let Some(token) = words.next() else {
        return Err(LineFault::Syntax(SyntaxReason::UnknownWord));
    };
    let Some(word) = LogWord::of(token) else {
        return Err(LineFault::Syntax(SyntaxReason::UnknownWord));
    };
    if has_ended {
        return Err(LineFault::Syntax(SyntaxReason::Misplaced));
    }
    Ok(Some((word, words)))
}

fn is_utf8(line: &[u8]) -> bool
    ensures { result ≡ is_utf8 line.now }
{
    match from_utf8(line) {
        Ok(_) => true,
        Err(_) => false,
    }
}

// what all of the tokens say
fn finish_line(alloc: Global, word: LogWord, words: Words) -> Result<LogLine, LineFault>
    ensures { Gives (whole (line_reading word) words.entry) result }
{
    let mut words = words;
    let said = take_line(alloc, &mut words, word)?;
    match words.next() {
        None => Ok(said),
        Some(_) => Err(LineFault::Syntax(SyntaxReason::ExtraPart)),
    }
}

#[tactic(auto, unfolding(crate::specs::Lines::line_reading))]
fn take_line(alloc: Global, words: &mut Words, word: LogWord) -> Result<LogLine, LineFault>
    ensures { TakesWithMemory (λ said. said) (line_reading word) words.old words.new result }
{
    match word {
        LogWord::Log => take_log(alloc, words),
        LogWord::End => Ok(LogLine::End),
    }
}

#[tactic(auto, unfolding(crate::specs::Lines::log_reading))]
fn take_log(alloc: Global, words: &mut Words) -> Result<LogLine, LineFault>
    ensures { TakesWithMemory (λ said. said) log_reading words.old words.new result }
{
    let white = take_number(words, 0, 1_000_000)?;
    let list = take_ids(alloc, words)?;
    Ok(LogLine::Log { white, list })
}

#[tactic(auto, unfolding(crate::specs::Lines::ids_part))]
fn take_ids(alloc: Global, words: &mut Words) -> Result<IdList, LineFault>
    ensures { TakesWithMemory (λ ids. ids) ids_part words.old words.new result }
{
    let token = take_token(words)?;
    read_ids(alloc, token)
}

// names within brackets, with a comma between two
#[tactic(auto, unfolding(crate::specs::Lines::read_ids))]
fn read_ids(alloc: Global, token: &[u8]) -> Result<IdList, LineFault>
    ensures { Gives (read_ids token.now) result }
{
    let Some(inside) = within_brackets(token) else {
        return Err(LineFault::Syntax(SyntaxReason::BadNumber));
    };
    if inside.is_empty() {
        return Ok(Row::new(alloc));
    }
    each_id(alloc, Pieces::new(inside, b','))
}

fn within_brackets(token: &[u8]) -> Option<&[u8]>
    ensures { MatchOption result (within_brackets token.now ≡ None)
        (λ inside. within_brackets token.now ≡ Some inside.now) }
{
    token
        .strip_prefix(b"[".as_slice())?
        .strip_suffix(b"]".as_slice())
}

fn each_id(alloc: Global, pieces: Pieces) -> Result<IdList, LineFault>
    ensures { Gives (option_map_or (λ ids. Ok ids) (each_id [] pieces.entry) (Err bad_number)) result }
{
    let mut pieces = pieces;
    let mut ids = Row::new(alloc);
    while let Some(piece) = pieces.next() {
        let Some(id) = read_id(piece) else {
            return Err(LineFault::Syntax(SyntaxReason::BadNumber));
        };
        ids.push(id)?;
    }
    Ok(ids)
}

// a creator, a colon and an index
fn read_id(bytes: &[u8]) -> Option<ActionId>
    ensures { result ≡ read_id bytes.now }
{
    let mut pieces = Pieces::new(bytes, b':');
    let creator = pieces.next()?;
    let index = pieces.next()?;
    if !pieces.is_empty() {
        return None;
    }
    let creator = number(creator, 1, 32).ok()?;
    let index = number(index, 1, COUNT_LIMIT - 1).ok()?;
    Some(ActionId {
        creator: ReplicaId::known(creator as u8),
        index,
    })
}

#[tactic(auto, unfolding(cg_schedule::specs::Part::number))]
fn number(token: &[u8], low: u64, high: u64) -> Result<u64, LineFault>
    ensures value { result ≡ number low high token.now }
    ensures range { IfOk result (λ n. (low ≤ n) × (n ≤ high)) }
{
    match read_u64(token) {
        Ok(n) if low <= n && n <= high => Ok(n),
        _ => Err(LineFault::Syntax(SyntaxReason::BadNumber)),
    }
}
