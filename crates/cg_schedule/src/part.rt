//! The parts of a line that are one token each.

ghost use Rattle.std.specs.Prelude.{◌≡◌, ◌≤◌, ◌<◌, [], IfOk, IfSome};
ghost use Rattle.cg_schedule.specs.Fault.{Gives};
ghost use Rattle.cg_schedule.specs.Reading.{Takes, TakesWithMemory, token_part};
ghost use Rattle.cg_schedule.specs.Part.{number, integer, amount, weight_of, weighted, text, is_quoted, value, want, hex_digit, hex_byte, hex_bytes, fill, number_part, id_part, count_part, integer_part, amount_part, weighted_part, text_part, value_part, want_part, fill_part};

use crate::{LineFault, SyntaxReason};
use cg_action::{BoxedOption, Value};
use cg_base::{Bytes, Pieces, ReplicaId, Row, Weighted};
use cg_text::{Txt, Words, read_i64, read_quoted, read_u64};
use std::alloc::Global;

// ---- one token

#[tactic(auto, unfolding(crate::specs::Part::number))]
fn number(token: &[u8], low: u64, high: u64) -> Result<u64, LineFault>
    ensures value { result ≡ number low high token.now }
    ensures range { IfOk result (λ n. (low ≤ n) × (n ≤ high)) }
{
    match read_u64(token) {
        Ok(n) if low <= n && n <= high => Ok(n),
        _ => Err(LineFault::Syntax(SyntaxReason::BadNumber)),
    }
}

pub(crate) fn identifier(token: &[u8]) -> Result<ReplicaId, LineFault>
    ensures { result ≡ number 1 32 token.now }
{
    let n = number(token, 1, 32)?;
    Ok(ReplicaId::known(n as u8))
}

pub(crate) fn count(token: &[u8]) -> Result<u64, LineFault>
    ensures { result ≡ number 1 1000000 token.now }
{
    number(token, 1, 1_000_000)
}

#[tactic(auto, unfolding(crate::specs::Part::integer))]
fn integer(token: &[u8]) -> Result<i64, LineFault>
    ensures { result ≡ integer token.now }
{
    match read_i64(token) {
        Ok(n) => Ok(n),
        Err(_) => Err(LineFault::Syntax(SyntaxReason::BadNumber)),
    }
}

#[tactic(auto, unfolding(crate::specs::Part::amount))]
fn amount(token: &[u8]) -> Result<i64, LineFault>
    ensures { result ≡ amount token.now }
{
    let n = integer(token)?;
    if n < 0 {
        return Err(LineFault::Syntax(SyntaxReason::BadNumber));
    }
    Ok(n)
}

// an identifier alone, or with a star and a weight of 2 or more
#[tactic(auto, unfolding(crate::specs::Part::weighted))]
pub(crate) fn weighted(token: &[u8]) -> Result<Weighted, LineFault>
    ensures value { result ≡ weighted token.now }
    ensures weight { IfOk result (λ m. 1 ≤ m.weight) }
{
    let mut pieces = Pieces::new(token, b'*');
    let Some(first) = pieces.next() else {
        return Err(LineFault::Syntax(SyntaxReason::BadNumber));
    };
    let id = identifier(first)?;
    let weight = weight_of(&mut pieces)?;
    Ok(Weighted { id, weight })
}

fn weight_of(pieces: &mut Pieces) -> Result<u8, LineFault>
    ensures value { result ≡ weight_of pieces.old }
    ensures weight { IfOk result (λ n. 1 ≤ n) }
{
    let Some(piece) = pieces.next() else {
        return Ok(1);
    };
    if !pieces.is_empty() {
        return Err(LineFault::Syntax(SyntaxReason::BadNumber));
    }
    let weight = number(piece, 2, 255)?;
    Ok(weight as u8)
}

#[tactic(auto, unfolding(crate::specs::Part::text))]
fn text(alloc: Global, token: &[u8], low: usize, high: u64) -> Result<Txt, LineFault>
    ensures { Gives (text low high token.now) result }
{
    let text = match read_quoted(alloc, token, high) {
        Ok(text) => text,
        Err(fault) => return Err(LineFault::of_text(fault)),
    };
    if text.len() < low {
        return Err(LineFault::Syntax(SyntaxReason::BadText));
    }
    Ok(text)
}

fn is_quoted(token: &[u8]) -> bool
    ensures { result ≡ is_quoted token.now }
{
    match token {
        [] => false,
        [first, ..] => *first == b'"',
    }
}

#[tactic(auto, unfolding(crate::specs::Part::value))]
fn value(alloc: Global, token: &[u8]) -> Result<Value, LineFault>
    ensures { Gives (value token.now) result }
{
    if is_quoted(token) {
        let text = text(alloc, token, 0, 1024)?;
        Ok(Value::Text(text))
    } else {
        let n = integer(token)?;
        Ok(Value::Int(n))
    }
}

#[tactic(auto, unfolding(crate::specs::Part::want))]
fn want(alloc: Global, token: &[u8]) -> Result<BoxedOption<Value>, LineFault>
    ensures { Gives (want token.now) result }
{
    if token == b"absent".as_slice() {
        return Ok(BoxedOption::none());
    }
    let value = value(alloc, token)?;
    Ok(BoxedOption::some(alloc, value)?)
}

fn hex_digit(byte: u8) -> Option<u8>
    ensures value { result ≡ hex_digit byte }
    ensures small { IfSome result (λ n. n < 16) }
{
    match byte {
        b'0'..=b'9' => Some(byte - b'0'),
        b'a'..=b'f' => Some(byte - b'a' + 10),
        _ => None,
    }
}

fn hex_byte(high: u8, low: u8) -> Option<u8>
    ensures { result ≡ hex_byte (hex_digit high) (hex_digit low) }
{
    let high = hex_digit(high)?;
    let low = hex_digit(low)?;
    Some(16 * high + low)
}

fn hex_bytes(alloc: Global, digits: &[u8]) -> Result<Bytes, LineFault>
    ensures { Gives (hex_bytes [] digits.now) result }
{
    let mut bytes = Row::new(alloc);
    let mut rest = digits;
    while let Some((high, behind)) = rest.split_first() {
        let Some((low, others)) = behind.split_first() else {
            return Err(LineFault::Syntax(SyntaxReason::BadText));
        };
        let Some(byte) = hex_byte(*high, *low) else {
            return Err(LineFault::Syntax(SyntaxReason::BadText));
        };
        bytes.push(byte)?;
        rest = others;
    }
    Ok(bytes)
}

// bytes, two digits each, at most 4,096 of them, or a hyphen for none
#[tactic(auto, unfolding(crate::specs::Part::fill))]
fn fill(alloc: Global, token: &[u8]) -> Result<Bytes, LineFault>
    ensures { Gives (fill token.now) result }
{
    if token == b"-".as_slice() {
        return Ok(Row::new(alloc));
    }
    if token.is_empty() || token.len() > 8192 {
        return Err(LineFault::Syntax(SyntaxReason::BadText));
    }
    hex_bytes(alloc, token)
}

// ---- the next token of the line

/// Takes the next token of a line; `MissingPart` where there is none.
pub fn take_token<'a>(words: &mut Words<'a>) -> Result<&'a [u8], LineFault>
    ensures { Takes (λ token. token.now) token_part words.old words.new result }
{
    words
        .next()
        .ok_or(LineFault::Syntax(SyntaxReason::MissingPart))
}

/// Takes the next token as a number from `low` to `high`, in digits without a leading zero; else `BadNumber`.
#[tactic(auto, unfolding(crate::specs::Part::number_part))]
pub fn take_number(words: &mut Words, low: u64, high: u64) -> Result<u64, LineFault>
    ensures { Takes (λ n. n) (number_part low high) words.old words.new result }
{
    let token = take_token(words)?;
    number(token, low, high)
}

/// Takes the next token as an identifier, from 1 to 32.
#[tactic(auto, unfolding(crate::specs::Part::id_part))]
pub fn take_id(words: &mut Words) -> Result<ReplicaId, LineFault>
    ensures { Takes (λ id. id) id_part words.old words.new result }
{
    let token = take_token(words)?;
    identifier(token)
}

/// Takes the next token as a count, from 1 to 1,000,000.
#[tactic(auto, unfolding(crate::specs::Part::count_part))]
pub fn take_count(words: &mut Words) -> Result<u64, LineFault>
    ensures { Takes (λ n. n) count_part words.old words.new result }
{
    let token = take_token(words)?;
    count(token)
}

#[tactic(auto, unfolding(crate::specs::Part::integer_part))]
pub(crate) fn take_integer(words: &mut Words) -> Result<i64, LineFault>
    ensures { Takes (λ n. n) integer_part words.old words.new result }
{
    let token = take_token(words)?;
    integer(token)
}

#[tactic(auto, unfolding(crate::specs::Part::amount_part))]
pub(crate) fn take_amount(words: &mut Words) -> Result<i64, LineFault>
    ensures { Takes (λ n. n) amount_part words.old words.new result }
{
    let token = take_token(words)?;
    amount(token)
}

#[tactic(auto, unfolding(crate::specs::Part::weighted_part))]
pub(crate) fn take_weighted(words: &mut Words) -> Result<Weighted, LineFault>
    ensures { Takes (λ m. m) weighted_part words.old words.new result }
{
    let token = take_token(words)?;
    weighted(token)
}

#[tactic(auto, unfolding(crate::specs::Part::text_part))]
pub(crate) fn take_text(
    alloc: Global,
    words: &mut Words,
    low: usize,
    high: u64,
) -> Result<Txt, LineFault>
    ensures { TakesWithMemory (λ t. t) (text_part low high) words.old words.new result }
{
    let token = take_token(words)?;
    text(alloc, token, low, high)
}

#[tactic(auto, unfolding(crate::specs::Part::value_part))]
pub(crate) fn take_value(alloc: Global, words: &mut Words) -> Result<Value, LineFault>
    ensures { TakesWithMemory (λ v. v) value_part words.old words.new result }
{
    let token = take_token(words)?;
    value(alloc, token)
}

#[tactic(auto, unfolding(crate::specs::Part::want_part))]
pub(crate) fn take_want(alloc: Global, words: &mut Words) -> Result<BoxedOption<Value>, LineFault>
    ensures { TakesWithMemory (λ w. w) want_part words.old words.new result }
{
    let token = take_token(words)?;
    want(alloc, token)
}

/// Takes the next token as the bytes of a torn write: `-` for none, or pairs of hexadecimal digits.
#[tactic(auto, unfolding(crate::specs::Part::fill_part))]
pub fn take_fill(alloc: Global, words: &mut Words) -> Result<Bytes, LineFault>
    ensures { TakesWithMemory (λ b. b) fill_part words.old words.new result }
{
    let token = take_token(words)?;
    fill(alloc, token)
}
