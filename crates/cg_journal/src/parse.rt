//! The records that the bytes of a side spell.
ghost use Rattle.std.specs.Prelude.{◌≡◌, ◌+◌, ◌<◌, ◌≤◌, ◌^◌, nat_lt, None, Some, length, IfOk, MatchOption};
ghost use Rattle.cg_journal.specs.Bodies.{bodies_at, AreWithin};
ghost use Rattle.cg_journal.specs.Records.{HasRecords, both, bodies_of, number_at};

use crate::bodies::{Bodies, Span};
use cg_base::NoMemory;
use std::alloc::Global;

/// The bytes at the front of a side.
pub const HEADER: [u8; 8] = *b"CGRUITY2";

/// The byte of an open gate.
pub const OPEN: u8 = 1;

/// The byte of a closed gate; any other that isn't that of an open one closes it too.
pub const CLOSED: u8 = 0;

/// The offset of a side's first gate, just behind the header.
pub const GATE: u64 = 8;

/// The end of a side without records, just behind its first gate.
pub const EMPTY_END: u64 = 9;

/// The bodies of a side's records, and where the records end.
#[derive(Drop)]
pub struct Parsed {
    pub bodies: Bodies,
    pub end: u64,
}

/// Reads a side from its front. There is no answer where it isn't the side of a journal.
pub fn parse(alloc: Global, side: Vec<u8>) -> Result<Option<Parsed>, NoMemory>
    ensures read { IfOk result (λ parsed. MatchOption
        parsed (bodies_of side.items ≡ None) (λ p. bodies_of side.items ≡ Some p.bodies)) }
    ensures end { IfOk result (λ parsed. MatchOption parsed (⊥ → ⊥) (λ p. HasRecords side.items p.end p.bodies)) }
{
    let Some(found) = find(alloc, &side)? else {
        return Ok(None);
    };
    let ParsedSide { spans, end } = found;
    let bodies = Bodies::new(side, spans);
    Ok(Some(Parsed { bodies, end }))
}

// Where the bodies of a side's records stand, and where the records end.
#[derive(Drop)]
struct ParsedSide {
    spans: Vec<Span>,
    end: u64,
}

fn find(alloc: Global, side: &[u8]) -> Result<Option<ParsedSide>, NoMemory>
    ensures read { IfOk result (λ found. MatchOption
        found (bodies_of side.now ≡ None) (λ f. bodies_of side.now ≡ Some (bodies_at side.now f.spans.items))) }
    ensures end { IfOk result (λ found. MatchOption found (⊥ →
        ⊥) (λ f. HasRecords side.now f.end (bodies_at side.now f.spans.items))) }
    ensures within { IfOk result (λ found. MatchOption found (⊥ → ⊥) (λ f. AreWithin side.now f.spans.items)) }
{
    if side.len() < 9 {
        return Ok(None);
    }
    if side[..8] != HEADER[..] {
        return Ok(None);
    }
    let mut spans = Vec::new(alloc);
    let mut gate = 8;
    while side[gate] == OPEN {
        let rest = &side[gate + 1..];
        if !fits(rest) {
            return Ok(None);
        }
        let size = size_at(rest) as usize;
        spans.push(Span {
            start: gate + 5,
            size,
        })?;
        gate += 5 + size;
    }
    Ok(Some(ParsedSide {
        spans,
        end: gate as u64 + 1,
    }))
}

// The length of a body.
fn size_at(bytes: &[u8]) -> u32
    requires { 4 ≤ length bytes.now }
    ensures { result ≡ number_at bytes.now }
{
    u32::from_be_bytes([bytes[0], bytes[1], bytes[2], bytes[3]])
}

// Whether the length, the body and the gate behind it lie in these bytes.
fn fits(bytes: &[u8]) -> bool
    ensures { result ≡ nat_lt (4 + number_at bytes.now) (length bytes.now) }
{
    bytes.len() >= 4 && 4 + (size_at(bytes) as usize) < bytes.len()
}

/// Reads both sides. There is no answer where one of them isn't the side of a journal.
pub fn parse_both(
    alloc: Global,
    a: Vec<u8>,
    b: Vec<u8>,
) -> Result<Option<(Parsed, Parsed)>, NoMemory>
    ensures read { IfOk result (λ parsed. MatchOption parsed (both (bodies_of a.items) (bodies_of b.items) ≡
        None) (λ p. both (bodies_of a.items) (bodies_of b.items) ≡ Some (record { a = p.0.bodies; b = p.1.bodies }))) }
    ensures end_a { IfOk result (λ parsed. MatchOption parsed (⊥ → ⊥) (λ p. HasRecords a.items p.0.end p.0.bodies)) }
    ensures end_b { IfOk result (λ parsed. MatchOption parsed (⊥ → ⊥) (λ p. HasRecords b.items p.1.end p.1.bodies)) }
{
    let parsed_a = match parse(alloc, a)? {
        Some(parsed) => parsed,
        None => return Ok(None),
    };
    match parse(alloc, b)? {
        Some(parsed_b) => Ok(Some((parsed_a, parsed_b))),
        None => Ok(None),
    }
}
