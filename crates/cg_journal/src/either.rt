//! The sides of either format, read from their fronts.
ghost use Rattle.std.specs.Prelude.{◌≡◌, ◌<◌, None, Some, length, IfOk, MatchOption};
ghost use Rattle.cg_journal.specs.Found.{both_found, found_on, version_of};
ghost use Rattle.cg_base.specs.declared.limits.TheConstants.{NUMBER_LIMIT};
ghost use Rattle.cg_journal.specs.Heads.{IsHead};

use crate::bodies::Bodies;
use crate::heads::Head;
use crate::open::SideRecords;
use crate::parse::{EMPTY_END, HEADER, OPEN, parse};
use cg_base::NoMemory;
use std::alloc::Global;

/// The bytes at the front of a side of the older format.
pub const OLD_HEADER: [u8; 8] = *b"CGRUITY1";

/// What is found on a side, and what is kept of it.
#[derive(Drop)]
pub struct ParsedEither {
    pub records: SideRecords,
    pub head: Head,
}

/// Reads both sides. There is no answer where a side is none, or both lack the headers of either format.
pub fn parse_either_side(
    alloc: Global,
    a: Vec<u8>,
    b: Vec<u8>,
) -> Result<Option<(ParsedEither, ParsedEither)>, NoMemory>
    ensures read { IfOk result (λ parsed. MatchOption parsed (both_found (found_on a.items) (found_on b.items) ≡ None)
        (λ p. both_found (found_on a.items) (found_on b.items) ≡ Some (record { a = p.0.records; b = p.1.records }))) }
    ensures head_a { IfOk result (λ parsed. MatchOption parsed (⊥ → ⊥) (λ p. length a.items < NUMBER_LIMIT → IsHead a.items p.0.head)) }
    ensures head_b { IfOk result (λ parsed. MatchOption parsed (⊥ → ⊥) (λ p. length b.items < NUMBER_LIMIT → IsHead b.items p.1.head)) }
{
    let parsed_a = match parse_either(alloc, a)? {
        Some(parsed) => parsed,
        None => return Ok(None),
    };
    let parsed_b = match parse_either(alloc, b)? {
        Some(parsed) => parsed,
        None => return Ok(None),
    };
    if parsed_a.records.version == 0 && parsed_b.records.version == 0 {
        return Ok(None);
    }
    Ok(Some((parsed_a, parsed_b)))
}

// Reads a side. That of the older format is read as one of the newer format, of which it differs in the header alone.
fn parse_either(alloc: Global, side: Vec<u8>) -> Result<Option<ParsedEither>, NoMemory>
    ensures read { IfOk result (λ parsed. MatchOption
        parsed (found_on side.items ≡ None) (λ p. found_on side.items ≡ Some p.records)) }
    ensures head { IfOk result (λ parsed. MatchOption parsed (⊥ → ⊥) (λ p. length side.items < NUMBER_LIMIT → IsHead side.items p.head)) }
{
    let mut side = side;
    if side.len() < 9 {
        return Ok(None);
    }
    let version = version_of(&side[..8]);
    let is_open = side[8] == OPEN;
    if version == 0 {
        let records = SideRecords {
            version,
            bodies: Bodies::empty(alloc),
        };
        let head = Head {
            is_open,
            end: EMPTY_END,
        };
        return Ok(Some(ParsedEither { records, head }));
    }
    side[7] = HEADER[7];
    match parse(alloc, side)? {
        Some(parsed) => {
            let records = SideRecords {
                version,
                bodies: parsed.bodies,
            };
            let head = Head {
                is_open,
                end: parsed.end,
            };
            Ok(Some(ParsedEither { records, head }))
        }
        None => Ok(None),
    }
}

// Which format the bytes at the front of a side name.
fn version_of(front: &[u8]) -> u8
    ensures { result ≡ version_of front.now }
{
    if front == &HEADER[..] {
        2
    } else if front == &OLD_HEADER[..] {
        1
    } else {
        0
    }
}
