//! A piece is taken, or refused.
ghost use Rattle.std.specs.Prelude.{◌≡◌, ◌≤◌};
ghost use Rattle.cg_base.specs.declared.limits.TheConstants.{COUNT_LIMIT};
ghost use Rattle.cg_join.specs.Limits.{IsPart};
ghost use Rattle.cg_join.specs.Taking.{refusal, Adds, Takes};

use crate::errors::bad;
use crate::{JoinErr, Label, Piece, PieceContent, SnapshotName, decode_piece};
use cg_action::Limited;
use cg_base::NoMemory;
use std::alloc::Global;

/// The piece that the bytes spell comes behind the parts that were taken, where it is the next of this snapshot. True says
/// that it is the last one.
pub(crate) fn take(
    alloc: Global,
    name: &SnapshotName,
    parts: &mut Limited<PieceContent>,
    bytes: &[u8],
) -> Result<bool, JoinErr>
    ensures { Takes name.now parts.old parts.new bytes.now result }
{
    match decode_piece(alloc, bytes) {
        Ok(piece) => add(alloc, name, parts, piece),
        Err(fault) => Err(bad(fault)),
    }
}

fn add(
    alloc: Global,
    name: &SnapshotName,
    parts: &mut Limited<PieceContent>,
    piece: Piece,
) -> Result<bool, JoinErr>
    requires { IsPart piece.part }
    ensures { Adds name.now parts.old parts.new piece result }
{
    let Piece { label, part } = piece;
    if let Some(err) = refusal(name, parts.len(), &label) {
        return Err(err);
    }
    let Ok(()) = make_room(alloc, parts, label.count) else {
        return Err(JoinErr::NoMemory);
    };
    let Ok(()) = parts.push(part) else {
        return Err(JoinErr::NoMemory);
    };
    Ok(label.number == label.count)
}

// what a piece says of their count may be wrong, so no more parts than these have room before they came
const MOST_AT_ONCE: u64 = 1 << 16;

// room for the parts that are to come, before the first one
fn make_room(alloc: Global, parts: &mut Limited<PieceContent>, count: u64) -> Result<(), NoMemory>
    ensures { parts.new ≡ parts.old }
{
    if parts.len() > 0 {
        return Ok(());
    }
    let room = Limited::with_capacity(alloc, count.min(MOST_AT_ONCE) as usize)?;
    *parts = room;
    Ok(())
}

fn refusal(name: &SnapshotName, taken: u64, label: &Label) -> Option<JoinErr>
    requires { taken ≤ COUNT_LIMIT }
    ensures { result ≡ refusal name.now taken label.now }
{
    if label.name != *name {
        return Some(JoinErr::OtherSnapshot {
            want: *name,
            got: label.name,
        });
    }
    if label.number != taken + 1 {
        return Some(JoinErr::OutOfTurn {
            want: taken + 1,
            got: label.number,
        });
    }
    None
}
