//! Pieces from bytes.

ghost use Rattle.cg_codec.specs.Reading.{whole};
ghost use Rattle.cg_codec.specs.Taking.{unread_of, Takes, TakesWithMemory, Decodes};
ghost use Rattle.cg_join.specs.Reading.{name_reading, label_reading, head_reading, start_reading, green_reading, entry_part_reading, part_of_tag, part_reading, piece_reading};
ghost use Rattle.cg_join.specs.Laws.{GivesPiece};

use crate::{Label, Piece, PieceContent, SnapshotHead, SnapshotName, pieces_are_exact};
use cg_action::{Boxed, DbEntry, take_action};
use cg_codec::{CodecFault, Fields};
use cg_disk_records::{take_entry, take_reached};
use cg_records::{take_id, take_number, take_prim};
use cg_text::Txt;
use std::alloc::Global;

/// The piece that all of the bytes spell. Where they spell none, the first fault from the left.
pub fn decode_piece(alloc: Global, bytes: &[u8]) -> Result<Piece, CodecFault>
    ensures read { Decodes (λ p. p) (whole piece_reading bytes.now) result }
    ensures exact { GivesPiece bytes.now result }
{
    pieces_are_exact();
    read_all(alloc, bytes)
}

fn read_all(alloc: Global, bytes: &[u8]) -> Result<Piece, CodecFault>
    ensures { Decodes (λ p. p) (whole piece_reading bytes.now) result }
{
    let mut f = Fields::new(bytes);
    let piece = take_piece(alloc, &mut f)?;
    f.finish()?;
    Ok(piece)
}

#[tactic(auto, unfolding(crate::specs::Reading::piece_reading))]
fn take_piece(alloc: Global, f: &mut Fields<'_>) -> Result<Piece, CodecFault>
    ensures { TakesWithMemory (λ p. p) piece_reading (unread_of f.old) (unread_of f.new) result }
{
    let mut after = *f;
    let label = take_label(&mut after)?;
    let part = take_part(alloc, &mut after)?;
    *f = after;
    Ok(Piece { label, part })
}

#[tactic(auto, unfolding(crate::specs::Reading::name_reading))]
fn take_name(f: &mut Fields<'_>) -> Result<SnapshotName, CodecFault>
    ensures { Takes (λ n. n) name_reading (unread_of f.old) (unread_of f.new) result }
{
    let mut after = *f;
    let giver = take_id(&mut after)?;
    let number = take_number(&mut after)?;
    *f = after;
    Ok(SnapshotName { giver, number })
}

#[tactic(auto, unfolding(crate::specs::Reading::label_reading))]
fn take_label(f: &mut Fields<'_>) -> Result<Label, CodecFault>
    ensures { Takes (λ l. l) label_reading (unread_of f.old) (unread_of f.new) result }
{
    let mut after = *f;
    let name = take_name(&mut after)?;
    let number = take_number(&mut after)?;
    let count = take_number(&mut after)?;
    *f = after;
    Ok(Label {
        name,
        number,
        count,
    })
}

#[tactic(auto, unfolding(crate::specs::Reading::part_reading))]
fn take_part(alloc: Global, f: &mut Fields<'_>) -> Result<PieceContent, CodecFault>
    ensures { TakesWithMemory (λ p. p) part_reading (unread_of f.old) (unread_of f.new) result }
{
    let mut after = *f;
    let tag = after.take_between(1, 4)?;
    let part = take_part_of(alloc, &mut after, tag)?;
    *f = after;
    Ok(part)
}

#[tactic(auto, unfolding(crate::specs::Reading::part_of_tag))]
fn take_part_of(alloc: Global, f: &mut Fields<'_>, tag: u8) -> Result<PieceContent, CodecFault>
    ensures { TakesWithMemory (λ p. p) (part_of_tag tag) (unread_of f.old) (unread_of f.new) result }
{
    match tag {
        1 => take_start(alloc, f),
        2 => take_green(alloc, f),
        3 => take_entry_part(alloc, f),
        _ => Ok(PieceContent::End),
    }
}

#[tactic(auto, unfolding(crate::specs::Reading::start_reading))]
fn take_start(alloc: Global, f: &mut Fields<'_>) -> Result<PieceContent, CodecFault>
    ensures { TakesWithMemory (λ p. p) start_reading (unread_of f.old) (unread_of f.new) result }
{
    let mut after = *f;
    let head = Boxed::new(alloc, take_head(&mut after)?)?;
    *f = after;
    Ok(PieceContent::Start(head))
}

#[tactic(auto, unfolding(crate::specs::Reading::green_reading))]
fn take_green(alloc: Global, f: &mut Fields<'_>) -> Result<PieceContent, CodecFault>
    ensures { TakesWithMemory (λ p. p) green_reading (unread_of f.old) (unread_of f.new) result }
{
    let mut after = *f;
    let action = Boxed::new(alloc, take_action(alloc, &mut after)?)?;
    *f = after;
    Ok(PieceContent::Green(action))
}

#[tactic(auto, unfolding(crate::specs::Reading::entry_part_reading))]
fn take_entry_part(alloc: Global, f: &mut Fields<'_>) -> Result<PieceContent, CodecFault>
    ensures { TakesWithMemory (λ p. p) entry_part_reading (unread_of f.old) (unread_of f.new) result }
{
    let mut after = *f;
    let (key, value) = take_entry(alloc, &mut after, "")?;
    let key = Txt::new(alloc, key)?;
    *f = after;
    Ok(PieceContent::Entry(DbEntry { key, value }))
}

#[tactic(auto, unfolding(crate::specs::Reading::head_reading))]
fn take_head(f: &mut Fields<'_>) -> Result<SnapshotHead, CodecFault>
    ensures { TakesWithMemory (λ h. h) head_reading (unread_of f.old) (unread_of f.new) result }
{
    let mut after = *f;
    let prim = take_prim(&mut after)?;
    let attempt_index = take_number(&mut after)?;
    let reached = take_reached(&mut after)?;
    *f = after;
    Ok(SnapshotHead {
        prim,
        attempt_index,
        reached,
    })
}
