//! Pieces in bytes.

ghost use Rattle.std.specs.Prelude.{◌≡◌, ◌++◌, OnOk, IfOk};
ghost use Rattle.cg_join.specs.Bytes.{spelled_label, spelled_head, spelled_part, piece_bytes};
ghost use Rattle.cg_join.specs.Limits.{IsHead, IsPart};

use crate::{Label, PieceContent, SnapshotHead};
use cg_action::put_action;
use cg_base::{Bytes, NoMemory};
use cg_codec::{put_u8, put_u64};
use cg_disk_records::{put_entry, put_reached};
use cg_records::put_prim;
use std::alloc::Global;

// a piece of a small entry fits
const USUAL: usize = 128;

/// The bytes of a piece.
pub(crate) fn encode(alloc: Global, label: &Label, part: &PieceContent) -> Result<Bytes, NoMemory>
    requires { IsPart part.now }
    ensures { IfOk result (λ bytes. bytes ≡ piece_bytes label.now part.now) }
{
    let mut out = Vec::with_capacity(alloc, USUAL)?;
    write_label(&mut out, label)?;
    write_part(&mut out, part)?;
    Ok(Bytes::from_vec(out))
}

#[tactic(auto, unfolding(crate::specs::Bytes::spelled_label, crate::specs::Bytes::spelled_snapshot_name))]
fn write_label(out: &mut Vec<u8>, label: &Label) -> Result<(), NoMemory>
    ensures { OnOk result (out.new.items ≡ out.old.items ++ spelled_label label.now) }
{
    put_u8(out, label.name.giver.get())?;
    put_u64(out, label.name.number)?;
    put_u64(out, label.number)?;
    put_u64(out, label.count)
}

#[tactic(auto, unfolding(crate::specs::Bytes::spelled_part))]
fn write_part(out: &mut Vec<u8>, part: &PieceContent) -> Result<(), NoMemory>
    requires { IsPart part.now }
    ensures { OnOk result (out.new.items ≡ out.old.items ++ spelled_part part.now) }
{
    match part {
        PieceContent::Start(head) => {
            put_u8(out, 1)?;
            write_head(out, head.get())
        }
        PieceContent::Green(action) => {
            put_u8(out, 2)?;
            put_action(out, action.get())
        }
        PieceContent::Entry(entry) => {
            put_u8(out, 3)?;
            put_entry(out, &entry.key, &entry.value)
        }
        PieceContent::End => put_u8(out, 4),
    }
}

#[tactic(auto, unfolding(crate::specs::Bytes::spelled_head))]
fn write_head(out: &mut Vec<u8>, head: &SnapshotHead) -> Result<(), NoMemory>
    requires { IsHead head.now }
    ensures { OnOk result (out.new.items ≡ out.old.items ++ spelled_head head.now) }
{
    put_prim(out, &head.prim)?;
    put_u64(out, head.attempt_index)?;
    let reached = &head.reached;
    put_reached(
        out,
        reached.count,
        reached.white,
        &reached.cut,
        &reached.members,
    )
}
