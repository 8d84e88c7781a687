//! Messages in bytes.

ghost use Rattle.std.specs.Prelude.{◌≡◌, ◌++◌, OnOk, IfOk};
ghost use Rattle.cg_codec.specs.Fields.{byte, number64, optional};
ghost use Rattle.cg_records.specs.Bytes.{spelled_prim, spelled_vulnerable, spelled_yellow, spelled_cut, spelled_set};
ghost use Rattle.cg_wire.specs.Limits.{IsSummary, IsMsg};
ghost use Rattle.cg_wire.specs.Bytes.{spelled_summary, spelled_msg};

use crate::Msg;
use cg_action::put_action;
use cg_base::{Bytes, NoMemory};
use cg_codec::{put_u8, put_u64};
use cg_knowledge::Summary;
use cg_records::{put_cut, put_maybe_vulnerable, put_prim, put_set, put_yellow};
use std::alloc::Global;

/// The bytes of a message.
pub fn encode(alloc: Global, m: &Msg) -> Result<Bytes, NoMemory>
    requires { IsMsg m.now }
    ensures { IfOk result (λ bytes. bytes ≡ spelled_msg m.now) }
{
    let mut out = Vec::with_capacity(alloc, room_for(m))?;
    write_msg(&mut out, m)?;
    Ok(Bytes::from_vec(out))
}

// room that most messages of the kind need
fn room_for(m: &Msg) -> usize {
    match m {
        Msg::State(_) => 256,
        _ => 64,
    }
}

#[tactic(auto, unfolding(crate::specs::Bytes::spelled_msg))]
fn write_msg(out: &mut Vec<u8>, m: &Msg) -> Result<(), NoMemory>
    requires { IsMsg m.now }
    ensures { OnOk result (out.new.items ≡ out.old.items ++ spelled_msg m.now) }
{
    match m {
        Msg::Action(action) => {
            put_u8(out, 1)?;
            put_action(out, action)
        }
        Msg::State(s) => {
            put_u8(out, 2)?;
            write_summary(out, s.get())
        }
        Msg::GreenItem { at, action } => {
            put_u8(out, 3)?;
            put_u8(out, 1)?;
            put_u64(out, *at)?;
            put_action(out, action)
        }
        Msg::RedItem(action) => {
            put_u8(out, 3)?;
            put_u8(out, 2)?;
            put_action(out, action)
        }
        Msg::Cpc { id, conf } => {
            put_u8(out, 4)?;
            put_u8(out, id.get())?;
            put_u64(out, *conf)
        }
    }
}

#[tactic(auto, unfolding(crate::specs::Bytes::spelled_summary))]
fn write_summary(out: &mut Vec<u8>, s: &Summary) -> Result<(), NoMemory>
    requires { IsSummary s.now }
    ensures { OnOk result (out.new.items ≡ out.old.items ++ spelled_summary s.now) }
{
    write_standing(out, s)?;
    write_reach(out, s)
}

// who speaks, and what it knows of primary components
fn write_standing(out: &mut Vec<u8>, s: &Summary) -> Result<(), NoMemory>
    ensures { OnOk result (out.new.items ≡ out.old.items
        ++ (byte s.now.id ++ (number64 s.now.conf
        ++ (spelled_prim s.now.prim ++ (number64 s.now.attempt_index
        ++ optional spelled_vulnerable s.now.vulnerable))))) }
{
    put_u8(out, s.id.get())?;
    put_u64(out, s.conf)?;
    put_prim(out, &s.prim)?;
    put_u64(out, s.attempt_index)?;
    put_maybe_vulnerable(out, &s.vulnerable)
}

// how far its actions reach, and who has left
fn write_reach(out: &mut Vec<u8>, s: &Summary) -> Result<(), NoMemory>
    requires { IsSummary s.now }
    ensures { OnOk result (out.new.items ≡ out.old.items
        ++ (spelled_yellow s.now.yellow ++ (number64 s.now.green_count
        ++ (spelled_cut s.now.green_cut ++ (spelled_cut s.now.red_cut ++ spelled_set s.now.left))))) }
{
    put_yellow(out, &s.yellow)?;
    put_u64(out, s.green_count)?;
    put_cut(out, &s.green_cut)?;
    put_cut(out, &s.red_cut)?;
    put_set(out, &s.left)
}
