//! Messages from bytes.

ghost use Rattle.std.specs.Prelude.{◌≡◌, IfOk, IfSome};
ghost use Rattle.cg_codec.specs.Reading.{whole, ended};
ghost use Rattle.cg_codec.specs.Taking.{unread_of, TakesWithMemory, Decodes};
ghost use Rattle.cg_wire.specs.Reading.{summary_reading, green_item_reading, red_item_reading, item_of_tag, item_reading, action_msg_reading, state_reading, cpc_reading, msg_of_tag, msg_reading, message_in};
ghost use Rattle.cg_wire.specs.Limits.{IsMsg};
ghost use Rattle.cg_wire.specs.Laws.{GivesSpelled};

use crate::{BoxedSummary, Msg, messages_are_exact};
use cg_action::take_action;
use cg_base::NoMemory;
use cg_codec::{CodecFault, Fields};
use cg_knowledge::Summary;
use cg_records::{
    take_cut, take_id, take_maybe_vulnerable, take_number, take_prim, take_set, take_yellow,
};
use std::alloc::Global;

/// The message that all of the bytes spell. Where they spell none, the first fault from the left.
pub fn decode(alloc: Global, bytes: &[u8]) -> Result<Msg, CodecFault>
    ensures read { Decodes (λ m. m) (whole msg_reading bytes.now) result }
    ensures exact { GivesSpelled bytes.now result }
{
    messages_are_exact();
    read_all(alloc, bytes)
}

/// The message that all of the bytes spell, if they spell one.
#[tactic(auto, unfolding(crate::specs::Reading::message_in))]
pub fn read_message(alloc: Global, bytes: &[u8]) -> Result<Option<Msg>, NoMemory>
    ensures value { IfOk result (λ m. m ≡ message_in bytes.now) }
    ensures limits { IfOk result (λ m. IfSome m IsMsg) }
{
    match decode(alloc, bytes) {
        Ok(m) => Ok(Some(m)),
        Err(CodecFault::NoMemory) => Err(NoMemory),
        Err(_) => Ok(None),
    }
}

#[tactic(auto, unfolding(crate::specs::Reading::msg_reading, crate::specs::Reading::msg_of_tag))]
fn read_all(alloc: Global, bytes: &[u8]) -> Result<Msg, CodecFault>
    ensures { Decodes (λ m. m) (whole msg_reading bytes.now) result }
{
    let mut f = Fields::new(bytes);
    let tag = f.take_between(1, 4)?;
    match tag {
        1 => whole_action(alloc, &mut f),
        2 => whole_state(alloc, &mut f),
        3 => whole_item(alloc, &mut f),
        _ => whole_cpc(&mut f),
    }
}

// All that is left is read, and no result goes through a layer that only hands it on: it is large, and each would move it.
#[tactic(auto, unfolding(crate::specs::Reading::action_msg_reading))]
fn whole_action(alloc: Global, f: &mut Fields<'_>) -> Result<Msg, CodecFault>
    ensures { Decodes (λ m. m) (ended (action_msg_reading (unread_of f.old))) result }
{
    let action = take_action(alloc, f)?;
    f.finish()?;
    Ok(Msg::Action(action))
}

#[tactic(auto, unfolding(crate::specs::Reading::state_reading))]
fn whole_state(alloc: Global, f: &mut Fields<'_>) -> Result<Msg, CodecFault>
    ensures { Decodes (λ m. m) (ended (state_reading (unread_of f.old))) result }
{
    let s = take_summary(alloc, f)?;
    f.finish()?;
    Ok(Msg::State(s))
}

#[tactic(auto, unfolding(crate::specs::Reading::item_reading, crate::specs::Reading::item_of_tag))]
fn whole_item(alloc: Global, f: &mut Fields<'_>) -> Result<Msg, CodecFault>
    ensures { Decodes (λ m. m) (ended (item_reading (unread_of f.old))) result }
{
    let tag = f.take_between(1, 2)?;
    if tag == 1 {
        whole_green_item(alloc, f)
    } else {
        whole_red_item(alloc, f)
    }
}

#[tactic(auto, unfolding(crate::specs::Reading::green_item_reading))]
fn whole_green_item(alloc: Global, f: &mut Fields<'_>) -> Result<Msg, CodecFault>
    ensures { Decodes (λ m. m) (ended (green_item_reading (unread_of f.old))) result }
{
    let at = take_number(f)?;
    let action = take_action(alloc, f)?;
    f.finish()?;
    Ok(Msg::GreenItem { at, action })
}

#[tactic(auto, unfolding(crate::specs::Reading::red_item_reading))]
fn whole_red_item(alloc: Global, f: &mut Fields<'_>) -> Result<Msg, CodecFault>
    ensures { Decodes (λ m. m) (ended (red_item_reading (unread_of f.old))) result }
{
    let action = take_action(alloc, f)?;
    f.finish()?;
    Ok(Msg::RedItem(action))
}

#[tactic(auto, unfolding(crate::specs::Reading::cpc_reading))]
fn whole_cpc(f: &mut Fields<'_>) -> Result<Msg, CodecFault>
    ensures { Decodes (λ m. m) (ended (cpc_reading (unread_of f.old))) result }
{
    let id = take_id(f)?;
    let conf = take_number(f)?;
    f.finish()?;
    Ok(Msg::Cpc { id, conf })
}

#[tactic(auto, unfolding(crate::specs::Reading::summary_reading))]
fn take_summary(alloc: Global, f: &mut Fields<'_>) -> Result<BoxedSummary, CodecFault>
    ensures { TakesWithMemory (λ s. s) summary_reading (unread_of f.old) (unread_of f.new) result }
{
    let mut after = *f;
    let id = take_id(&mut after)?;
    let conf = take_number(&mut after)?;
    let prim = take_prim(&mut after)?;
    let attempt_index = take_number(&mut after)?;
    let vulnerable = take_maybe_vulnerable(&mut after)?;
    let yellow = take_yellow(alloc, &mut after)?;
    let green_count = take_number(&mut after)?;
    let green_cut = take_cut(&mut after)?;
    let red_cut = take_cut(&mut after)?;
    let left = take_set(&mut after)?;
    let summary = Summary {
        id,
        conf,
        prim,
        attempt_index,
        vulnerable,
        yellow,
        green_count,
        green_cut,
        red_cut,
        left,
    };
    let summary = BoxedSummary::new(alloc, summary)?;
    *f = after;
    Ok(summary)
}
