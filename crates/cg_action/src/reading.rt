//! Actions from bytes.

ghost use Rattle.std.specs.Prelude.{[], IfOk};
ghost use Rattle.cg_codec.specs.Reading.{whole, take_text, take_optional, take_items, byte_between};
ghost use Rattle.cg_codec.specs.Taking.{unread_of, Takes, TakesWithMemory, Decodes};
ghost use Rattle.cg_action.specs.ActionLimits.{IsAction};
ghost use Rattle.cg_action.specs.Reading.{number_from, id_reading, key_reading, value_of_tag, value_reading, want_of_tag, want_reading, amount_reading, put_reading, del_reading, inc_reading, cas_reading, move_reading, need_reading, command_of_tag, command_reading, query_of_tag, query_reading, commands_reading, query_behind, update_reading, heavy_join_reading, kind_of_tag, kind_reading, action_reading};

use crate::{Action, Boxed, BoxedOption, Cmd, CmdList, Kind, Query, Shared, Value};
use cg_base::{ActionId, NUMBER_LIMIT, ReplicaId};
use cg_codec::{CodecFault, Fields};
use cg_text::Txt;
use std::alloc::Global;

/// Reads an action that is all of the bytes.
pub fn decode(alloc: Global, bytes: &[u8]) -> Result<Action, CodecFault>
    ensures read { Decodes (λ a. a) (whole action_reading bytes.now) result }
    ensures within { IfOk result IsAction }
{
    let mut fields = Fields::new(bytes);
    let action = take_action(alloc, &mut fields)?;
    fields.finish()?;
    Ok(action)
}

/// Takes an action.
#[tactic(auto, unfolding(crate::specs::Reading::action_reading))]
pub fn take_action(alloc: Global, fields: &mut Fields) -> Result<Action, CodecFault>
    ensures { TakesWithMemory (λ a. a) action_reading (unread_of fields.old) (unread_of fields.new) result }
{
    let mut after = *fields;
    let id = take_action_id(&mut after)?;
    let green_line = take_number(&mut after, 0)?;
    let kind = Shared::new(alloc, take_kind(alloc, &mut after)?)?;
    *fields = after;
    Ok(Action {
        id,
        green_line,
        kind,
    })
}

/// Takes a name of an action.
#[tactic(auto, unfolding(crate::specs::Reading::id_reading))]
pub fn take_action_id(fields: &mut Fields) -> Result<ActionId, CodecFault>
    ensures { Takes (λ id. id) id_reading (unread_of fields.old) (unread_of fields.new) result }
{
    let mut after = *fields;
    let creator = take_replica(&mut after)?;
    let index = take_number(&mut after, 1)?;
    *fields = after;
    Ok(ActionId { creator, index })
}

/// Takes a value.
#[tactic(auto, unfolding(crate::specs::Reading::value_reading))]
pub fn take_value(alloc: Global, fields: &mut Fields) -> Result<Value, CodecFault>
    ensures { TakesWithMemory (λ v. v) value_reading (unread_of fields.old) (unread_of fields.new) result }
{
    let mut after = *fields;
    let tag = after.take_between(1, 2)?;
    let value = take_value_of(alloc, &mut after, tag)?;
    *fields = after;
    Ok(value)
}

#[tactic(auto, unfolding(cg_codec::specs::Reading::byte_between))]
fn take_replica(fields: &mut Fields) -> Result<ReplicaId, CodecFault>
    ensures { Takes (λ id. id) (byte_between 1 32) (unread_of fields.old) (unread_of fields.new) result }
{
    let mut after = *fields;
    let byte = after.take_u8()?;
    match ReplicaId::new(byte) {
        Some(id) => {
            *fields = after;
            Ok(id)
        }
        None => Err(fields.bad()),
    }
}

#[tactic(auto, unfolding(crate::specs::Reading::number_from))]
fn take_number(fields: &mut Fields, low: u64) -> Result<u64, CodecFault>
    ensures { Takes (λ n. n) (number_from low) (unread_of fields.old) (unread_of fields.new) result }
{
    let mut after = *fields;
    let number = after.take_u64()?;
    if number < low || number >= NUMBER_LIMIT {
        return Err(fields.bad());
    }
    *fields = after;
    Ok(number)
}

fn take_txt(alloc: Global, fields: &mut Fields, max: u32) -> Result<Txt, CodecFault>
    ensures { TakesWithMemory (λ t. t) (take_text max) (unread_of fields.old) (unread_of fields.new) result }
{
    let mut after = *fields;
    let text = after.take_text(max)?;
    let copy = Txt::new(alloc, text)?;
    *fields = after;
    Ok(copy)
}

#[tactic(auto, unfolding(crate::specs::Reading::key_reading))]
fn take_key(alloc: Global, fields: &mut Fields) -> Result<Txt, CodecFault>
    ensures { TakesWithMemory (λ t. t) key_reading (unread_of fields.old) (unread_of fields.new) result }
{
    let mut after = *fields;
    let text = after.take_text(64)?;
    if text.is_empty() {
        return Err(fields.bad());
    }
    let copy = Txt::new(alloc, text)?;
    *fields = after;
    Ok(copy)
}

#[tactic(auto, unfolding(crate::specs::Reading::value_of_tag))]
fn take_value_of(alloc: Global, fields: &mut Fields, tag: u8) -> Result<Value, CodecFault>
    ensures { TakesWithMemory (λ v. v) (value_of_tag tag) (unread_of fields.old) (unread_of fields.new) result }
{
    if tag == 1 {
        let text = take_txt(alloc, fields, 1024)?;
        Ok(Value::Text(text))
    } else {
        let number = fields.take_i64()?;
        Ok(Value::Int(number))
    }
}

#[tactic(auto, unfolding(crate::specs::Reading::want_of_tag))]
fn take_want_of(
    alloc: Global,
    fields: &mut Fields,
    tag: u8,
) -> Result<BoxedOption<Value>, CodecFault>
    ensures { TakesWithMemory (λ w. w) (want_of_tag tag) (unread_of fields.old) (unread_of fields.new) result }
{
    if tag == 0 {
        return Ok(BoxedOption::none());
    }
    let mut after = *fields;
    let value = take_value_of(alloc, &mut after, tag)?;
    let want = BoxedOption::some(alloc, value)?;
    *fields = after;
    Ok(want)
}

#[tactic(auto, unfolding(crate::specs::Reading::want_reading))]
fn take_want(alloc: Global, fields: &mut Fields) -> Result<BoxedOption<Value>, CodecFault>
    ensures { TakesWithMemory (λ w. w) want_reading (unread_of fields.old) (unread_of fields.new) result }
{
    let mut after = *fields;
    let tag = after.take_between(0, 2)?;
    let want = take_want_of(alloc, &mut after, tag)?;
    *fields = after;
    Ok(want)
}

#[tactic(auto, unfolding(crate::specs::Reading::amount_reading))]
fn take_amount(fields: &mut Fields) -> Result<i64, CodecFault>
    ensures { Takes (λ n. n) amount_reading (unread_of fields.old) (unread_of fields.new) result }
{
    let mut after = *fields;
    let amount = after.take_i64()?;
    if amount < 0 {
        return Err(fields.bad());
    }
    *fields = after;
    Ok(amount)
}

#[tactic(auto, unfolding(crate::specs::Reading::put_reading))]
fn take_put(alloc: Global, fields: &mut Fields) -> Result<Cmd, CodecFault>
    ensures { TakesWithMemory (λ c. c) put_reading (unread_of fields.old) (unread_of fields.new) result }
{
    let mut after = *fields;
    let key = take_key(alloc, &mut after)?;
    let value = take_value(alloc, &mut after)?;
    *fields = after;
    Ok(Cmd::Put { key, value })
}

#[tactic(auto, unfolding(crate::specs::Reading::del_reading))]
fn take_del(alloc: Global, fields: &mut Fields) -> Result<Cmd, CodecFault>
    ensures { TakesWithMemory (λ c. c) del_reading (unread_of fields.old) (unread_of fields.new) result }
{
    let key = take_key(alloc, fields)?;
    Ok(Cmd::Del { key })
}

#[tactic(auto, unfolding(crate::specs::Reading::inc_reading))]
fn take_inc(alloc: Global, fields: &mut Fields) -> Result<Cmd, CodecFault>
    ensures { TakesWithMemory (λ c. c) inc_reading (unread_of fields.old) (unread_of fields.new) result }
{
    let mut after = *fields;
    let key = take_key(alloc, &mut after)?;
    let by = after.take_i64()?;
    *fields = after;
    Ok(Cmd::Inc { key, by })
}

#[tactic(auto, unfolding(crate::specs::Reading::cas_reading))]
fn take_cas(alloc: Global, fields: &mut Fields) -> Result<Cmd, CodecFault>
    ensures { TakesWithMemory (λ c. c) cas_reading (unread_of fields.old) (unread_of fields.new) result }
{
    let mut after = *fields;
    let key = take_key(alloc, &mut after)?;
    let want = take_want(alloc, &mut after)?;
    let value = Boxed::new(alloc, take_value(alloc, &mut after)?)?;
    *fields = after;
    Ok(Cmd::Cas { key, want, value })
}

#[tactic(auto, unfolding(crate::specs::Reading::move_reading))]
fn take_move(alloc: Global, fields: &mut Fields) -> Result<Cmd, CodecFault>
    ensures { TakesWithMemory (λ c. c) move_reading (unread_of fields.old) (unread_of fields.new) result }
{
    let mut after = *fields;
    let source = take_key(alloc, &mut after)?;
    let target = take_key(alloc, &mut after)?;
    let amount = take_amount(&mut after)?;
    *fields = after;
    Ok(Cmd::Move {
        source,
        target,
        amount,
    })
}

#[tactic(auto, unfolding(crate::specs::Reading::need_reading))]
fn take_need(alloc: Global, fields: &mut Fields) -> Result<Cmd, CodecFault>
    ensures { TakesWithMemory (λ c. c) need_reading (unread_of fields.old) (unread_of fields.new) result }
{
    let mut after = *fields;
    let key = take_key(alloc, &mut after)?;
    let want = take_want(alloc, &mut after)?;
    *fields = after;
    Ok(Cmd::Need { key, want })
}

#[tactic(auto, unfolding(crate::specs::Reading::command_of_tag))]
fn take_command_of(alloc: Global, fields: &mut Fields, tag: u8) -> Result<Cmd, CodecFault>
    ensures { TakesWithMemory (λ c. c) (command_of_tag tag) (unread_of fields.old) (unread_of fields.new) result }
{
    match tag {
        1 => take_put(alloc, fields),
        2 => take_del(alloc, fields),
        3 => take_inc(alloc, fields),
        4 => take_cas(alloc, fields),
        5 => take_move(alloc, fields),
        _ => take_need(alloc, fields),
    }
}

#[tactic(auto, unfolding(crate::specs::Reading::command_reading))]
fn take_command(alloc: Global, fields: &mut Fields) -> Result<Cmd, CodecFault>
    ensures { TakesWithMemory (λ c. c) command_reading (unread_of fields.old) (unread_of fields.new) result }
{
    let mut after = *fields;
    let tag = after.take_between(1, 6)?;
    let cmd = take_command_of(alloc, &mut after, tag)?;
    *fields = after;
    Ok(cmd)
}

#[tactic(auto, unfolding(crate::specs::Reading::commands_reading))]
fn take_commands(alloc: Global, fields: &mut Fields) -> Result<CmdList, CodecFault>
    ensures { TakesWithMemory (λ l. l) commands_reading (unread_of fields.old) (unread_of fields.new) result }
{
    let mut after = *fields;
    let count = after.take_count(16)?;
    let cmds = if count == 1 {
        take_single(alloc, &mut after)?
    } else {
        take_each(alloc, &mut after, count)?
    };
    *fields = after;
    Ok(cmds)
}

// one command, as most actions have: it lies in the list itself
#[tactic(auto, unfolding(cg_codec::specs::Reading::take_items))]
fn take_single(alloc: Global, fields: &mut Fields) -> Result<CmdList, CodecFault>
    ensures { TakesWithMemory (λ l. l) (take_items (λ _. command_reading) 1 []) (unread_of fields.old)
        (unread_of fields.new) result }
{
    let cmd = take_command(alloc, fields)?;
    Ok(CmdList::one(alloc, cmd))
}

fn take_each(alloc: Global, fields: &mut Fields, count: u32) -> Result<CmdList, CodecFault>
    ensures { TakesWithMemory (λ l. l) (take_items (λ _. command_reading) count []) (unread_of fields.old)
        (unread_of fields.new) result }
{
    let mut after = *fields;
    let mut cmds = CmdList::with_capacity(alloc, count as usize)?;
    for _ in 0..count {
        cmds.push(take_command(alloc, &mut after)?)?;
    }
    *fields = after;
    Ok(cmds)
}

#[tactic(auto, unfolding(crate::specs::Reading::query_of_tag))]
fn take_query_of(alloc: Global, fields: &mut Fields, tag: u8) -> Result<Query, CodecFault>
    ensures { TakesWithMemory (λ q. q) (query_of_tag tag) (unread_of fields.old) (unread_of fields.new) result }
{
    if tag == 1 {
        let key = take_key(alloc, fields)?;
        Ok(Query::Get(key))
    } else if tag == 2 {
        let prefix = take_txt(alloc, fields, 64)?;
        Ok(Query::Keys(prefix))
    } else {
        Ok(Query::Count)
    }
}

#[tactic(auto, unfolding(crate::specs::Reading::query_reading))]
fn take_query(alloc: Global, fields: &mut Fields) -> Result<Query, CodecFault>
    ensures { TakesWithMemory (λ q. q) query_reading (unread_of fields.old) (unread_of fields.new) result }
{
    let mut after = *fields;
    let tag = after.take_between(1, 3)?;
    let query = take_query_of(alloc, &mut after, tag)?;
    *fields = after;
    Ok(query)
}

fn take_query_or_none(alloc: Global, fields: &mut Fields) -> Result<Option<Query>, CodecFault>
    ensures { TakesWithMemory (λ q. q) (take_optional query_reading) (unread_of fields.old)
        (unread_of fields.new) result }
{
    let mut after = *fields;
    if !after.take_truth()? {
        *fields = after;
        return Ok(None);
    }
    let query = take_query(alloc, &mut after)?;
    *fields = after;
    Ok(Some(query))
}

// the query behind the commands, of which there may be none where it is
#[tactic(auto, unfolding(crate::specs::Reading::query_behind))]
fn take_query_behind(
    alloc: Global,
    fields: &mut Fields,
    cmds: &[Cmd],
) -> Result<Option<Query>, CodecFault>
    ensures { TakesWithMemory (λ q. q) (query_behind cmds.now) (unread_of fields.old) (unread_of fields.new) result }
{
    let mut after = *fields;
    let query = take_query_or_none(alloc, &mut after)?;
    if cmds.is_empty() && query.is_none() {
        return Err(fields.bad());
    }
    *fields = after;
    Ok(query)
}

#[tactic(auto, unfolding(crate::specs::Reading::update_reading))]
fn take_update(alloc: Global, fields: &mut Fields) -> Result<Kind, CodecFault>
    ensures { TakesWithMemory (λ k. k) update_reading (unread_of fields.old) (unread_of fields.new) result }
{
    let mut after = *fields;
    let cmds = take_commands(alloc, &mut after)?;
    let query = take_query_behind(alloc, &mut after, cmds.as_slice())?;
    *fields = after;
    Ok(Kind::Update { cmds, query })
}

#[tactic(auto, unfolding(crate::specs::Reading::heavy_join_reading))]
fn take_heavy_join(fields: &mut Fields) -> Result<Kind, CodecFault>
    ensures { Takes (λ k. k) heavy_join_reading (unread_of fields.old) (unread_of fields.new) result }
{
    let mut after = *fields;
    let joiner = take_replica(&mut after)?;
    let weight = after.take_between(2, 255)?;
    *fields = after;
    Ok(Kind::Join(joiner, weight))
}

#[tactic(auto, unfolding(crate::specs::Reading::kind_of_tag))]
fn take_kind_of(alloc: Global, fields: &mut Fields, tag: u8) -> Result<Kind, CodecFault>
    ensures { TakesWithMemory (λ k. k) (kind_of_tag tag) (unread_of fields.old) (unread_of fields.new) result }
{
    match tag {
        1 => take_update(alloc, fields),
        2 => {
            let joiner = take_replica(fields)?;
            Ok(Kind::Join(joiner, 1))
        }
        3 => {
            let server = take_replica(fields)?;
            Ok(Kind::Leave(server))
        }
        _ => take_heavy_join(fields),
    }
}

#[tactic(auto, unfolding(crate::specs::Reading::kind_reading))]
fn take_kind(alloc: Global, fields: &mut Fields) -> Result<Kind, CodecFault>
    ensures { TakesWithMemory (λ k. k) kind_reading (unread_of fields.old) (unread_of fields.new) result }
{
    let mut after = *fields;
    let tag = after.take_between(1, 4)?;
    let kind = take_kind_of(alloc, &mut after, tag)?;
    *fields = after;
    Ok(kind)
}
