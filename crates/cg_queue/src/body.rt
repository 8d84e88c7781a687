//! How the actions of a queue are kept. `IsSound` in `specs/Body.antt` says what is always so of a body between two calls
//! of the queue.

ghost use Rattle.std.specs.Prelude.{◌≡◌, ◌+◌, ◌<◌, ◌-◌, ◌^◌, suc, length, fold, IsSome, MatchOption, OnOk, OnErr, vec_len, vec_capacity};
ghost use Rattle.cg_base.specs.Sets.{IsId};
ghost use Rattle.cg_base.specs.CutLimits.{IsCut};
ghost use Rattle.cg_queue.specs.Lanes.{HasRoom, rows_of};
ghost use Rattle.cg_queue.specs.Body.{parts_of, flag_of, no_parts, BeginsWell, added_red, with_name, flagged, added_green, settled, cleared, dropped, renamed, flag_name, is_above, lane_of};
ghost use Rattle.std.specs.Prelude.{filter, slice_get, ℕ, [], ◌∷◌, ◌++◌, true, ◌⊎◌};
ghost use Rattle.cg_base.specs.declared.limits.TheConstants.{COUNT_LIMIT};

use crate::lanes::Lanes;
use crate::red::Red;
use cg_action::Action;
use cg_base::{ActionId, Cut, NoMemory};
use std::alloc::Global;
use std::collections::VecDeque;
use std::mem;

pub(crate) struct Body {
    pub(crate) white: u64,
    /// The kept greens, in order.
    pub(crate) greens: VecDeque<Action>,
    pub(crate) green_cut: Cut,
    pub(crate) red_cut: Cut,
    /// Each creator's reds, by index.
    pub(crate) reds: Lanes<Red>,
    /// Where each creator's kept greens stand in the order of all greens, from 1.
    pub(crate) positions: Lanes<u64>,
    /// The yellow names, and some that have become green since.
    pub(crate) yellow: Vec<ActionId>,
    /// How many of the yellow names have become green, less than half of them.
    pub(crate) stale: usize,
}

impl Drop for Body {
    fn drop(self) {
        let Body {
            white: _,
            greens: _,
            green_cut: _,
            red_cut: _,
            reds: _,
            positions: _,
            yellow: _,
            stale: _,
        } = self;
    }
}

pub(crate) fn empty_body(alloc: Global, white: u64, cut: Cut) -> Body
    ensures parts { parts_of result ≡ no_parts white cut }
    ensures cut { IsCut cut }
{
    cut.holds();
    Body {
        white,
        greens: VecDeque::new(alloc),
        green_cut: cut,
        red_cut: cut,
        reds: Lanes::new(alloc),
        positions: Lanes::new(alloc),
        yellow: Vec::new(alloc),
        stale: 0,
    }
}

/// The slot of a creator's rows.
pub(crate) fn lane_of(id: &ActionId) -> usize
    ensures value { result ≡ lane_of id.now }
    ensures within { result < 32 }
    ensures creator { IsId id.now.creator }
{
    usize::from(id.creator.get() - 1)
}

pub(crate) fn name_of(a: &Action) -> ActionId
    ensures value { result ≡ a.now.id }
    ensures creator { IsId a.now.id.creator }
    ensures small { result.index < 2 ^ 64 }
{
    a.id.creator.holds();
    ActionId {
        creator: a.id.creator,
        index: number(a.id.index),
    }
}

// it says which numbers there are
fn number(n: u64) -> u64
    ensures value { result ≡ n }
    ensures small { result < 2 ^ 64 }
{
    n
}

/// The red action at an index of a row is yellow, or there is none.
pub(crate) fn is_flagged(body: &Body, slot: usize, i: usize) -> bool
    ensures { result ≡ flag_of (slice_get (rows_of body.now.reds slot) i) }
{
    match body.reds.get(slot, i) {
        Some(red) => red.is_yellow,
        None => true,
    }
}

/// The creator's first red action is yellow.
pub(crate) fn starts_yellow(body: &Body, id: &ActionId) -> bool {
    match body.reds.get(lane_of(id), 0) {
        Some(red) => red.is_yellow,
        None => false,
    }
}

/// Makes room for one more red of a creator.
pub(crate) fn make_red_room(body: &mut Body, id: &ActionId) -> Result<(), NoMemory>
    ensures same { parts_of body.new ≡ parts_of body.old }
    ensures room { OnOk result (HasRoom body.new.reds (lane_of id.now)) }
{
    body.reds.make_room(lane_of(id))
}

/// A creator's next action, as red; there is room for it.
pub(crate) fn add_red(body: &mut Body, a: Action, is_yellow: bool)
    requires { HasRoom body.old.reds (lane_of a.id) }
    ensures { parts_of body.new ≡ added_red (parts_of body.old) a is_yellow }
{
    let id = name_of(&a);
    let red = Red {
        action: a,
        is_yellow,
    };
    body.reds.push_reserved(lane_of(&id), red);
    body.red_cut.raise(id.creator, id.index);
}

/// Makes room for one more red of a creator, and for its name among the yellow ones.
pub(crate) fn make_yellow_room(body: &mut Body, id: &ActionId) -> Result<(), NoMemory>
    ensures same { parts_of body.new ≡ parts_of body.old }
    ensures room { OnOk result (HasRoom body.new.reds (lane_of id.now)
        × (vec_len body.new.yellow < vec_capacity body.new.yellow)) }
{
    body.yellow.reserve(1)?;
    body.reds.make_room(lane_of(id))
}

/// A creator's next action, as red and yellow; there is room for it.
pub(crate) fn add_yellow(body: &mut Body, a: Action)
    requires room { HasRoom body.old.reds (lane_of a.id) }
    requires name { vec_len body.old.yellow < vec_capacity body.old.yellow }
    ensures { parts_of body.new ≡ added_red (with_name (parts_of body.old) a.id) a true }
{
    body.yellow.push_reserved(name_of(&a));
    add_red(body, a, true);
}

/// A red action that isn't yellow becomes yellow.
pub(crate) fn add_name(
    body: &mut Body,
    id: &ActionId,
    slot: usize,
    i: usize,
) -> Result<(), NoMemory>
    ensures ok { OnOk result (parts_of body.new ≡ flagged (with_name (parts_of body.old) id.now) slot i) }
    ensures err { OnErr result (parts_of body.new ≡ parts_of body.old) }
{
    body.yellow.push(*id)?;
    body.reds.mark(slot, i, true);
    Ok(())
}

/// A creator's next green action.
pub(crate) fn add_green(body: &mut Body, a: Action) -> Result<(), NoMemory>
    requires { body.old.white + length body.old.greens.items < COUNT_LIMIT }
    ensures ok { OnOk result (parts_of body.new ≡ added_green (parts_of body.old) a) }
    ensures err { OnErr result (parts_of body.new ≡ parts_of body.old) }
{
    let id = name_of(&a);
    let slot = lane_of(&id);
    let at = body.white + body.greens.len() as u64 + 1;
    body.positions.push(slot, at)?;
    match push_green(body, a) {
        Ok(()) => {
            settle_green(body, &id, slot);
            Ok(())
        }
        Err(fault) => {
            body.positions.drop_last(slot);
            Err(fault)
        }
    }
}

fn push_green(body: &mut Body, a: Action) -> Result<(), NoMemory>
    ensures ok { OnOk result (parts_of body.new ≡
        record (parts_of body.old) { greens = body.old.greens.items ++ a ∷ [] }) }
    ensures err { OnErr result (parts_of body.new ≡ parts_of body.old) }
{
    body.greens.push_back(a)?;
    Ok(())
}

// the creator's next action is green, and red no more
fn settle_green(body: &mut Body, id: &ActionId, slot: usize)
    ensures { parts_of body.new ≡ settled (parts_of body.old) id.now slot }
{
    body.reds.drop_first(slot);
    body.green_cut.raise(id.creator, id.index);
    body.red_cut.raise(id.creator, id.index);
}

/// A creator's first red action becomes green, if there is one.
pub(crate) fn turn_first(body: &mut Body, slot: usize) -> Result<(), NoMemory>
    requires few { body.old.white + length body.old.greens.items < COUNT_LIMIT }
    requires slot { slot < 32 }
    ensures ok { OnOk
        result (MatchOption (slice_get (rows_of body.old.reds slot) 0) (parts_of body.new ≡ parts_of body.old)
        (λ r. (r.action.id.index < 2 ^ 64) × (lane_of r.action.id ≡ slot →
        parts_of body.new ≡ added_green (parts_of body.old) r.action))) }
    ensures err { OnErr result (parts_of body.new ≡ parts_of body.old) }
{
    let id = match body.reds.get(slot, 0) {
        Some(red) => name_of(&red.action),
        None => return Ok(()),
    };
    body.greens.reserve(1)?;
    let at = body.white + body.greens.len() as u64 + 1;
    body.positions.push(slot, at)?;
    let Some(red) = body.reds.take_first(slot) else {
        unreachable!();
    };
    body.greens.push_back_reserved(red.action);
    body.green_cut.raise(id.creator, id.index);
    body.red_cut.raise(id.creator, id.index);
    Ok(())
}

/// A yellow name has become green: once they are half of the list, all such names leave it.
pub(crate) fn forget_green(body: &mut Body)
    ensures { (parts_of body.new ≡ parts_of body.old) ⊎ (parts_of body.new ≡ cleared (parts_of body.old)) }
{
    if body.stale < body.yellow.len() / 2 {
        body.stale += 1;
        return;
    }
    keep_above(&mut body.yellow, &body.green_cut);
    body.stale = 0;
}

fn keep_above(list: &mut Vec<ActionId>, cut: &Cut)
    ensures { list.new.items ≡ filter (is_above cut.now) list.old.items }
{
    list.retain(|id| cut.get(id.creator) < id.index);
}

/// The first green is discarded, if there is one.
pub(crate) fn drop_green(body: &mut Body)
    requires { body.old.white < COUNT_LIMIT }
    ensures value { parts_of body.new ≡ dropped (parts_of body.old) }
    ensures creator { BeginsWell body.old.greens.items }
{
    let Some(action) = body.greens.pop_front() else {
        return;
    };
    body.positions.drop_first(lane_of(&name_of(&action)));
    body.white += 1;
}

/// These names are the yellow list.
pub(crate) fn rename(body: &mut Body, list: Vec<ActionId>)
    ensures { parts_of body.new ≡ renamed (parts_of body.old) list.items }
{
    flag_names(
        &mut body.reds,
        &body.green_cut,
        body.yellow.as_slice(),
        false,
    );
    flag_names(&mut body.reds, &body.green_cut, list.as_slice(), true);
    body.yellow = list;
    body.stale = 0;
}

fn flag_names(reds: &mut Lanes<Red>, cut: &Cut, list: &[ActionId], is_yellow: bool)
    ensures { rows_of reds.new ≡ fold (flag_name cut.now is_yellow) (rows_of reds.old) list.now }
{
    for id in list {
        flag_one(reds, cut, id, is_yellow);
    }
}

fn flag_one(reds: &mut Lanes<Red>, cut: &Cut, id: &ActionId, is_yellow: bool)
    ensures { rows_of reds.new ≡ flag_name cut.now is_yellow (rows_of reds.old) id.now }
{
    let green = cut.get(id.creator);
    if green < id.index {
        let slot = lane_of(id);
        reds.mark(slot, (id.index - green - 1) as usize, is_yellow);
    }
}
