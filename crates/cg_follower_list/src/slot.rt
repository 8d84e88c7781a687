//! A follower with its number, and what was last shown of it.

ghost use Rattle.std.specs.Prelude.{◌≡◌, true, false, None, IfOk};
ghost use Rattle.std.specs.Option.{option_to_list};
ghost use Rattle.cg_action.specs.ActionLimits.{IsAction};
ghost use Rattle.cg_db.specs.Find.{answer};
ghost use Rattle.cg_base.specs.Lists.{Each};
ghost use Rattle.cg_follower_list.specs.Life.{Life, Up};
ghost use Rattle.cg_follower_list.specs.Followers.{cursor_in, is_up, line_of, taken_by, feeding, stopping};
ghost use Rattle.cg_follower_list.specs.Seen.{seen};
ghost use Rattle.cg_follower_list.specs.Turning.{line_between, next_shown, Turns};

use crate::FollowLine;
use crate::follower_state::FollowerState;
use cg_action::{Answer, Query};
use cg_base::{Bytes, NoMemory};
use cg_queue::Queue;
use std::alloc::Global;
use std::marker::Model;

/// A follower. Clauses see it as what its disk stands for.
pub(crate) struct Slot {
    id: u8,
    shown: u64,
    state: FollowerState,
}

impl Drop for Slot {
    fn drop(self) {
        let Slot {
            id: _,
            shown: _,
            state: _,
        } = self;
    }
}

impl Model for Slot {
    ghost use Rattle.cg_follower_list.specs.Life.{Follower};
    ghost use Rattle.cg_follower_list.specs.Seen.{seen};

    ghost Value = { Follower };

    ghost view = { λ s. record { id = s.id; shown = s.shown; life = seen s.state } };
}

fn line_of(f: u8, cursor: Option<u64>) -> FollowLine
    ensures { result ≡ line_of f cursor }
{
    match cursor {
        Some(cursor) => FollowLine::At { f, cursor },
        None => FollowLine::Down(f),
    }
}

fn line_between(f: u8, before: Option<u64>, after: Option<u64>) -> Option<FollowLine>
    ensures { option_to_list result ≡ line_between f before after }
{
    if before == after {
        return None;
    }
    Some(line_of(f, after))
}

fn next_shown(shown: u64, cursor: Option<u64>) -> u64
    ensures { (life : Life) → cursor ≡ cursor_in life → result ≡ next_shown shown life }
{
    match cursor {
        Some(cursor) => cursor,
        None => shown,
    }
}

impl Slot {
    /// A follower that wasn't there before, and its line.
    pub(crate) fn new(id: u8, state: FollowerState) -> (Slot, FollowLine)
        ensures slot { result.0 ≡ record { id = id; shown = next_shown 0 (seen state); life = seen state } }
        ensures line { result.1 ≡ line_of id (cursor_in (seen state)) }
    {
        let cursor = state.cursor();
        let shown = next_shown(0, cursor);
        (Slot { id, shown, state }, line_of(id, cursor))
    }

    pub(crate) fn id(&self) -> u8
        ensures { result ≡ self.now.id }
    {
        self.id
    }

    /// The cursor that was last shown of it.
    pub(crate) fn shown(&self) -> u64
        ensures { result ≡ self.now.shown }
    {
        self.shown
    }

    pub(crate) fn is_up(&self) -> bool
        ensures { result ≡ is_up self.now.life }
    {
        self.state.is_up()
    }

    /// Its cursor, where it is up.
    pub(crate) fn cursor(&self) -> Option<u64>
        ensures { result ≡ cursor_in self.now.life }
    {
        self.state.cursor()
    }

    /// What a query finds in its database, where it is up.
    pub(crate) fn answer(&self, q: &Query) -> Result<Answer, NoMemory>
        requires { is_up self.now.life ≡ true }
        ensures { IfOk result (λ found. found ≡ answer (taken_by self.now.life).db q.now) }
    {
        self.state.answer(q)
    }

    /// It stands so from now on.
    pub(crate) fn turn(self, state: FollowerState) -> (Slot, Option<FollowLine>)
        ensures { Turns self (seen state) result }
    {
        let before = self.cursor();
        let Slot {
            id,
            shown,
            state: _,
        } = self;
        turned(id, shown, before, state)
    }

    /// It takes so many of the queue's next greens, or is struck while it does, where it is up.
    pub(crate) fn feed(
        self,
        alloc: Global,
        q: &Queue,
        count: u64,
    ) -> Result<(Slot, Option<FollowLine>), NoMemory>
        requires { Each IsAction q.now.greens }
        ensures { IfOk result (Turns self (feeding q.now count self.life)) }
    {
        let before = self.cursor();
        let Slot { id, shown, state } = self;
        let state = state.feed(alloc, q, count)?;
        Ok(turned(id, shown, before, state))
    }

    /// A crash now for 0, or inside the device call of this number, where it is up.
    pub(crate) fn stop(self, call: u64, fill: Bytes) -> Result<(Slot, Option<FollowLine>), NoMemory>
        requires { is_up self.life ≡ true }
        ensures { IfOk result (Turns self (stopping call fill self.life)) }
    {
        let before = self.cursor();
        let Slot { id, shown, state } = self;
        let state = state.stop(call, fill)?;
        Ok(turned(id, shown, before, state))
    }

    /// It comes up, where it is down.
    pub(crate) fn recover(self, alloc: Global) -> Result<(Slot, Option<FollowLine>), NoMemory>
        requires { is_up self.life ≡ false }
        ensures { IfOk result (Turns self (Up (taken_by self.life) None)) }
    {
        let before = self.cursor();
        let Slot { id, shown, state } = self;
        let state = state.recover(alloc)?;
        Ok(turned(id, shown, before, state))
    }
}

// A follower that stands so, and the line that is due where its cursor was this one before.
fn turned(
    id: u8,
    shown: u64,
    before: Option<u64>,
    state: FollowerState,
) -> (Slot, Option<FollowLine>)
    ensures slot { result.0 ≡ record { id = id; shown = next_shown shown (seen state); life = seen state } }
    ensures line { option_to_list result.1 ≡ line_between id before (cursor_in (seen state)) }
{
    let cursor = state.cursor();
    let shown = next_shown(shown, cursor);
    (Slot { id, shown, state }, line_between(id, before, cursor))
}
