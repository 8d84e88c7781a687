//! How a follower stands.

ghost use Rattle.std.specs.Prelude.{◌≡◌, true, false, Some, None, IfOk};
ghost use Rattle.cg_action.specs.ActionLimits.{IsAction};
ghost use Rattle.cg_db.specs.Find.{answer};
ghost use Rattle.cg_base.specs.Lists.{Each};
ghost use Rattle.cg_follower_list.specs.Life.{Up};
ghost use Rattle.cg_follower_list.specs.Followers.{cursor_in, is_up, taken_by, feeding, stopping};
ghost use Rattle.cg_follower_list.specs.Seen.{seen};

use crate::fallen_disk::FallenDisk;
use crate::greens::next_greens;
use crate::running::Running;
use cg_action::{Answer, Query};
use cg_base::{Bytes, NoMemory};
use cg_queue::Queue;
use std::alloc::Global;

/// Up, or down with its disk.
pub(crate) enum FollowerState {
    Up(Running),
    Down(FallenDisk),
}

impl Drop for FollowerState {
    fn drop(self) {
        match self {
            FollowerState::Up(_) => {}
            FollowerState::Down(_) => {}
        }
    }
}

impl FollowerState {
    pub(crate) fn is_up(&self) -> bool
        ensures { result ≡ is_up (seen self.now) }
    {
        match self {
            FollowerState::Up(_) => true,
            FollowerState::Down(_) => false,
        }
    }

    /// Its cursor, where it is up.
    pub(crate) fn cursor(&self) -> Option<u64>
        ensures { result ≡ cursor_in (seen self.now) }
    {
        match self {
            FollowerState::Up(running) => Some(running.cursor()),
            FollowerState::Down(_) => None,
        }
    }

    /// What a query finds in its database, where it is up.
    pub(crate) fn answer(&self, q: &Query) -> Result<Answer, NoMemory>
        requires { is_up (seen self.now) ≡ true }
        ensures { IfOk result (λ found. found ≡ answer (taken_by (seen self.now)).db q.now) }
    {
        match self {
            FollowerState::Up(running) => running.answer(q),
            FollowerState::Down(_) => unreachable!(),
        }
    }

    /// It takes so many of the queue's next greens, or is struck while it does, where it is up.
    pub(crate) fn feed(
        self,
        alloc: Global,
        q: &Queue,
        count: u64,
    ) -> Result<FollowerState, NoMemory>
        requires { Each IsAction q.now.greens }
        ensures { IfOk result (λ s. seen s ≡ feeding q.now count (seen self)) }
    {
        match self {
            FollowerState::Up(running) => feed(alloc, running, q, count),
            FollowerState::Down(disk) => Ok(FollowerState::Down(disk)),
        }
    }

    /// A crash now for 0, or inside the device call of this number, where it is up.
    pub(crate) fn stop(self, call: u64, fill: Bytes) -> Result<FollowerState, NoMemory>
        requires { is_up (seen self) ≡ true }
        ensures { IfOk result (λ s. seen s ≡ stopping call fill (seen self)) }
    {
        match self {
            FollowerState::Up(running) => stop(running, call, fill),
            FollowerState::Down(_) => unreachable!(),
        }
    }

    /// It comes up, where it is down.
    pub(crate) fn recover(self, alloc: Global) -> Result<FollowerState, NoMemory>
        requires { is_up (seen self) ≡ false }
        ensures { IfOk result (λ s. seen s ≡ Up (taken_by (seen self)) None) }
    {
        match self {
            FollowerState::Up(_) => unreachable!(),
            FollowerState::Down(disk) => Ok(FollowerState::Up(disk.open(alloc)?)),
        }
    }
}

fn feed(alloc: Global, running: Running, q: &Queue, count: u64) -> Result<FollowerState, NoMemory>
    requires { Each IsAction q.now.greens }
    ensures { IfOk result (λ s. seen s ≡ feeding q.now count (Up running.now running.armed)) }
{
    let list = next_greens(alloc, q, running.cursor(), count)?;
    running.feed(&list)
}

fn stop(running: Running, call: u64, fill: Bytes) -> Result<FollowerState, NoMemory>
    ensures { IfOk result (λ s. seen s ≡ stopping call fill (Up running.now running.armed)) }
{
    if call == 0 {
        return Ok(FollowerState::Down(running.crash()?));
    }
    let mut running = running;
    running.stop_at(call, fill);
    Ok(FollowerState::Up(running))
}
