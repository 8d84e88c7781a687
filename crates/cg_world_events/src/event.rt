//! One event, of any kind.
ghost use Rattle.cg_model.specs.Run.{MayAsk};
ghost use Rattle.cg_model.specs.Standing.{IsBooked};
ghost use Rattle.cg_world_events.specs.StepInProgress.{IsQuiet};
ghost use Rattle.cg_world_events.specs.Grounds.{ComesFirst, IsHosted};
ghost use Rattle.cg_world_events.specs.Happening.{Happens, IsCounted};

use crate::StepInProgress;
use crate::asking::{join, leave, request};
use crate::beginning::start;
use crate::grouping::{deliver, gather, merge, order, receive, split};
use crate::handing::transfer;
use crate::querying::{dirty, show, show_order, weak};
use crate::recovering::{downgrade, recover, recover_stopped};
use crate::striking::{fail, stop};
use cg_group::GroupErr;
use cg_schedule::Event;
use std::alloc::Global;

/// What an event does, or the first reason by which it isn't admitted; then all is as it was. After want of memory
/// nothing is said of the world. Rounds are events of their own, and the end is none: both do nothing here.
#[tactic(auto, unfolding(cg_model::specs::Admission::first_refusal, cg_model::specs::Step::happens))]
pub fn happen(alloc: Global, going: &mut StepInProgress, event: &Event) -> Result<(), GroupErr>
    requires counted { IsCounted event.now }
    requires asks { MayAsk event.now }
    requires quiet { IsQuiet going.old }
    requires first { ComesFirst going.old.world event.now }
    requires hosted { IsHosted going.old.world }
    requires booked { IsBooked going.old.world }
    ensures { Happens going.old event.now going.new result }
{
    match event {
        Event::Start(set) => start(alloc, going, set),
        Event::Split(set) => split(going, *set),
        Event::Merge(set) => merge(going, *set),
        Event::Request { p, cmds, query } => request(alloc, going, *p, cmds, query),
        Event::Weak { p, query } => weak(alloc, going, *p, query),
        Event::Dirty { p, query } => dirty(alloc, going, *p, query),
        Event::Order(p) => order(going, *p),
        Event::Recover(p) => recover(alloc, going, *p),
        Event::RecoverStopped { p, call, fill } => recover_stopped(alloc, going, *p, *call, fill),
        Event::Downgrade(p) => downgrade(alloc, going, *p),
        Event::Show(p) => show(alloc, going, *p),
        Event::ShowOrder => show_order(alloc, going),
        Event::Gather => gather(going),
        Event::Receive { p, place } => receive(going, *p, *place),
        Event::Deliver { p, count } => deliver(going, *p, *count),
        Event::Stop { p, call, fill } => stop(alloc, going, *p, *call, fill),
        Event::Fail { p, call } => fail(going, *p, *call),
        Event::Join { p, joiner, weight } => join(going, *p, *joiner, *weight),
        Event::Leave { p, server } => leave(going, *p, *server),
        Event::Transfer { p, joiner, pieces } => transfer(alloc, going, *p, *joiner, *pieces),
        Event::End | Event::Rounds(_) => Ok(()),
    }
}
