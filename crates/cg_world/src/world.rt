//! The step of the world.
ghost use Rattle.std.specs.Prelude.{◌++◌};
ghost use Rattle.cg_model.specs.Making.{newly_made};
ghost use Rattle.cg_model.specs.Run.{MayStand};
ghost use Rattle.cg_model.specs.Show.{ended};
ghost use Rattle.cg_model.specs.Touched.{ShowsNewsOf};
ghost use Rattle.cg_world.specs.Led.{IsLedWith};
ghost use Rattle.cg_world.specs.Steps.{IsCounted, IsEnd, Steps};

use crate::World;
use crate::made_actions::MadeActions;
use cg_agree::{
    actions_stand_in_one_book, facts_stand_beside_each_world, made_actions_stand_in_the_book,
    others_show_nothing_new,
};
use cg_base::{IdSet, NoMemory};
use cg_group::{GroupErr, Reason};
use cg_report::Entry;
use cg_schedule::Event;
use cg_world_events::{StepInProgress, WorldState, happen, touched};
use std::alloc::Global;

/// What comes of an event: a step, a refusal that leaves the world as it was, or want of memory, after which the world
/// is gone.
#[derive(Drop)]
pub enum Stepped {
    Done { world: World, entry: Entry },
    Refused { world: World, reason: Reason },
    NoMemory,
}

impl World {
    /// The step of an event in this world.
    pub fn step(self, alloc: Global, event: &Event) -> Stepped
        requires stands { MayStand self.world event.now }
        requires counted { IsCounted event.now }
        ensures { Steps self event.now result }
    {
        facts_stand_beside_each_world();
        actions_stand_in_one_book();
        made_actions_stand_in_the_book();
        others_show_nothing_new();
        let World { state, made } = self;
        let mut going = StepInProgress::quietly(alloc, state);
        match happen(alloc, &mut going, event) {
            Ok(()) => end_and_keep(alloc, made, going, &touched(event)),
            Err(GroupErr::Refused(reason)) => Stepped::Refused {
                world: World {
                    state: going.into_state(),
                    made,
                },
                reason,
            },
            Err(GroupErr::NoMemory) => {
                drop(going);
                drop(made);
                Stepped::NoMemory
            }
        }
    }
}

// the event ends in a world to which it leads, and nothing is new of replicas that it doesn't touch
fn end_and_keep(alloc: Global, made: MadeActions, going: StepInProgress, touched: &IdSet) -> Stepped
    requires led { IsLedWith (ended going).world (made ++ newly_made (ended going)) }
    requires news { ShowsNewsOf touched.now going.world }
    ensures { IsEnd (ended going) made result }
{
    match going.end_step(touched) {
        Ok((entry, state)) => keep_made(alloc, made, entry, state),
        Err(NoMemory) => {
            drop(made);
            Stepped::NoMemory
        }
    }
}

// what its step shows as made is kept
fn keep_made(alloc: Global, made: MadeActions, entry: Entry, state: Box<WorldState>) -> Stepped
    requires { IsLedWith state.value (made ++ newly_made (record { entry = entry; world = state.value })) }
    ensures { IsEnd (record { entry = entry; world = state.value }) made result }
{
    let mut made = made;
    match made.add_all(alloc, &state, entry.made.as_slice()) {
        Ok(()) => Stepped::Done {
            world: World { state, made },
            entry,
        },
        Err(NoMemory) => {
            drop(made);
            drop(entry);
            drop(state);
            Stepped::NoMemory
        }
    }
}
