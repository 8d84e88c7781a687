//! The world of a run, which its steps change in place.
ghost use Rattle.std.specs.Prelude.{◌≡◌, IfOk};
ghost use Rattle.cg_model.specs.Run.{MayStand};
ghost use Rattle.cg_world.specs.Steps.{IsCounted};
ghost use Rattle.cg_run.specs.InPlace.{StepsInPlace};

use cg_base::NoMemory;
use cg_group::GroupErr;
use cg_report::Entry;
use cg_schedule::Event;
use cg_world::{Stepped, World};
use std::alloc::Global;
use std::marker::Model;

/// The world of a run. A step takes it and gives it back, but after want of memory: then it is gone, and whatever asks
/// for it is told that there was no memory. Clauses see the world.
pub struct WorldInPlace {
    world: Option<World>,
}

impl Drop for WorldInPlace {
    fn drop(self) {
        let WorldInPlace { world: _ } = self;
    }
}

impl Model for WorldInPlace {
    ghost use Rattle.std.specs.Option.{option_map_or};
    ghost use Rattle.cg_world.specs.SoFar.{SoFar, nothing_yet};

    ghost Value = { SoFar };

    ghost view = { λ w. option_map_or (λ s. s) w.world nothing_yet };
}

impl WorldInPlace {
    ghost use Rattle.cg_world.specs.SoFar.{nothing_yet};

    /// The world before its start.
    pub fn new(alloc: Global) -> Result<WorldInPlace, NoMemory>
        ensures { IfOk result (λ w. w ≡ nothing_yet) }
    {
        let world = World::new(alloc)?;
        Ok(WorldInPlace { world: Some(world) })
    }

    /// The world.
    pub fn get(&self) -> Result<&World, NoMemory>
        ensures { IfOk result (λ world. world.now ≡ self.now) }
    {
        match &self.world {
            Some(world) => Ok(world),
            None => Err(NoMemory),
        }
    }

    /// The step of an event.
    pub fn step(&mut self, alloc: Global, event: &Event) -> Result<Entry, GroupErr>
        requires stands { MayStand self.old.world event.now }
        requires counted { IsCounted event.now }
        ensures { StepsInPlace self.old event.now self.new result }
    {
        let Some(world) = self.world.take() else {
            return Err(GroupErr::NoMemory);
        };
        match world.step(alloc, event) {
            Stepped::Done { world, entry } => {
                self.world = Some(world);
                Ok(entry)
            }
            Stepped::Refused { world, reason } => {
                self.world = Some(world);
                Err(GroupErr::Refused(reason))
            }
            Stepped::NoMemory => Err(GroupErr::NoMemory),
        }
    }

    /// The world, by value.
    pub fn into_world(self) -> Result<World, NoMemory>
        ensures { IfOk result (λ world. world ≡ self) }
    {
        let WorldInPlace { world } = self;
        match world {
            Some(world) => Ok(world),
            None => Err(NoMemory),
        }
    }
}
