ghost use Rattle.std.specs.Prelude.{IfOk};
ghost use Rattle.cg_model.specs.Run.{MayStand};
ghost use Rattle.cg_model.specs.NodeLaws.{IsHosted};
ghost use Rattle.cg_world.specs.Steps.{IsCounted};

use cg_action::{CmdList, Kind, Query};
use cg_base::{ActionId, IdSet, ReplicaId, WeightSet};
use cg_schedule::Event;
use cg_world::{Stepped, World};
use std::alloc::Global;
use std::test::Fail;

fn take_step(alloc: Global, world: World, event: &Event) -> Result<World, Fail>
    requires stands { MayStand world.world event.now }
    requires counted { IsCounted event.now }
    ensures { IfOk result (λ w. IsHosted w.world) }
{
    match world.step(alloc, event) {
        Stepped::Done { world, entry } => {
            drop(entry);
            Ok(world)
        }
        Stepped::Refused { world, .. } => {
            drop(world);
            Err("the event isn't admitted")?
        }
        Stepped::NoMemory => Err("no memory")?,
    }
}

// the replica begins, and comes into a configuration of its own
fn begin(alloc: Global, p: ReplicaId) -> Result<World, Fail>
    ensures { IfOk result (λ w. IsHosted w.world) }
{
    let mut set = IdSet::empty();
    set.add(p);
    let weights = WeightSet::of(&set);
    let _members = weights.iter();
    let world = take_step(alloc, World::new(alloc)?, &Event::Start(weights))?;
    let _ids = set.iter();
    take_step(alloc, world, &Event::Merge(set))
}

// what it has said is ordered, and handed to it
fn hear(alloc: Global, world: World, p: ReplicaId) -> Result<World, Fail>
    requires { IsHosted world.world }
    ensures { IfOk result (λ w. IsHosted w.world) }
{
    let world = take_step(alloc, world, &Event::Gather)?;
    let count = world.ready(p);
    take_step(alloc, world, &Event::Deliver { p, count })
}

// a client asks it for a count of the keys
fn ask(alloc: Global, world: World, p: ReplicaId) -> Result<World, Fail>
    requires { IsHosted world.world }
    ensures { IfOk result (λ w. IsHosted w.world) }
{
    let cmds = CmdList::new(alloc);
    let query = Some(Query::Count);
    take_step(alloc, world, &Event::Request { p, cmds, query })
}

// the creator's action of this number asks for a count of the keys, and was made with so many greens
fn is_asked(world: &World, creator: ReplicaId, index: u64, greens: u64) -> bool {
    match world.made(ActionId { creator, index }) {
        Some(action) => {
            action.id.creator == creator
                && action.id.index == index
                && action.green_line == greens
                && is_count(action.kind.get())
        }
        None => false,
    }
}

fn is_count(kind: &Kind) -> bool {
    match kind {
        Kind::Update {
            cmds,
            query: Some(Query::Count),
        } => cmds.as_slice().is_empty(),
        _ => false,
    }
}

#[test]
fn what_a_lone_member_is_asked_for_is_made(rt: HostRuntime) -> Result<(), Fail> {
    let alloc = rt.alloc();
    let creator = ReplicaId::new(3).ok_or("no replica")?;
    let world = begin(alloc, creator)?;
    let world = hear(alloc, world, creator)?;
    let world = hear(alloc, world, creator)?;
    assert!(rt; world.made(ActionId { creator, index: 1 }).is_none());
    let world = ask(alloc, world, creator)?;
    assert!(rt; is_asked(&world, creator, 1, 0));
    assert!(rt; world.made(ActionId { creator, index: 2 }).is_none());
    assert!(rt; world.made(ActionId { creator, index: 0 }).is_none());
    drop(world);
    Ok(())
}
