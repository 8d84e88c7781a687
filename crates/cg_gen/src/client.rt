//! What clients ask for.

ghost use Rattle.std.specs.Prelude.{◌≡◌, ◌<◌, IfOk};
ghost use Rattle.cg_gen.specs.Generated.{asking, increment, set_and_get, weak_get, passes, name};

use crate::draws::Draws;
use cg_action::{Cmd, CmdList, Query, Value};
use cg_base::{NoMemory, ReplicaId};
use cg_schedule::Event;
use cg_text::Txt;
use std::alloc::Global;

/// The line of a block that doesn't touch the cells, of the kind that was drawn.
#[tactic(auto, unfolding(crate::specs::Generated::asking))]
pub(crate) fn ask(
    alloc: Global,
    draws: &mut Draws,
    replicas: ReplicaId,
    kind: u64,
) -> Result<Event, NoMemory>
    ensures { IfOk result (λ event. asking replicas kind draws.old ≡ (event, draws.new)) }
{
    if kind < 4 {
        increment(alloc, draws, replicas)
    } else if kind == 4 {
        set_and_get(alloc, draws, replicas)
    } else if kind == 5 {
        weak_get(alloc, draws, replicas)
    } else {
        Ok(passes(draws))
    }
}

#[tactic(auto, unfolding(crate::specs::Generated::increment))]
fn increment(alloc: Global, draws: &mut Draws, replicas: ReplicaId) -> Result<Event, NoMemory>
    ensures { IfOk result (λ event. increment replicas draws.old ≡ (event, draws.new)) }
{
    let p = draws.replica(replicas);
    let key = draws.draw(8);
    let n = draws.draw_from_one(9);
    let key = name(alloc, b'k', key)?;
    let cmds = CmdList::one(alloc, Cmd::Inc { key, by: n as i64 });
    Ok(Event::Request {
        p,
        cmds,
        query: None,
    })
}

#[tactic(auto, unfolding(crate::specs::Generated::set_and_get))]
fn set_and_get(alloc: Global, draws: &mut Draws, replicas: ReplicaId) -> Result<Event, NoMemory>
    ensures { IfOk result (λ event. set_and_get replicas draws.old ≡ (event, draws.new)) }
{
    let p = draws.replica(replicas);
    let key = draws.draw(8);
    let n = draws.draw_from_one(9);
    let counter = name(alloc, b'k', key)?;
    let key = name(alloc, b't', key)?;
    let value = Value::Int(n as i64);
    let cmds = CmdList::one(alloc, Cmd::Put { key, value });
    Ok(Event::Request {
        p,
        cmds,
        query: Some(Query::Get(counter)),
    })
}

#[tactic(auto, unfolding(crate::specs::Generated::weak_get))]
fn weak_get(alloc: Global, draws: &mut Draws, replicas: ReplicaId) -> Result<Event, NoMemory>
    ensures { IfOk result (λ event. weak_get replicas draws.old ≡ (event, draws.new)) }
{
    let asked = draws.replica(replicas);
    let digit = draws.draw(8);
    let query = Query::Get(name(alloc, b'k', digit)?);
    Ok(Event::Weak { p: asked, query })
}

#[tactic(auto, unfolding(crate::specs::Generated::passes))]
fn passes(draws: &mut Draws) -> Event
    ensures { passes draws.old ≡ (result, draws.new) }
{
    Event::Rounds(draws.draw_from_one(6))
}

// a letter and a digit
fn name(alloc: Global, letter: u8, n: u64) -> Result<Txt, NoMemory>
    requires { (letter < 128) × (n < 8) }
    ensures { IfOk result (λ text. text ≡ name letter n) }
{
    let mut text = String::with_capacity(alloc, 2)?;
    text.push(char::from(letter))?;
    text.push(char::from(b'0' + n as u8))?;
    Ok(Txt::from_string(text))
}
