//! The events of sessions in a world: which are admitted, and what comes of them.
ghost use Rattle.std.specs.Prelude.{◌≡◌, [], ◌∷◌, None, fold, map, IfOk, OnOk};
ghost use Rattle.std.specs.Option.{option_copied};
ghost use Rattle.cg_base.specs.Lists.{first_some};
ghost use Rattle.cg_schedule.specs.declared.event.Event.{Event as EventOf};
ghost use Rattle.cg_model.specs.Admission.{takes_part};
ghost use Rattle.cg_model.specs.Run.{Step};
ghost use Rattle.cg_session.specs.declared.event.SessionEvent.TheVariants.{Weak};
ghost use Rattle.cg_session_list.specs.Parts.{noted};
ghost use Rattle.cg_session_list.specs.Sessions.{own_by, unknown_session};
ghost use Rattle.cg_run.specs.Replying.{replied_in};
ghost use Rattle.cg_items.specs.Sessions.{not_creating, request_of, sessions_act, sessions_follow, sessions_refusal, with_written};

use cg_action::{Query, copy_commands, copy_query};
use cg_base::{ActionId, NoMemory, ReplicaId, Row};
use cg_group::Reason;
use cg_report::{Entry, Made, Reply};
use cg_schedule::Event;
use cg_session::SessionEvent;
use cg_session_list::{SessionLine, SessionList};
use cg_world::World;
use std::alloc::Global;

/// The reason by which an event isn't admitted, if there is one. It takes no memory.
pub fn sessions_refusal(
    world: &World,
    sessions: &SessionList,
    event: &SessionEvent,
) -> Option<Reason>
    ensures { result ≡ sessions_refusal world.now.world sessions.now event.now }
{
    match event {
        SessionEvent::Begin(s) => sessions.session_used(*s),
        SessionEvent::Write {
            s,
            p,
            cmds: _,
            query: _,
        } => write_refusal(world, sessions, *s, *p),
        SessionEvent::Weak { s, p, query: _ } => read_refusal(world, sessions, *s, *p),
    }
}

fn write_refusal(world: &World, sessions: &SessionList, s: u8, p: ReplicaId) -> Option<Reason>
    ensures { result ≡ first_some (unknown_session sessions.now s ∷ takes_part world.now.world p
        ∷ not_creating world.now.world p ∷ []) }
{
    match read_refusal(world, sessions, s, p) {
        Some(reason) => Some(reason),
        None => not_creating(world, p),
    }
}

fn read_refusal(world: &World, sessions: &SessionList, s: u8, p: ReplicaId) -> Option<Reason>
    ensures { result ≡ first_some (unknown_session sessions.now s ∷ takes_part world.now.world p ∷ []) }
{
    match sessions.unknown_session(s) {
        Some(reason) => Some(reason),
        None => world.takes_part(p),
    }
}

// the replica would keep a request, and not create it at once
fn not_creating(world: &World, p: ReplicaId) -> Option<Reason>
    ensures { result ≡ not_creating world.now.world p }
{
    if world.creates(p) {
        None
    } else {
        Some(Reason::NotCreating(p))
    }
}

/// The request for which an event stands, where it is a write.
pub fn request_of(alloc: Global, event: &SessionEvent) -> Result<Option<Event>, NoMemory>
    ensures { IfOk result (λ request. request ≡ request_of event.now) }
{
    match event {
        SessionEvent::Write {
            s: _,
            p,
            cmds,
            query,
        } => {
            let cmds = copy_commands(alloc, cmds.as_slice())?;
            let query = copy_query(alloc, query)?;
            Ok(Some(Event::Request { p: *p, cmds, query }))
        }
        _ => Ok(None),
    }
}

/// What an admitted event does beside the world: its lines. After want of memory the sessions are of no more use.
pub fn sessions_act(
    alloc: Global,
    world: &World,
    sessions: &mut SessionList,
    event: &SessionEvent,
) -> Result<Row<SessionLine>, NoMemory>
    requires { sessions_refusal world.now.world sessions.old event.now ≡ None }
    ensures { IfOk result (λ lines. noted sessions.new lines ≡ sessions_act world.now.world sessions.old event.now) }
{
    match event {
        SessionEvent::Begin(s) => {
            sessions.open(alloc, *s)?;
            Ok(Row::new(alloc))
        }
        SessionEvent::Weak { s, p, query } => read(alloc, world, sessions, *s, *p, query),
        _ => Ok(Row::new(alloc)),
    }
}

// the session reads the replica
fn read(
    alloc: Global,
    world: &World,
    sessions: &mut SessionList,
    s: u8,
    p: ReplicaId,
    query: &Query,
) -> Result<Row<SessionLine>, NoMemory>
    ensures { IfOk result (λ lines. noted sessions.new lines ≡ sessions_act world.now.world sessions.old (Weak s p query.now)) }
{
    let Some(core) = world.core(p) else {
        return Ok(Row::new(alloc));
    };
    let answer = core.weak(query)?;
    sessions.read(alloc, s, answer, core.green_count())
}

/// What follows a step of the world, which a session's event may have asked for: its lines. After want of memory the
/// sessions are of no more use.
pub fn sessions_follow(
    alloc: Global,
    sessions: &mut SessionList,
    asked: Option<&SessionEvent>,
    world: &World,
    entry: &Entry,
) -> Result<Row<SessionLine>, NoMemory>
    ensures { (event : EventOf) → IfOk result (λ lines. noted sessions.new lines ≡
        sessions_follow sessions.old (option_copied asked.entry)
        (record { event = event; entry = entry.now; world = world.now.world })) }
{
    let mut lines = Row::new(alloc);
    write_all(sessions, &mut lines, asked, entry)?;
    reply_all(sessions, &mut lines, world, entry.replies.as_slice())?;
    Ok(lines)
}

// a write owns what its step shows as made
fn write_all(
    sessions: &mut SessionList,
    lines: &mut Row<SessionLine>,
    asked: Option<&SessionEvent>,
    entry: &Entry,
) -> Result<(), NoMemory>
    ensures { (step : Step) → step.entry ≡ entry.now → OnOk result (noted sessions.new lines.new ≡
        with_written (option_copied asked.entry) step (noted sessions.old lines.old)) }
{
    match asked {
        Some(
            SessionEvent::Write {
                s,
                p: _,
                cmds: _,
                query: _,
            },
        ) => own_all(sessions, lines, *s, entry.made.as_slice()),
        _ => Ok(()),
    }
}

fn own_all(
    sessions: &mut SessionList,
    lines: &mut Row<SessionLine>,
    s: u8,
    made: &[Made],
) -> Result<(), NoMemory>
    ensures { OnOk result (noted sessions.new lines.new ≡
        fold (own_by s) (noted sessions.old lines.old) (map (λ m. m.id) made.now)) }
{
    for m in made {
        sessions.own(lines, s, m.id)?;
    }
    Ok(())
}

// each reply is told with its action's place
fn reply_all(
    sessions: &mut SessionList,
    lines: &mut Row<SessionLine>,
    world: &World,
    replies: &[Reply],
) -> Result<(), NoMemory>
    ensures { OnOk result (noted sessions.new lines.new ≡ fold (replied_in world.now.world)
        (noted sessions.old lines.old) (map (λ r. r.id) replies.now)) }
{
    for reply in replies {
        reply_to(sessions, lines, world, &reply.id)?;
    }
    Ok(())
}

fn reply_to(
    sessions: &mut SessionList,
    lines: &mut Row<SessionLine>,
    world: &World,
    id: &ActionId,
) -> Result<(), NoMemory>
    ensures { OnOk result (noted sessions.new lines.new ≡
        replied_in world.now.world (noted sessions.old lines.old) id.now) }
{
    let Some(place) = world.place_of(id) else {
        return Err(NoMemory);
    };
    sessions.reply(lines, *id, place)
}
