//! A command's own events, and what it keeps beside the world: by cases on the command.
ghost use Rattle.std.specs.Prelude.{◌≡◌, [], ◌∷◌, None, Some, Ok, Err, Result, Option, map, option_and_then, IfOk};
ghost use Rattle.std.specs.Option.{option_copied, option_to_list};
ghost use Rattle.cg_schedule.specs.Fault.{Gives};
ghost use Rattle.cg_schedule.specs.declared.fault.LineFault.{LineFault as LineFaultOf};
ghost use Rattle.cg_schedule.specs.declared.event.Event.{Event as EventOf};
ghost use Rattle.cg_follow.specs.Line.{follow_reading};
ghost use Rattle.cg_made_rows.specs.Line.{relaxed_reading};
ghost use Rattle.cg_session.specs.Line.{session_reading};
ghost use Rattle.cg_items.specs.declared.companion.Companion.TheVariants.{Followers, Relaxed as MadeActions, Sessions};
ghost use Rattle.cg_items.specs.Companion.{acts, as_further, event_of, follows, further_reading, further_refusal, in_place, placed_fault, session_event, takes_further};
ghost use Rattle.cg_items.specs.declared.companion.Further.{Further as FurtherOf};
ghost use Rattle.cg_items.specs.declared.companion.Further.TheVariants as further;
ghost use Rattle.cg_items.specs.declared.companion.FurtherLine.TheVariants as shown;
ghost use Rattle.cg_run.specs.Noting.{noted};

use crate::following::{follow_acts, follow_refusal};
use crate::relaxing::{relaxed_line, relaxed_refusal, with_step};
use crate::sessions::{request_of, sessions_act, sessions_follow, sessions_refusal};
use cg_base::{NoMemory, Row};
use cg_follow::read_follow;
use cg_follower_list::{FollowLine, FollowerList};
use cg_group::Reason;
use cg_made_rows::{MadeRows, read_relaxed};
use cg_outcome::{Companion, Further, FurtherLine};
use cg_report::Entry;
use cg_schedule::{Event, LineFault, ReaderState, SyntaxReason};
use cg_session::{SessionEvent, read_session};
use cg_session_list::{SessionLine, SessionList};
use cg_world::World;
use std::alloc::Global;

/// A line as one of the command's own events, or as none of them, where the schedule's reader stands so.
pub fn read_in_place(
    alloc: Global,
    companion: &Companion,
    state: ReaderState,
    text: &[u8],
) -> Result<Option<Further>, LineFault>
    ensures { Gives (in_place state (further_reading companion.now text.now)) result }
{
    match read_further(alloc, companion, text) {
        Ok(None) => Ok(None),
        Ok(Some(event)) => place(state, event),
        Err(fault) => Err(placed_fault(state, fault)),
    }
}

fn read_further(
    alloc: Global,
    companion: &Companion,
    text: &[u8],
) -> Result<Option<Further>, LineFault>
    ensures { Gives (further_reading companion.now text.now) result }
{
    match companion {
        Companion::Followers(_) => follow_of(alloc, text),
        Companion::Relaxed(_) => relaxed_of(alloc, text),
        Companion::Sessions(_) => session_of(alloc, text),
        _ => Ok(None),
    }
}

fn follow_of(alloc: Global, text: &[u8]) -> Result<Option<Further>, LineFault>
    ensures { Gives (as_further further.Follow (follow_reading text.now)) result }
{
    match read_follow(alloc, text)? {
        Some(event) => Ok(Some(Further::Follow(event))),
        None => Ok(None),
    }
}

fn relaxed_of(alloc: Global, text: &[u8]) -> Result<Option<Further>, LineFault>
    ensures { Gives (as_further further.Relaxed (relaxed_reading text.now)) result }
{
    match read_relaxed(alloc, text)? {
        Some(event) => Ok(Some(Further::Relaxed(event))),
        None => Ok(None),
    }
}

fn session_of(alloc: Global, text: &[u8]) -> Result<Option<Further>, LineFault>
    ensures { Gives (as_further further.Session (session_reading text.now)) result }
{
    match read_session(alloc, text)? {
        Some(event) => Ok(Some(Further::Session(event))),
        None => Ok(None),
    }
}

// an event of a command's own stands behind the start and before the end
fn takes_further(state: ReaderState) -> bool
    ensures { result ≡ takes_further state }
{
    state.started && !state.ended
}

fn place(state: ReaderState, event: Further) -> Result<Option<Further>, LineFault>
    ensures { result ≡ in_place state (Ok (Some event)) }
{
    if takes_further(state) {
        Ok(Some(event))
    } else {
        drop(event);
        Err(LineFault::Syntax(SyntaxReason::Misplaced))
    }
}

// whether a line stands there is tested before its parts, and behind the test whether it is a text
fn placed_fault(state: ReaderState, fault: LineFault) -> LineFault
    ensures { (read : Result (Option FurtherOf) LineFaultOf) → Gives read (Err fault) →
        Gives (in_place state read) (Err result) }
{
    match fault {
        LineFault::NoMemory => LineFault::NoMemory,
        LineFault::Syntax(reason) => placed_reason(state, reason),
    }
}

fn placed_reason(state: ReaderState, reason: SyntaxReason) -> LineFault
    ensures { result ≡ placed_fault state reason }
{
    match reason {
        SyntaxReason::NotUtf8 => LineFault::Syntax(SyntaxReason::NotUtf8),
        _ => {
            if takes_further(state) {
                LineFault::Syntax(reason)
            } else {
                LineFault::Syntax(SyntaxReason::Misplaced)
            }
        }
    }
}

/// The reason by which one isn't admitted, if there is one. It takes no memory.
pub fn further_refusal(world: &World, companion: &Companion, event: &Further) -> Option<Reason>
    ensures { result ≡ further_refusal world.now.world companion.now event.now }
{
    match companion {
        Companion::Followers(followers) => match event {
            Further::Follow(event) => follow_refusal(world, followers, event),
            _ => None,
        },
        Companion::Relaxed(_) => match event {
            Further::Relaxed(event) => relaxed_refusal(world, event),
            _ => None,
        },
        Companion::Sessions(sessions) => match event {
            Further::Session(event) => sessions_refusal(world, sessions, event),
            _ => None,
        },
        _ => None,
    }
}

/// The event of the schedule for which one stands, where it stands for one.
pub fn event_of(alloc: Global, event: &Further) -> Result<Option<Event>, NoMemory>
    ensures { IfOk result (λ asked. asked ≡ event_of event.now) }
{
    match event {
        Further::Session(event) => request_of(alloc, event),
        _ => Ok(None),
    }
}

/// What an admitted one does that stands for none of the schedule: its lines. After want of memory what was kept is of no
/// more use.
pub fn act(
    alloc: Global,
    world: &World,
    companion: &mut Companion,
    event: &Further,
) -> Result<Row<FurtherLine>, NoMemory>
    requires { further_refusal world.now.world companion.old event.now ≡ None }
    ensures { IfOk result (λ lines. noted companion.new lines ≡ acts world.now.world companion.old event.now) }
{
    match companion {
        Companion::Followers(followers) => act_on_followers(alloc, world, followers, event),
        Companion::Relaxed(rows) => show_relaxed(alloc, world, rows, event),
        Companion::Sessions(sessions) => act_on_sessions(alloc, world, sessions, event),
        _ => Ok(Row::new(alloc)),
    }
}

fn act_on_followers(
    alloc: Global,
    world: &World,
    followers: &mut FollowerList,
    event: &Further,
) -> Result<Row<FurtherLine>, NoMemory>
    requires { further_refusal world.now.world (Followers followers.old) event.now ≡ None }
    ensures { IfOk result (λ lines. noted (Followers followers.new) lines ≡
        acts world.now.world (Followers followers.old) event.now) }
{
    match event {
        Further::Follow(event) => {
            let line = follow_acts(alloc, world, followers, event)?;
            follow_lines(alloc, line)
        }
        _ => Ok(Row::new(alloc)),
    }
}

fn follow_lines(alloc: Global, line: Option<FollowLine>) -> Result<Row<FurtherLine>, NoMemory>
    ensures { IfOk result (λ row. row ≡ map shown.Follow (option_to_list line)) }
{
    match line {
        Some(line) => only(alloc, FurtherLine::Follow(line)),
        None => Ok(Row::new(alloc)),
    }
}

fn only(alloc: Global, line: FurtherLine) -> Result<Row<FurtherLine>, NoMemory>
    ensures { IfOk result (λ row. row ≡ line ∷ []) }
{
    let mut row = Row::new(alloc);
    row.push(line)?;
    Ok(row)
}

fn show_relaxed(
    alloc: Global,
    world: &World,
    rows: &mut MadeRows,
    event: &Further,
) -> Result<Row<FurtherLine>, NoMemory>
    ensures { IfOk result (λ lines. noted (MadeActions rows.new) lines ≡
        acts world.now.world (MadeActions rows.old) event.now) }
{
    match event {
        Further::Relaxed(event) => {
            let line = relaxed_line(world, rows, event)?;
            only(alloc, FurtherLine::Relaxed(line))
        }
        _ => Ok(Row::new(alloc)),
    }
}

fn act_on_sessions(
    alloc: Global,
    world: &World,
    sessions: &mut SessionList,
    event: &Further,
) -> Result<Row<FurtherLine>, NoMemory>
    requires { further_refusal world.now.world (Sessions sessions.old) event.now ≡ None }
    ensures { IfOk result (λ lines. noted (Sessions sessions.new) lines ≡
        acts world.now.world (Sessions sessions.old) event.now) }
{
    match event {
        Further::Session(event) => {
            let lines = sessions_act(alloc, world, sessions, event)?;
            session_lines(alloc, lines)
        }
        _ => Ok(Row::new(alloc)),
    }
}

/// What follows a step of the world, which a further event may have asked for: its lines. After want of memory what was
/// kept is of no more use.
pub fn follow(
    alloc: Global,
    companion: &mut Companion,
    asked: Option<&Further>,
    world: &World,
    entry: &Entry,
) -> Result<Row<FurtherLine>, NoMemory>
    ensures { (event : EventOf) → IfOk result (λ lines. noted companion.new lines ≡
        follows companion.old (option_copied asked.entry)
        (record { event = event; entry = entry.now; world = world.now.world })) }
{
    match companion {
        Companion::Relaxed(rows) => {
            with_step(alloc, rows, world, entry)?;
            Ok(Row::new(alloc))
        }
        Companion::Sessions(sessions) => {
            let lines = sessions_follow(alloc, sessions, session_event(asked), world, entry)?;
            session_lines(alloc, lines)
        }
        _ => Ok(Row::new(alloc)),
    }
}

fn session_event(asked: Option<&Further>) -> Option<&SessionEvent>
    ensures { option_copied result ≡ option_and_then session_event (option_copied asked.entry) }
{
    match asked {
        Some(Further::Session(event)) => Some(event),
        _ => None,
    }
}

fn session_lines(alloc: Global, lines: Row<SessionLine>) -> Result<Row<FurtherLine>, NoMemory>
    ensures { IfOk result (λ row. row ≡ map shown.Session lines) }
{
    let mut row = Row::new(alloc);
    for line in lines.into_vec() {
        row.push(FurtherLine::Session(line))?;
    }
    Ok(row)
}
