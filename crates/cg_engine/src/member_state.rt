//! A replica in whichever state it is: the next state is made of what a step hands on.
ghost use Rattle.std.specs.Prelude.{◌≡◌, IfOk};
ghost use Rattle.cg_action.specs.Limits.{IsKind};
ghost use Rattle.cg_client.specs.declared.parts.DraftParts.{DraftParts};
ghost use Rattle.cg_client.specs.Queries.{state_name};
ghost use Rattle.cg_client.specs.Replica.{State};
ghost use Rattle.cg_client.specs.Requests.{is_creating, request, settle};
ghost use Rattle.cg_client.specs.Calls.{kind_of, IsLineGreen};
ghost use Rattle.cg_client.specs.Summary.{enter_exchange};
ghost use Rattle.cg_client.specs.Drafts.{turn_with};
ghost use Rattle.cg_prim.specs.Steps.{turn_after as behind_prim};
ghost use Rattle.cg_exchange.specs.Steps.{turn_after as behind_exchange, HasRecord};
ghost use Rattle.cg_construct.specs.Steps.{turn_after as behind_construct, HasLimits};
ghost use Rattle.cg_states.specs.Hearing.{hear_delivery};
ghost use Rattle.cg_engine.specs.Seen.{seen, turn_of, white_in};

use crate::attempt::InAttempt;
use crate::out_of_prim::OutOfPrim;
use crate::prim::InPrim;
use crate::{attempt, out_of_prim, prim};
use cg_base::{IdSet, NoMemory};
use cg_client::{Core, Draft, Request};
use cg_construct::{Construct, ConstructStep};
use cg_encoded::DeliveredMsg;
use cg_exchange::{ExchangeStates, ExchangeStep};
use cg_group::Delivery;
use cg_prim::{PrimStep, RegPrim, TransPrim};
use cg_report::StateName;

#[derive(Drop)]
pub(crate) enum MemberState {
    Prim(InPrim),
    Outside(OutOfPrim),
    Attempt(InAttempt),
    /// It has left: what it held then.
    Left(Core),
}

fn enter(core: Core, draft: &mut Draft, conf: u64, set: IdSet) -> Result<MemberState, NoMemory>
    ensures { IfOk result (λ m. (state : State) →
        turn_of (seen m) draft.new ≡ enter_exchange (turn_with core state draft.old) conf set) }
{
    let next = ExchangeStates::enter(core, draft, conf, set)?;
    Ok(MemberState::Outside(OutOfPrim::States(next)))
}

fn after_prim(step: PrimStep, draft: &mut Draft) -> Result<MemberState, NoMemory>
    ensures { IfOk result (λ m. turn_of (seen m) draft.new ≡ behind_prim step draft.old) }
{
    match step {
        PrimStep::Reg(s) => Ok(MemberState::Prim(InPrim::Reg(s))),
        PrimStep::Trans(s) => Ok(MemberState::Prim(InPrim::Trans(s))),
        PrimStep::Exchange { core, conf, set } => enter(core, draft, conf, set),
    }
}

fn after_exchange(step: ExchangeStep) -> MemberState
    requires { HasRecord step }
    ensures { (draft : DraftParts) → turn_of (seen result) draft ≡ behind_exchange step draft }
{
    match step {
        ExchangeStep::Non(s) => MemberState::Outside(OutOfPrim::Non(s)),
        ExchangeStep::States(s) => MemberState::Outside(OutOfPrim::States(s)),
        ExchangeStep::Actions(s) => MemberState::Outside(OutOfPrim::Actions(s)),
        ExchangeStep::Attempt { core, conf } => {
            MemberState::Attempt(InAttempt::Construct(Construct::enter(core, conf)))
        }
        ExchangeStep::Gone(core) => MemberState::Left(core),
    }
}

fn after_construct(step: ConstructStep, draft: &mut Draft) -> Result<MemberState, NoMemory>
    requires { HasLimits step }
    ensures { IfOk result (λ m. turn_of (seen m) draft.new ≡ behind_construct step draft.old) }
{
    match step {
        ConstructStep::Construct(s) => Ok(MemberState::Attempt(InAttempt::Construct(s))),
        ConstructStep::No(s) => Ok(MemberState::Attempt(InAttempt::No(s))),
        ConstructStep::Un(s) => Ok(MemberState::Attempt(InAttempt::Un(s))),
        ConstructStep::Installed(i) => Ok(MemberState::Prim(InPrim::Reg(RegPrim::enter(i)))),
        ConstructStep::InstalledBy { installed, action } => {
            let next = TransPrim::after(installed, draft, action)?;
            Ok(MemberState::Prim(InPrim::Trans(next)))
        }
        ConstructStep::Exchange { core, conf, set } => enter(core, draft, conf, set),
    }
}

/// One delivery. A replica that has left ignores it.
pub(crate) fn hear(
    member: MemberState,
    draft: &mut Draft,
    d: &Delivery<DeliveredMsg>,
) -> Result<MemberState, NoMemory>
    ensures { IfOk result (λ m. turn_of (seen m) draft.new ≡ hear_delivery (turn_of (seen member) draft.old) d.now) }
{
    match member {
        MemberState::Prim(s) => {
            let step = prim::hear(s, draft, d)?;
            after_prim(step, draft)
        }
        MemberState::Outside(s) => {
            let step = out_of_prim::hear(s, draft, d)?;
            Ok(after_exchange(step))
        }
        MemberState::Attempt(s) => {
            let step = attempt::hear(s, draft, d)?;
            after_construct(step, draft)
        }
        MemberState::Left(core) => Ok(MemberState::Left(core)),
    }
}

/// A request. A replica that has left ignores it.
pub(crate) fn request(
    member: MemberState,
    draft: &mut Draft,
    r: Request,
) -> Result<MemberState, NoMemory>
    requires { IsKind (kind_of r) }
    ensures { IfOk result (λ m. turn_of (seen m) draft.new ≡ request (turn_of (seen member) draft.old) (kind_of r)) }
{
    match member {
        MemberState::Prim(s) => {
            let next = prim::request(s, draft, r)?;
            Ok(MemberState::Prim(next))
        }
        MemberState::Outside(s) => {
            let next = out_of_prim::request(s, draft, r)?;
            Ok(MemberState::Outside(next))
        }
        MemberState::Attempt(s) => {
            let next = attempt::request(s, r)?;
            Ok(MemberState::Attempt(next))
        }
        MemberState::Left(core) => Ok(MemberState::Left(core)),
    }
}

/// The event ends: the requests that are kept are created, in a state that creates.
pub(crate) fn settle(member: MemberState, draft: &mut Draft) -> Result<MemberState, NoMemory>
    ensures { IfOk result (λ m. turn_of (seen m) draft.new ≡ settle (turn_of (seen member) draft.old)) }
{
    match member {
        MemberState::Prim(s) => {
            let next = prim::settle(s, draft)?;
            Ok(MemberState::Prim(next))
        }
        MemberState::Outside(s) => {
            let next = out_of_prim::settle(s, draft)?;
            Ok(MemberState::Outside(next))
        }
        MemberState::Attempt(s) => Ok(MemberState::Attempt(s)),
        MemberState::Left(core) => Ok(MemberState::Left(core)),
    }
}

/// The white count rises to the white line. It takes no memory.
pub(crate) fn whiten(member: &mut MemberState)
    requires { IsLineGreen (seen member.old).held }
    ensures { seen member.new ≡ white_in (seen member.old) }
{
    match member {
        MemberState::Prim(s) => prim::whiten(s),
        MemberState::Outside(s) => out_of_prim::whiten(s),
        MemberState::Attempt(s) => attempt::whiten(s),
        MemberState::Left(core) => core.whiten(),
    }
}

pub(crate) fn name_of(member: &MemberState) -> StateName
    ensures { result ≡ state_name (seen member.now).state }
{
    match member {
        MemberState::Prim(s) => prim::name_of(s),
        MemberState::Outside(s) => out_of_prim::name_of(s),
        MemberState::Attempt(s) => attempt::name_of(s),
        MemberState::Left(_) => StateName::Left,
    }
}

/// It creates a request at once, and keeps none.
pub(crate) fn is_creating(member: &MemberState) -> bool
    ensures { result ≡ is_creating (seen member.now).state }
{
    match member {
        MemberState::Prim(s) => prim::is_creating(s),
        MemberState::Outside(s) => out_of_prim::is_creating(s),
        MemberState::Attempt(s) => attempt::is_creating(s),
        MemberState::Left(_) => false,
    }
}

/// What it holds.
pub(crate) fn core_of(member: &MemberState) -> &Core
    ensures { result.now ≡ (seen member.now).held }
{
    match member {
        MemberState::Prim(s) => prim::core_of(s),
        MemberState::Outside(s) => out_of_prim::core_of(s),
        MemberState::Attempt(s) => attempt::core_of(s),
        MemberState::Left(core) => core,
    }
}
