//! A replica comes up for the first time, and takes an event.
ghost use Rattle.std.specs.Prelude.{◌≡◌, ◌+◌, ◌≤◌, IfOk, Some, None};
ghost use Rattle.cg_base.specs.declared.limits.TheConstants.{COUNT_LIMIT};
ghost use Rattle.cg_action.specs.Limits.{IsKind};
ghost use Rattle.cg_action.specs.declared.action.Action.{Action};
ghost use Rattle.cg_base.specs.declared.action_id.ActionId.{ActionId};
ghost use Rattle.cg_client.specs.Calls.{kind_of};
ghost use Rattle.cg_engine.specs.Inputs.{input_of, HasLimits};
ghost use Rattle.cg_model.specs.Recorded.{AreBooked};
ghost use Rattle.cg_states.specs.ReplicaStep.{Deliveries, Asks};
ghost use Rattle.cg_client.specs.Replica.{fresh};
ghost use Rattle.cg_model.specs.Step.{taken};
ghost use Rattle.cg_world_events.specs.Nodes.{new_node, turned, IsBookedFor};
ghost use Rattle.cg_store.specs.Formats.{Standing};
ghost use Rattle.cg_world_events.specs.Seen.{up_seen, down_seen, FallsTo, fallen, said};
ghost use Rattle.cg_world_events.specs.declared.limits.TheConstants.{EVENT_CALLS, RECOVERY_CALLS};

use crate::crashed_disk::CrashedDisk;
use crate::limits::CALLS_BEFORE_EVENT;
use crate::node_state::NodeState;
use crate::nodes::BoxedNode;
use crate::{EventEffects, Node, NodeOutput};
use cg_base::{Bytes, NoMemory, ReplicaId, Row, WeightSet};
use cg_client::Request;
use cg_disk::{Disk, ModelDisk};
use cg_disk_records::what_is_held_agrees;
use cg_encoded::{EncodedMsg, open_all};
use cg_engine::{Engine, Handled, Input, Outputs, Started, Wreck, events_end_as_defined};
use cg_group::Delivery;
use cg_model::each_event_keeps_what_holds;
use cg_store::strikes_end_as_defined;
use cg_wire::messages_are_exact;
use std::alloc::Global;

impl Node {
    /// A new replica, alone, among these servers, on an empty disk.
    pub fn begin(alloc: Global, id: ReplicaId, servers: &WeightSet) -> Result<Node, NoMemory>
        ensures { IfOk result (λ s. s ≡ new_node id (fresh id servers.now)) }
    {
        strikes_end_as_defined();
        match Engine::start(alloc, ModelDisk::new(alloc), id, servers) {
            Started::Running { engine } => Ok(Node::up(engine, Row::new(alloc))),
            Started::Down(_) => unreachable!(),
            Started::NoMemory(wreck) => {
                drop(wreck);
                Err(NoMemory)
            }
        }
    }
}

impl BoxedNode {
    /// Deliveries come to it, in their order, and then it creates the requests that it kept. `NoMemory` too where its
    /// disk has made so many calls that those of an event and of a recovery might go past 2^62.
    pub(crate) fn deliver(
        self,
        alloc: Global,
        list: Row<Delivery<EncodedMsg>>,
    ) -> Result<(BoxedNode, Option<NodeOutput>), NoMemory>
        requires { IsBookedFor self.life (Deliveries list) }
        ensures { IfOk result (λ x. x ≡ turned self (taken (Deliveries list) self.life)) }
    {
        match self.into_inner().into_life() {
            NodeState::Up { engine, fill } => deliver_to(alloc, engine, fill, list),
            NodeState::Down(resting) => {
                drop(list);
                stay_down(alloc, resting)
            }
        }
    }

    /// A request comes to it. `NoMemory` as of `deliver`.
    pub(crate) fn ask(
        self,
        alloc: Global,
        request: Request,
    ) -> Result<(BoxedNode, Option<NodeOutput>), NoMemory>
        requires limits { IsKind (kind_of request) }
        requires booked { IsBookedFor self.life (Asks (kind_of request)) }
        ensures { IfOk result (λ x. x ≡ turned self (taken (Asks (kind_of request)) self.life)) }
    {
        match self.into_inner().into_life() {
            NodeState::Up { engine, fill } => handle_within_limit(
                alloc,
                engine,
                fill,
                Input::Request(request),
            ),
            NodeState::Down(resting) => {
                drop(request);
                stay_down(alloc, resting)
            }
        }
    }
}

// A replica that is down takes nothing.
fn stay_down(
    alloc: Global,
    resting: CrashedDisk,
) -> Result<(BoxedNode, Option<NodeOutput>), NoMemory>
    ensures { IfOk result (λ x. x ≡ (down_seen (⟦<ModelDisk as Disk>⟧.view) resting, None)) }
{
    let node = BoxedNode::new(alloc, Node::down(resting))?;
    Ok((node, None))
}

// Deliveries come to an engine.
fn deliver_to(
    alloc: Global,
    engine: Engine<ModelDisk>,
    fill: Bytes,
    list: Row<Delivery<EncodedMsg>>,
) -> Result<(BoxedNode, Option<NodeOutput>), NoMemory>
    requires { (book : ActionId → Action) × AreBooked book engine.replica.held (Deliveries list) }
    ensures { IfOk result (λ x.
        let up = up_seen (⟦<ModelDisk as Disk>⟧.view) engine fill in x ≡ turned up (taken (Deliveries list) up.life)) }
{
    messages_are_exact();
    match open_all(alloc, list) {
        Ok(all) => handle_within_limit(alloc, engine, fill, Input::Deliver(all)),
        Err(_) => {
            drop(engine);
            drop(fill);
            Err(NoMemory)
        }
    }
}

// An event comes to an engine, where there is room for its device calls and those of a recovery.
fn handle_within_limit(
    alloc: Global,
    engine: Engine<ModelDisk>,
    fill: Bytes,
    input: Input,
) -> Result<(BoxedNode, Option<NodeOutput>), NoMemory>
    requires limits { HasLimits input }
    requires booked { (book : ActionId → Action) × AreBooked book engine.replica.held (input_of input) }
    ensures { IfOk result (λ x.
        let up = up_seen (⟦<ModelDisk as Disk>⟧.view) engine fill in x ≡ turned up (taken (input_of input) up.life)) }
{
    if engine.calls() > CALLS_BEFORE_EVENT {
        drop(engine);
        drop(fill);
        drop(input);
        return Err(NoMemory);
    }
    handle(alloc, engine, fill, input)
}

// An event comes to an engine.
fn handle(
    alloc: Global,
    engine: Engine<ModelDisk>,
    fill: Bytes,
    input: Input,
) -> Result<(BoxedNode, Option<NodeOutput>), NoMemory>
    requires calls { (⟦<ModelDisk as Disk>⟧.view engine.store.disk).time + EVENT_CALLS + RECOVERY_CALLS ≤ COUNT_LIMIT }
    requires limits { HasLimits input }
    requires booked { (book : ActionId → Action) × AreBooked book engine.replica.held (input_of input) }
    ensures { IfOk result (λ x.
        let up = up_seen (⟦<ModelDisk as Disk>⟧.view) engine fill in x ≡ turned up (taken (input_of input) up.life)) }
{
    events_end_as_defined();
    what_is_held_agrees();
    each_event_keeps_what_holds();
    engine.holds();
    match engine.handle(input) {
        Handled::Running { engine, outputs } => stay_up(alloc, engine, fill, outputs),
        Handled::Down(wreck) => end_in_crash(alloc, wreck, fill),
        Handled::NoMemory(wreck) => {
            drop(wreck);
            drop(fill);
            Err(NoMemory)
        }
    }
}

// The replica stays up behind an event, and says what came of it.
fn stay_up(
    alloc: Global,
    engine: Engine<ModelDisk>,
    fill: Bytes,
    outputs: Outputs,
) -> Result<(BoxedNode, Option<NodeOutput>), NoMemory>
    ensures { IfOk result (λ x. x ≡
        (up_seen (⟦<ModelDisk as Disk>⟧.view) engine fill, Some (said outputs engine.replica.held))) }
{
    let (made, sent, replies, green) = outputs.into_parts();
    let count = engine.core().green_count();
    let news = EventEffects::new(made, green, count, replies);
    let node = BoxedNode::new(alloc, Node::up(engine, fill))?;
    Ok((node, Some(NodeOutput::new(news, sent))))
}

// The event ended in its crash.
fn end_in_crash(
    alloc: Global,
    wreck: Wreck<ModelDisk>,
    fill: Bytes,
) -> Result<(BoxedNode, Option<NodeOutput>), NoMemory>
    requires falls { (s : Standing) × FallsTo (⟦<ModelDisk as Disk>⟧.view) wreck fill s }
    requires room { (⟦<ModelDisk as Disk>⟧.view wreck.disk).time + RECOVERY_CALLS ≤ COUNT_LIMIT }
    ensures { IfOk result (λ x. (s : Standing) → FallsTo (⟦<ModelDisk as Disk>⟧.view) wreck fill s →
        x ≡ (fallen wreck s, None)) }
{
    let node = Node::from_wreck(wreck, fill.as_slice())?;
    let node = BoxedNode::new(alloc, node)?;
    Ok((node, None))
}
