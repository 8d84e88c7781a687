//! An event on the way.
ghost use Rattle.std.specs.Prelude.{◌≡◌, ◌++◌, Some, fold, IfOk, OnOk, IfSome};
ghost use Rattle.cg_base.specs.declared.action_id.ActionId.{ActionId as ActionName};
ghost use Rattle.cg_action.specs.declared.action.Action.{Action as ActionView};
ghost use Rattle.cg_action.specs.Limits.{IsKind};
ghost use Rattle.cg_client.specs.Calls.{kind_of};
ghost use Rattle.cg_model.specs.Recorded.{AreBooked};
ghost use Rattle.cg_states.specs.ReplicaStep.{Deliveries, Asks};
ghost use Rattle.cg_model.specs.World.{replica_of};
ghost use Rattle.cg_model.specs.Step.{quietly, taken, comes_back, hand, hand_over};
ghost use Rattle.cg_model.specs.Standing.{IsHandedBooked, AreBookedInTurn};
ghost use Rattle.cg_model.specs.Touched.{ShowsNewsOf, new_lines_of};
ghost use Rattle.cg_world_events.specs.Nodes.{turned, IsBookedFor};
ghost use Rattle.cg_world_events.specs.Showing.{step_in};
ghost use Rattle.cg_model.specs.Show.{ended, ended_with, tell};

use crate::nodes::BoxedNode;
use crate::{EntryBuilder, EventEffects, NodeOutput, WorldState};
use cg_base::{IdSet, NoMemory, ReplicaId, Row};
use cg_client::Request;
use cg_encoded::EncodedMsg;
use cg_group::{Delivery, Handed};
use cg_report::{Entry, Shown};
use std::alloc::Global;
use std::marker::Model;

/// The world so far, and what is to be shown but for the lines. The world is one box, since it goes from call to call as a
/// value.
pub struct StepInProgress {
    pub(crate) state: Box<WorldState>,
    pub(crate) showing: EntryBuilder,
}

impl Drop for StepInProgress {
    fn drop(self) {
        let StepInProgress {
            state: _,
            showing: _,
        } = self;
    }
}

impl Model for StepInProgress {
    ghost use Rattle.cg_model.specs.Show.{StepInProgress};

    ghost Value = { StepInProgress };

    ghost view = { λ g. record {
      world = g.state.value;
      made = g.showing.made;
      orders = g.showing.orders;
      replies = g.showing.replies;
      shown = g.showing.shown;
    } };
}

impl StepInProgress {
    /// Nothing has come of an event but this world.
    pub fn quietly(alloc: Global, state: Box<WorldState>) -> StepInProgress
        ensures { result ≡ quietly state.value }
    {
        StepInProgress {
            state,
            showing: EntryBuilder::new(alloc),
        }
    }

    /// The world so far. It takes no memory.
    pub fn into_state(self) -> Box<WorldState>
        ensures { result.value ≡ self.world }
    {
        let StepInProgress { state, showing } = self;
        drop(showing);
        state
    }

    /// It is shown too, as an event asks for it.
    pub(crate) fn show(&mut self, list: Row<Shown>) -> Result<(), NoMemory>
        ensures { OnOk result (self.new ≡ record self.old { shown = self.old.shown ++ list }) }
    {
        show_all(&mut self.showing, list)
    }

    /// What came of an event at a replica is shown too.
    pub(crate) fn tell(&mut self, news: EventEffects) -> Result<(), NoMemory>
        ensures { OnOk result (self.new ≡ tell self.old news) }
    {
        self.showing.tell(&mut self.state, news)
    }

    /// A replica takes what the group hands to it, where it is up.
    pub(crate) fn deliver(&mut self, h: Handed<EncodedMsg>) -> Result<(), NoMemory>
        requires { (book : ActionName → ActionView) × IsHandedBooked book self.old.world h }
        ensures { OnOk result (self.new ≡ hand_over self.old h) }
    {
        let Handed { to, list } = h;
        match self.state.take_up(to) {
            Some(node) => self.hand_list(node, list),
            None => {
                drop(list);
                Ok(())
            }
        }
    }

    /// Each replica takes what the group hands to it, ascending.
    pub(crate) fn hand_out(&mut self, handed: Row<Handed<EncodedMsg>>) -> Result<(), NoMemory>
        requires { (book : ActionName → ActionView) × AreBookedInTurn book self.old handed }
        ensures { OnOk result (self.new ≡ fold hand_over self.old handed) }
    {
        for h in handed.into_vec() {
            self.deliver(h)?;
        }
        Ok(())
    }

    /// A request comes to a replica, where it is up.
    pub(crate) fn ask(&mut self, p: ReplicaId, request: Request) -> Result<(), NoMemory>
        requires limits { IsKind (kind_of request) }
        requires booked { (book : ActionName → ActionView)
            × IfSome (replica_of self.old.world p) (λ r. AreBooked book r.held (Asks (kind_of request))) }
        ensures { OnOk result (self.new ≡ hand self.old p (Asks (kind_of request))) }
    {
        match self.state.take_up(p) {
            Some(node) => self.hand_request(node, request),
            None => {
                drop(request);
                Ok(())
            }
        }
    }

    // Deliveries come to a replica whose node was taken out.
    fn hand_list(
        &mut self,
        node: BoxedNode,
        list: Row<Delivery<EncodedMsg>>,
    ) -> Result<(), NoMemory>
        requires { IsBookedFor node.life (Deliveries list) }
        ensures { OnOk result (
            let x = turned node (taken (Deliveries list) node.life) in
            self.new ≡ comes_back self.old x.0.id (x.0.life, x.1)) }
    {
        let (node, spoken) = node.deliver(self.state.alloc(), list)?;
        self.come_back(node, spoken)
    }

    // A request comes to a replica whose node was taken out.
    fn hand_request(&mut self, node: BoxedNode, request: Request) -> Result<(), NoMemory>
        requires limits { IsKind (kind_of request) }
        requires booked { IsBookedFor node.life (Asks (kind_of request)) }
        ensures { OnOk result (
            let x = turned node (taken (Asks (kind_of request)) node.life) in
            self.new ≡ comes_back self.old x.0.id (x.0.life, x.1)) }
    {
        let (node, spoken) = node.ask(self.state.alloc(), request)?;
        self.come_back(node, spoken)
    }

    // Its node stands again, and what it has to say is said and shown; or it went down.
    fn come_back(&mut self, node: BoxedNode, spoken: Option<NodeOutput>) -> Result<(), NoMemory>
        ensures { OnOk result (self.new ≡ comes_back self.old node.id (node.life, spoken)) }
    {
        match spoken {
            Some(spoken) => self.publish_output(node, spoken),
            None => self.state.take_down(node),
        }
    }

    fn publish_output(&mut self, node: BoxedNode, spoken: NodeOutput) -> Result<(), NoMemory>
        ensures { OnOk result (self.new ≡ comes_back self.old node.id (node.life, Some spoken)) }
    {
        let p = node.id();
        let (news, sent) = spoken.into_parts();
        self.state.put(node)?;
        self.state.say(p, sent)?;
        self.tell(news)
    }

    /// The event ends: what it shows, with the lines that differ from the last printed ones, and the world behind it.
    /// They are looked for at these replicas alone, since nothing is new of others.
    #[tactic(auto, unfolding(cg_model::specs::Show::ended))]
    pub fn end_step(self, touched: &IdSet) -> Result<(Entry, Box<WorldState>), NoMemory>
        requires { ShowsNewsOf touched.now self.world }
        ensures { IfOk result (λ x. record { entry = x.0; world = x.1.value } ≡ ended self) }
    {
        let StepInProgress { mut state, showing } = self;
        match end(&mut state, showing, touched) {
            Ok(entry) => Ok((entry, state)),
            Err(NoMemory) => {
                drop(state);
                Err(NoMemory)
            }
        }
    }
}

// It is shown too.
fn show_all(showing: &mut EntryBuilder, list: Row<Shown>) -> Result<(), NoMemory>
    ensures { OnOk result (showing.new ≡ record showing.old { shown = showing.old.shown ++ list }) }
{
    for one in list.into_vec() {
        showing.show(one)?;
    }
    Ok(())
}

// The lines that are news are printed.
fn end(state: &mut WorldState, showing: EntryBuilder, touched: &IdSet) -> Result<Entry, NoMemory>
    ensures { IfOk result (λ e. record { entry = e; world = state.new } ≡
        ended_with (step_in state.old showing) (new_lines_of touched.now state.old)) }
{
    let lines = state.new_lines_of(touched)?;
    state.lines.print_all(lines.as_slice())?;
    showing.into_entry(lines)
}
