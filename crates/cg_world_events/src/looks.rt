//! What is seen of a replica with its disk.
ghost use Rattle.std.specs.Prelude.{◌≡◌, ◌∷◌, [], false, IfOk, IfSome, is_some, option_map};
ghost use Rattle.std.specs.Option.{option_copied, option_map_or};
ghost use Rattle.cg_base.specs.Sets.{has};
ghost use Rattle.cg_members.specs.Servers.{is_server};
ghost use Rattle.cg_client.specs.Requests.{is_creating};
ghost use Rattle.cg_client.specs.Queries.{weak_answer, dirty_answer};
ghost use Rattle.cg_report.specs.declared.entry.Shown.TheVariants.{Weak as ShownWeak, Dirty as ShownDirty};
ghost use Rattle.cg_disk_records.specs.Holds.{Holds};
ghost use Rattle.cg_model.specs.World.{running, is_left_state};
ghost use Rattle.cg_model.specs.Show.{up_line};
ghost use Rattle.cg_model.specs.Step.{shown_of};
ghost use Rattle.cg_world_events.specs.Nodes.{weighs};

use crate::Node;
use crate::node_state::NodeState;
use cg_action::Query;
use cg_base::{NoMemory, ReplicaId, Row};
use cg_client::Core;
use cg_disk::ModelDisk;
use cg_engine::Engine;
use cg_group::Phase;
use cg_report::{Line, Shown};
use std::alloc::Global;

impl Node {
    /// Whose it is. It takes no memory.
    pub fn id(&self) -> ReplicaId
        ensures { result ≡ self.now.id }
    {
        match &self.life {
            NodeState::Up { engine, .. } => engine.id(),
            NodeState::Down(resting) => resting.id(),
        }
    }

    /// It is up. It takes no memory.
    pub fn is_up(&self) -> bool
        ensures { result ≡ is_some (running self.now.life) }
    {
        match &self.life {
            NodeState::Up { .. } => true,
            NodeState::Down(_) => false,
        }
    }

    /// It is down, and a weight above 1 stands on its disk.
    pub fn has_weights(&self) -> Result<bool, NoMemory>
        ensures { IfOk result (λ b. b ≡ weighs self.now.life) }
    {
        match &self.life {
            NodeState::Up { .. } => Ok(false),
            NodeState::Down(resting) => resting.has_weights(),
        }
    }

    /// It is up, and has left for good. It takes no memory.
    pub fn is_left(&self) -> bool
        ensures { result ≡ option_map_or (λ r. is_left_state r.state) (running self.now.life) false }
    {
        match &self.life {
            NodeState::Up { engine, .. } => engine.left(),
            NodeState::Down(_) => false,
        }
    }

    /// It is up, and knows that the server has left. It takes no memory.
    pub fn knows_left(&self, q: ReplicaId) -> bool
        ensures { result ≡ option_map_or (λ r. has r.held.members.left q) (running self.now.life) false }
    {
        match &self.life {
            NodeState::Up { engine, .. } => engine.core().left().contains(q),
            NodeState::Down(_) => false,
        }
    }

    /// It is up, and knows the server. It takes no memory.
    pub fn knows_server(&self, q: ReplicaId) -> bool
        ensures { result ≡ option_map_or (λ r. is_server r.held.members q) (running self.now.life) false }
    {
        match &self.life {
            NodeState::Up { engine, .. } => engine.core().members().is_member(q),
            NodeState::Down(_) => false,
        }
    }

    /// It is up, and creates a request at once. It takes no memory.
    pub fn is_creating(&self) -> bool
        ensures { result ≡ option_map_or (λ r. is_creating r.state) (running self.now.life) false }
    {
        match &self.life {
            NodeState::Up { engine, .. } => engine.is_creating(),
            NodeState::Down(_) => false,
        }
    }

    /// What it holds, where it is up, and the facts that stand of whatever a replica holds. It takes no memory.
    pub fn core(&self) -> Option<&Core>
        ensures value { option_copied result ≡ option_map (λ r. r.held) (running self.now.life) }
        ensures holds { IfSome (option_copied result) Holds }
    {
        match &self.life {
            NodeState::Up { engine, .. } => Some(core_of(engine)),
            NodeState::Down(_) => None,
        }
    }

    /// Its line, where it stands so in the group.
    pub fn line(&self, phase: Phase) -> Result<Line, NoMemory>
        ensures { IfOk result (λ l. l ≡ record {
          id = self.now.id;
          up = option_map (up_line phase) (running self.now.life);
        }) }
    {
        match &self.life {
            NodeState::Up { engine, .. } => engine.line(phase),
            NodeState::Down(resting) => Ok(Line {
                id: resting.id(),
                up: None,
            }),
        }
    }

    /// Its green actions and its database, where it is up.
    pub fn shows(&self, alloc: Global) -> Result<Row<Shown>, NoMemory>
        ensures { IfOk result (λ list. list ≡ option_map_or shown_of (running self.now.life) []) }
    {
        match &self.life {
            NodeState::Up { engine, .. } => engine.shows(alloc),
            NodeState::Down(_) => Ok(Row::new(alloc)),
        }
    }

    /// The answer of its green actions, where it is up.
    pub fn shows_weak(&self, alloc: Global, query: &Query) -> Result<Row<Shown>, NoMemory>
        ensures { IfOk result (λ list. list ≡
            option_map_or (λ r. ShownWeak self.now.id (weak_answer r.held query.now) ∷ []) (running self.now.life) []) }
    {
        let p = self.id();
        match &self.life {
            NodeState::Up { engine, .. } => weak_in(alloc, p, engine.core(), query),
            NodeState::Down(_) => Ok(Row::new(alloc)),
        }
    }

    /// The answer of all actions that it knows, where it is up.
    pub fn shows_dirty(&self, alloc: Global, query: &Query) -> Result<Row<Shown>, NoMemory>
        ensures { IfOk result (λ list. list ≡
            option_map_or (λ r. ShownDirty self.now.id (dirty_answer r.held query.now) ∷ []) (running self.now.life) []) }
    {
        let p = self.id();
        match &self.life {
            NodeState::Up { engine, .. } => dirty_in(alloc, p, engine.core(), query),
            NodeState::Down(_) => Ok(Row::new(alloc)),
        }
    }
}

// What an engine holds.
fn core_of(engine: &Engine<ModelDisk>) -> &Core
    ensures value { result.now ≡ engine.now.replica.held }
    ensures holds { Holds result.now }
{
    engine.holds();
    engine.core()
}

fn weak_in(alloc: Global, p: ReplicaId, core: &Core, query: &Query) -> Result<Row<Shown>, NoMemory>
    ensures { IfOk result (λ list. list ≡ ShownWeak p (weak_answer core.now query.now) ∷ []) }
{
    let answer = core.weak(query)?;
    let mut shown = Row::new(alloc);
    shown.push(Shown::Weak { p, answer })?;
    Ok(shown)
}

fn dirty_in(alloc: Global, p: ReplicaId, core: &Core, query: &Query) -> Result<Row<Shown>, NoMemory>
    ensures { IfOk result (λ list. list ≡ ShownDirty p (dirty_answer core.now query.now) ∷ []) }
{
    let answer = core.dirty(query)?;
    let mut shown = Row::new(alloc);
    shown.push(Shown::Dirty { p, answer })?;
    Ok(shown)
}
