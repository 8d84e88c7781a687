//! Strikes are armed, a replica goes down, it comes up again, and its disk is handed out.
ghost use Rattle.std.specs.Prelude.{◌≡◌, ◌≤◌, List, ℕ, [], Some, None, false, IfOk};
ghost use Rattle.cg_disk_records.specs.Crash.{FailOnce, StopWith};
ghost use Rattle.cg_model.specs.Show.{news_of_recovery};
ghost use Rattle.cg_model.specs.World.{node_disk};
ghost use Rattle.cg_model.specs.Step.{armed, crashed, risen, downgraded};
ghost use Rattle.cg_world_events.specs.Nodes.{changed, raised, raised_under, weighs};
ghost use Rattle.cg_world_events.specs.CrashedDisk.{IsCrashedDisk};
ghost use Rattle.cg_world_events.specs.DiskOut.{HoldsDisk};
ghost use Rattle.cg_disk.specs.Crashes.{Disarms};
ghost use Rattle.cg_store.specs.Formats.{Standing};
ghost use Rattle.cg_engine.specs.Engines.{IsSame};
ghost use Rattle.cg_world_events.specs.Seen.{up_seen, down_seen, FallsTo, fallen};

use crate::crashed_disk::CrashedDisk;
use crate::limits::CALLS_BEFORE_CRASH;
use crate::node_state::NodeState;
use crate::{EventEffects, Node};
use cg_base::{Bytes, Cut, IdList, NoMemory, ReplicaId, Row};
use cg_disk::{Disk, ModelDisk};
use cg_engine::{Engine, Recovered, Wreck};
use std::alloc::Global;

impl Node {
    /// Arms the device call of this number, from 1 for the next one, to fail once, where the replica is up.
    pub fn fail_at(&mut self, call: u64)
        requires { 1 ≤ call }
        ensures { self.new ≡ changed self.old (armed (record { call = call; fault = FailOnce }) self.old.life) }
    {
        match &mut self.life {
            NodeState::Up { engine, .. } => engine.fail_at(call),
            NodeState::Down(_) => {}
        }
    }

    /// Arms a crash in the device call of this number, from 1 for the next one, with the bytes that it leaves in places
    /// that weren't synced, where the replica is up.
    pub fn stop_at(&mut self, call: u64, fill: Bytes)
        requires { 1 ≤ call }
        ensures { self.new ≡ changed self.old (armed (record { call = call; fault = StopWith fill }) self.old.life) }
    {
        match &mut self.life {
            NodeState::Up {
                engine,
                fill: before,
            } => {
                engine.stop_at(call);
                *before = fill;
            }
            NodeState::Down(_) => drop(fill),
        }
    }

    /// A crash now, where it is up. `NoMemory` too where its disk has made so many calls that those of a recovery might go
    /// past 2^62.
    pub fn crash(self) -> Result<Node, NoMemory>
        ensures { IfOk result (λ s. s ≡ changed self (crashed self.life)) }
    {
        match self.into_life() {
            NodeState::Up { engine, fill } => {
                drop(fill);
                stop(engine)
            }
            NodeState::Down(resting) => Ok(Node::down(resting)),
        }
    }

    /// It comes up with what stands on its disk, where it is down; with what is to be shown of that, where actions up to
    /// this cut were shown as made.
    pub fn recover(
        self,
        alloc: Global,
        made: &Cut,
    ) -> Result<(Node, Option<EventEffects>), NoMemory>
        ensures { IfOk result (λ x. x ≡ raised self (risen made.now self.life)) }
    {
        match self.into_life() {
            NodeState::Up { engine, fill } => Ok((Node::up(engine, fill), None)),
            NodeState::Down(resting) => recover_engine(alloc, resting, made),
        }
    }

    /// The same, unless it is stopped in the device call of this number, from 1 for the next one, which leaves these bytes in
    /// places that weren't synced: then it stays down, and its disk stands for what it stood for. `NoMemory` too where the
    /// disk has made so many calls that those of another recovery might go past 2^62.
    pub fn recover_stopped(
        self,
        alloc: Global,
        call: u64,
        fill: &[u8],
        made: &Cut,
    ) -> Result<(Node, Option<EventEffects>), NoMemory>
        requires { 1 ≤ call }
        ensures { IfOk result (λ x. x ≡ raised_under made.now (record { call = call; fault = StopWith fill.now }) self) }
    {
        match self.into_life() {
            NodeState::Up {
                engine,
                fill: armed,
            } => Ok((Node::up(engine, armed), None)),
            NodeState::Down(resting) => recover_engine_under(alloc, resting, call, fill, made),
        }
    }

    /// In place of its disk, where it is down and no weight above 1 stands there, there is one of the older format, which
    /// stands for the same.
    pub fn downgrade(self, alloc: Global) -> Result<Node, NoMemory>
        requires { weighs self.life ≡ false }
        ensures { IfOk result (λ s. s ≡ changed self (downgraded self.life)) }
    {
        match self.into_life() {
            NodeState::Up { engine, fill } => Ok(Node::up(engine, fill)),
            NodeState::Down(resting) => {
                let resting = resting.downgraded(alloc)?;
                Ok(Node::down(resting))
            }
        }
    }

    /// Its disk as a crash now leaves it, with nothing in the places that weren't synced. `NoMemory` too where a crash has it.
    pub fn into_disk(self) -> Result<ModelDisk, NoMemory>
        ensures { IfOk result (λ disk. HoldsDisk self.id (node_disk self.life) (⟦<ModelDisk as Disk>⟧.view disk)) }
    {
        let fallen = self.crash()?;
        match fallen.into_life() {
            NodeState::Up { .. } => unreachable!(),
            NodeState::Down(resting) => Ok(resting.into_wreck().into_disk()),
        }
    }

    /// The replica of a disk is up with what stands there, where the disk stands for a state, with nothing unsynced on it and
    /// nothing armed. Nothing is to be shown of that.
    pub fn from_disk(alloc: Global, disk: ModelDisk, id: ReplicaId) -> Result<Node, NoMemory>
        requires { IsCrashedDisk (⟦<ModelDisk as Disk>⟧.view disk) id }
        ensures { IfOk result (λ s.
            let down = down_seen (⟦<ModelDisk as Disk>⟧.view) (record {
              disk = disk;
              id = id;
              count = 0;
              green = [];
            }) in
            s ≡ (raised down (risen [] down.life)).0) }
    {
        let resting = CrashedDisk::new(Wreck::new(alloc, disk, id));
        let (node, news) = Node::down(resting).recover(alloc, &Cut::zero())?;
        drop(news);
        Ok(node)
    }
}

// A crash of an engine between two events.
fn stop(engine: Engine<ModelDisk>) -> Result<Node, NoMemory>
    ensures { IfOk result (λ s. (fill : List ℕ) →
        let up = up_seen (⟦<ModelDisk as Disk>⟧.view) engine fill in s ≡ changed up (crashed up.life)) }
{
    if engine.calls() > CALLS_BEFORE_CRASH {
        drop(engine);
        return Err(NoMemory);
    }
    engine.holds();
    Node::from_wreck(engine.stop(), &[])
}

// An engine comes up from a disk that stands for a state.
fn recover_engine(
    alloc: Global,
    resting: CrashedDisk,
    made: &Cut,
) -> Result<(Node, Option<EventEffects>), NoMemory>
    ensures { IfOk result (λ x.
        let down = down_seen (⟦<ModelDisk as Disk>⟧.view) resting in x ≡ raised down (risen made.now down.life)) }
{
    match Engine::recover(alloc, resting.into_wreck()) {
        Recovered::Running { engine, green } => go_up(engine, green, made),
        Recovered::Down(_) => unreachable!(),
        Recovered::NotAStore(_) => unreachable!(),
        Recovered::NoMemory(wreck) => {
            drop(wreck);
            Err(NoMemory)
        }
    }
}

// The same with a stop armed in the call of this number.
fn recover_engine_under(
    alloc: Global,
    resting: CrashedDisk,
    call: u64,
    fill: &[u8],
    made: &Cut,
) -> Result<(Node, Option<EventEffects>), NoMemory>
    requires { 1 ≤ call }
    ensures { IfOk result (λ x. x ≡ raised_under made.now (record { call = call; fault = StopWith fill.now })
        (down_seen (⟦<ModelDisk as Disk>⟧.view) resting)) }
{
    let mut wreck = resting.into_wreck();
    wreck.stop_at(call);
    match Engine::recover(alloc, wreck) {
        Recovered::Running { engine, green } => go_up(disarmed(engine), green, made),
        Recovered::Down(lost) => stay_down(lost, fill),
        Recovered::NotAStore(_) => unreachable!(),
        Recovered::NoMemory(lost) => {
            drop(lost);
            Err(NoMemory)
        }
    }
}

// The engine that has come up, and what is to be shown of that.
fn go_up(
    engine: Engine<ModelDisk>,
    green: IdList,
    made: &Cut,
) -> Result<(Node, Option<EventEffects>), NoMemory>
    ensures { IfOk result (λ x. x ≡ (
      up_seen (⟦<ModelDisk as Disk>⟧.view) engine [],
      Some (news_of_recovery made.now engine.replica.held green),
    )) }
{
    let alloc = engine.core().alloc();
    match EventEffects::of_recovery(made, engine.core(), green) {
        Ok(news) => Ok((Node::up(engine, Row::new(alloc)), Some(news))),
        Err(_) => {
            drop(engine);
            Err(NoMemory)
        }
    }
}

// Nothing is armed on its disk any more.
fn disarmed(engine: Engine<ModelDisk>) -> Engine<ModelDisk>
    ensures disk { Disarms (⟦<ModelDisk as Disk>⟧.view engine.store.disk) (⟦<ModelDisk as Disk>⟧.view result.store.disk) }
    ensures rest { IsSame engine result }
{
    let mut engine = engine;
    engine.disarm();
    engine
}

// A replica whose recovery was stopped is down, with these bytes in the places that weren't synced.
fn stay_down(wreck: Wreck<ModelDisk>, fill: &[u8]) -> Result<(Node, Option<EventEffects>), NoMemory>
    requires { (s : Standing) × FallsTo (⟦<ModelDisk as Disk>⟧.view) wreck fill.now s }
    ensures { IfOk result (λ x. (s : Standing) → FallsTo (⟦<ModelDisk as Disk>⟧.view) wreck fill.now s →
        x ≡ (fallen wreck s, None)) }
{
    if wreck.calls() > CALLS_BEFORE_CRASH {
        drop(wreck);
        return Err(NoMemory);
    }
    let node = Node::from_wreck(wreck, fill)?;
    Ok((node, None))
}
