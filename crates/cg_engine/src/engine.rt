//! A replica that is up, and the calls that bring it up and down.
ghost use Rattle.std.specs.Prelude.{◌≡◌, ◌+◌, ◌≤◌, [], Bool, if◌then◌else◌};
ghost use Rattle.cg_base.specs.declared.limits.TheConstants.{COUNT_LIMIT};
ghost use Rattle.cg_action.specs.declared.action.Action.{Action};
ghost use Rattle.cg_base.specs.declared.action_id.ActionId.{ActionId};
ghost use Rattle.cg_client.specs.Queries.{state_name};
ghost use Rattle.cg_client.specs.Replica.{Held, fresh};
ghost use Rattle.cg_client.specs.Requests.{is_creating};
ghost use Rattle.cg_client.specs.Turn.{Turn};
ghost use Rattle.cg_disk_records.specs.Stored.{recovery_turn};
ghost use Rattle.cg_engine.specs.Inputs.{input_of, HasLimits};
ghost use Rattle.cg_engine.specs.Seen.{turn_of};
ghost use Rattle.cg_engine.specs.Ending.{fail_event, fail_start, fail_open, fail_keep};
ghost use Rattle.cg_model.specs.World.{is_left_state};

use crate::wreck::LastEvent;
use crate::{Handled, Input, Recovered, Replica, Started, Wreck};
use cg_base::{IdList, ReplicaId, Row, WeightSet};
use cg_client::{Core, Draft};
use cg_disk::{Disk, ModelDisk};
use cg_disk_records::what_is_held_agrees;
use cg_model::{each_commit_is_recorded, each_event_keeps_what_holds};
use cg_report::StateName;
use cg_store::{CommitErr, OpenErr, Outputs, Store};
use std::alloc::Global;
use std::marker::Model;

/// A replica with its disk. Clauses see its store, and what it is in memory.
pub struct Engine<D: Disk> {
    store: Store<D>,
    replica: Replica,
}

impl<D: Disk + Drop> Drop for Engine<D> {
    fn drop(self) {
        let Engine {
            store: _,
            replica: _,
        } = self;
    }
}

impl<D: Disk> Model for Engine<D> {
    ghost use Rattle.cg_engine.specs.Engines.{Up, IsEngine};

    ghost Value = { Up D };

    ghost view = { λ e. record { store = e.store; replica = e.replica } };

    ghost invariant = { λ e. IsEngine (D.view e.store.disk) e.store.id e.store.unwritten e.replica.held };
}

// What ended a call of the store ends the event.
fn fail_event<D: Disk>(fault: CommitErr<D>, id: ReplicaId, last: LastEvent) -> Handled<D>
    ensures { result ≡ fail_event fault id last }
{
    match fault {
        CommitErr::Lost(disk) => Handled::Down(Wreck::of(disk, id, last)),
        CommitErr::NoMemory(disk) => Handled::NoMemory(Wreck::of(disk, id, last)),
    }
}

// A new replica that couldn't be written.
fn fail_start<D: Disk>(alloc: Global, fault: CommitErr<D>, id: ReplicaId) -> Started<D>
    ensures { result ≡ fail_start fault id }
{
    match fault {
        CommitErr::Lost(disk) => Started::Down(Wreck::new(alloc, disk, id)),
        CommitErr::NoMemory(disk) => Started::NoMemory(Wreck::new(alloc, disk, id)),
    }
}

// A disk that couldn't be opened.
fn fail_open<D: Disk>(fault: OpenErr<D>, id: ReplicaId, last: LastEvent) -> Recovered<D>
    ensures { result ≡ fail_open fault id last }
{
    match fault {
        OpenErr::Lost(disk) => Recovered::Down(Wreck::of(disk, id, last)),
        OpenErr::NotAStore(disk) => Recovered::NotAStore(Wreck::of(disk, id, last)),
        OpenErr::NoMemory(disk) => Recovered::NoMemory(Wreck::of(disk, id, last)),
    }
}

// The red marks of a recovery that couldn't be kept.
fn fail_keep<D: Disk>(fault: CommitErr<D>, id: ReplicaId, last: LastEvent) -> Recovered<D>
    ensures { result ≡ fail_keep fault id last }
{
    match fault {
        CommitErr::Lost(disk) => Recovered::Down(Wreck::of(disk, id, last)),
        CommitErr::NoMemory(disk) => Recovered::NoMemory(Wreck::of(disk, id, last)),
    }
}

// The names of the last event, where there are more greens now.
fn names_to_tell(alloc: Global, last: LastEvent, more: bool) -> IdList
    ensures { result ≡ (if more then last.green else []) }
{
    if more { last.green } else { Row::new(alloc) }
}

impl<D: Disk> Engine<D> {
    ghost use Rattle.cg_model.specs.Recorded.{AreBooked};
    ghost use Rattle.cg_states.specs.ReplicaStep.{replica_step};
    ghost use Rattle.cg_disk_records.specs.Commit.{commits};
    ghost use Rattle.cg_disk.specs.View.{IsAtRest};
    ghost use Rattle.cg_store.specs.Stands.{OnDisk, Stands};
    ghost use Rattle.cg_engine.specs.Engines.{IsEngine};
    ghost use Rattle.cg_engine.specs.Answers.{Starts, EndsEvent, HandlesEvent, Recovers, Falls};
    ghost use Rattle.cg_engine.specs.declared.answers.Handled.TheVariants.{Running as RunningOn};
    ghost use Rattle.cg_engine.specs.Ending.{up, MayEnd, MayGoOn, MaySave, Saves, GoesOn, IsOpen, Rises, RisesWith};

    /// A new replica, alone, among the servers of the start, on an empty disk: seven device calls.
    pub fn start(alloc: Global, disk: D, id: ReplicaId, servers: &WeightSet) -> Started<D>
        requires { (D.view disk).time + 7 ≤ COUNT_LIMIT }
        ensures { Starts D.view id servers.now (D.view disk) result }
    {
        match Replica::fresh(alloc, id, servers) {
            Ok(replica) => Engine::create(alloc, disk, id, servers, replica),
            Err(_) => Started::NoMemory(Wreck::new(alloc, disk, id)),
        }
    }

    // What the new replica holds is written.
    fn create(
        alloc: Global,
        disk: D,
        id: ReplicaId,
        servers: &WeightSet,
        replica: Replica,
    ) -> Started<D>
        requires calls { (D.view disk).time + 7 ≤ COUNT_LIMIT }
        requires new { replica ≡ fresh id servers.now }
        ensures { Starts D.view id servers.now (D.view disk) result }
    {
        what_is_held_agrees();
        match Store::create(disk, replica.core()) {
            Ok(store) => Started::Running {
                engine: Engine { store, replica },
            },
            Err(fault) => {
                drop(replica);
                fail_start(alloc, fault, id)
            }
        }
    }

    /// One event: the deliveries in their order, and then the requests that are kept; or a request. It makes no device
    /// call, or the four of its commit, and six more for a checkpoint where the commit leaves its side too long.
    pub fn handle(self, input: Input) -> Handled<D>
        requires calls { (D.view self.store.disk).time + 10 ≤ COUNT_LIMIT }
        requires limits { HasLimits input }

        // No two actions have one name, of those that the replica waits with and of those that come.
        requires booked { (book : ActionId → Action) × AreBooked book self.replica.held (input_of input) }

        ensures { (u : OnDisk) → Stands self.store.id (D.view self.store.disk).reads u →
            HandlesEvent D.view self u (replica_step self.replica (input_of input)) result }
    {
        what_is_held_agrees();
        each_event_keeps_what_holds();
        each_commit_is_recorded();
        let Engine { mut store, replica } = self;
        store.begin();
        let alloc = replica.core().alloc();
        let count = replica.core().green_count();
        match replica.step(input) {
            Ok((replica, draft)) => Engine::end(alloc, store, replica, draft, count),
            Err(_) => Engine::refuse(alloc, store, count),
        }
    }

    // Memory was refused before the first device call.
    fn refuse(alloc: Global, store: Store<D>, count: u64) -> Handled<D>
        ensures { (u : OnDisk) (t : Turn) (written : Bool) → Stands store.id (D.view store.disk).reads u →
            EndsEvent D.view store count u t written result }
    {
        let id = store.id();
        let green = Row::new(alloc);
        Handled::NoMemory(Wreck::of(store.into_disk(), id, LastEvent { count, green }))
    }

    // The step was made: the event ends.
    fn end(alloc: Global, store: Store<D>, replica: Replica, draft: Draft, count: u64) -> Handled<D>
        requires calls { (D.view store.disk).time + 10 ≤ COUNT_LIMIT }
        requires may { (u : OnDisk) → Stands store.id (D.view store.disk).reads u →
            MayEnd store.unwritten u (turn_of replica draft) }
        ensures { (u : OnDisk) → Stands store.id (D.view store.disk).reads u →
            (let t = turn_of replica draft in EndsEvent D.view store count u t (commits u.content t) result) }
    {
        match Row::from_slice(alloc, draft.green()) {
            Ok(green) => Engine::write(store, replica, draft, LastEvent { count, green }),
            Err(_) => {
                draft.abandon();
                drop(replica);
                Engine::refuse(alloc, store, count)
            }
        }
    }

    // The commit, and what follows it.
    fn write(store: Store<D>, replica: Replica, draft: Draft, last: LastEvent) -> Handled<D>
        requires calls { (D.view store.disk).time + 10 ≤ COUNT_LIMIT }
        requires may { (u : OnDisk) → Stands store.id (D.view store.disk).reads u →
            MayEnd store.unwritten u (turn_of replica draft) }
        requires named { last.green ≡ draft.green }
        ensures { (u : OnDisk) → Stands store.id (D.view store.disk).reads u →
            (let t = turn_of replica draft in EndsEvent D.view store last.count u t (commits u.content t) result) }
    {
        store.holds();
        let id = store.id();
        match store.commit(replica.core(), draft) {
            Ok((store, outputs)) => Engine::whiten_and_save(store, replica, outputs, last),
            Err(fault) => {
                drop(replica);
                fail_event(fault, id, last)
            }
        }
    }

    // Behind a commit the white count rises, and a checkpoint may follow.
    fn whiten_and_save(
        store: Store<D>,
        replica: Replica,
        outputs: Outputs,
        last: LastEvent,
    ) -> Handled<D>
        requires calls { (D.view store.disk).time + 6 ≤ COUNT_LIMIT }
        requires may { (w : OnDisk) → Stands store.id (D.view store.disk).reads w →
            MayGoOn outputs.written store.unwritten w replica.held }
        ensures { (w : OnDisk) → Stands store.id (D.view store.disk).reads w →
            GoesOn D.view store w replica outputs last result }
    {
        store.holds();
        if !outputs.written() {
            drop(last);
            return Engine::run(store, replica, outputs);
        }
        let mut replica = replica;
        replica.whiten();
        Engine::save(store, replica, outputs, last)
    }

    // The checkpoint, where the side is too long.
    fn save(store: Store<D>, replica: Replica, outputs: Outputs, last: LastEvent) -> Handled<D>
        requires calls { (D.view store.disk).time + 6 ≤ COUNT_LIMIT }
        requires may { (w : OnDisk) → Stands store.id (D.view store.disk).reads w →
            MaySave store.unwritten w replica.held }
        ensures { (w : OnDisk) → Stands store.id (D.view store.disk).reads w →
            Saves D.view store w replica outputs last result }
    {
        store.holds();
        let id = store.id();
        if !store.is_long() {
            drop(last);
            return Engine::run(store, replica, outputs);
        }
        match store.checkpoint(replica.core()) {
            Ok(store) => {
                drop(last);
                Engine::run(store, replica, outputs)
            }
            Err(fault) => {
                drop(replica);
                drop(outputs);
                fail_event(fault, id, last)
            }
        }
    }

    // The event has come to its end.
    fn run(store: Store<D>, replica: Replica, outputs: Outputs) -> Handled<D>
        requires { IsEngine (D.view store.disk) store.id store.unwritten replica.held }
        ensures { result ≡ RunningOn (up store replica) outputs }
    {
        let engine = Engine { store, replica };
        Handled::Running { engine, outputs }
    }

    /// The replica comes up again from what its disk stands for: alone, in no primary component, and its own actions have
    /// become red. Five device calls, and those by which a disk of the older format goes over to the newer one: sixteen at
    /// the most. It tells the names of its last event that are green there.
    pub fn recover(alloc: Global, w: Wreck<D>) -> Recovered<D>
        requires { (D.view w.disk).time + 16 ≤ COUNT_LIMIT }
        ensures { Recovers D.view w result }
    {
        let (disk, id, last) = w.into_parts();
        match Store::open(alloc, disk, id) {
            Ok((store, core)) => Engine::recover_replica(store, core, last),
            Err(fault) => fail_open(fault, id, last),
        }
    }

    // The replica of an opened store.
    fn recover_replica(store: Store<D>, core: Core, last: LastEvent) -> Recovered<D>
        requires { IsOpen (D.view store.disk) store core }
        ensures { Rises store core last result }
    {
        let id = store.id();
        let alloc = core.alloc();
        let more = last.count < core.green_count();
        match Replica::recovered(core) {
            Ok((replica, draft)) => Engine::keep_marks(alloc, store, replica, draft, last, more),
            Err(_) => Recovered::NoMemory(Wreck::of(store.into_disk(), id, last)),
        }
    }

    // The red marks of the recovery are kept for the first record.
    fn keep_marks(
        alloc: Global,
        store: Store<D>,
        replica: Replica,
        draft: Draft,
        last: LastEvent,
        more: bool,
    ) -> Recovered<D>
        requires { (core : Held) × IsOpen (D.view store.disk) store core × (turn_of replica draft ≡ recovery_turn core) }
        ensures { RisesWith store (turn_of replica draft) last more result }
    {
        what_is_held_agrees();
        each_commit_is_recorded();
        let id = store.id();
        match store.keep(draft) {
            Ok(store) => {
                let green = names_to_tell(alloc, last, more);
                let engine = Engine { store, replica };
                Recovered::Running { engine, green }
            }
            Err(fault) => {
                drop(replica);
                fail_keep(fault, id, last)
            }
        }
    }

    /// A crash now. It takes no memory.
    pub fn stop(self) -> Wreck<D>
        ensures { Falls self result }
    {
        let Engine { store, replica } = self;
        let alloc = replica.core().alloc();
        let count = replica.core().green_count();
        drop(replica);
        let id = store.id();
        let green = Row::new(alloc);
        Wreck::of(store.into_disk(), id, LastEvent { count, green })
    }

    /// It has left. It takes no memory.
    pub fn left(&self) -> bool
        ensures { result ≡ is_left_state self.now.replica.state }
    {
        self.replica.is_left()
    }

    /// Its state. It takes no memory.
    pub fn state(&self) -> StateName
        ensures { result ≡ state_name self.now.replica.state }
    {
        self.replica.state()
    }

    /// It creates a request at once, and keeps none. It takes no memory.
    pub fn is_creating(&self) -> bool
        ensures { result ≡ is_creating self.now.replica.state }
    {
        self.replica.is_creating()
    }

    /// What it holds. It takes no memory.
    pub fn core(&self) -> &Core
        ensures { result.now ≡ self.now.replica.held }
    {
        self.replica.core()
    }

    /// Whose engine it is. It takes no memory.
    pub fn id(&self) -> ReplicaId
        ensures { result ≡ self.now.store.id }
    {
        self.store.id()
    }

    /// The disk stands for a state that the replica follows, and nothing on it is unsynced. It does nothing.
    pub fn holds(&self)
        ensures follows { IsEngine (D.view self.now.store.disk) self.now.store.id
            self.now.store.unwritten self.now.replica.held }
        ensures rest { IsAtRest (D.view self.now.store.disk) }
    {
        self.store.holds();
    }
}

/// The four calls of a disk in memory, passed on to it.
impl Engine<ModelDisk> {
    ghost use Rattle.cg_disk.specs.State.{Fails, Stops};
    ghost use Rattle.cg_disk.specs.Crashes.{Arms, Disarms};
    ghost use Rattle.cg_engine.specs.Engines.{IsSame};

    /// Arms the nth next device call, n at least 1, to fail once. It takes no memory.
    pub fn fail_at(&mut self, n: u64)
        requires { 1 ≤ n }
        ensures disk { Arms Fails n (⟦<ModelDisk as Disk>⟧.view self.old.store.disk)
            (⟦<ModelDisk as Disk>⟧.view self.new.store.disk) }
        ensures rest { IsSame self.old self.new }
    {
        self.store.fail_at(n);
    }

    /// Arms a stop inside the nth next device call, n at least 1. It takes no memory.
    pub fn stop_at(&mut self, n: u64)
        requires { 1 ≤ n }
        ensures disk { Arms Stops n (⟦<ModelDisk as Disk>⟧.view self.old.store.disk)
            (⟦<ModelDisk as Disk>⟧.view self.new.store.disk) }
        ensures rest { IsSame self.old self.new }
    {
        self.store.stop_at(n);
    }

    /// Nothing is armed any more. It takes no memory.
    pub fn disarm(&mut self)
        ensures disk { Disarms (⟦<ModelDisk as Disk>⟧.view self.old.store.disk)
            (⟦<ModelDisk as Disk>⟧.view self.new.store.disk) }
        ensures rest { IsSame self.old self.new }
    {
        self.store.disarm();
    }

    /// The device calls made so far. It takes no memory.
    pub fn calls(&self) -> u64
        ensures { result ≡ (⟦<ModelDisk as Disk>⟧.view self.now.store.disk).time }
    {
        self.store.calls()
    }
}
