ghost use Rattle.std.specs.Prelude.{◌≡◌, ℕ, true, if◌then◌else◌, ◌<◌, ◌≤◌, ◌+◌, ◌-◌, ◌^◌, [], ◌==◌, ◌∷◌, ◌++◌, length, OnOk, OnErr, vec_len, vec_capacity};
ghost use Rattle.std.specs.Option.{option_copied, option_map};
ghost use Rattle.cg_base.specs.Lists.{at_place};
ghost use Rattle.cg_base.specs.Sets.{IsSet, with_member, is_within};
ghost use Rattle.cg_group.specs.State.{has_received};
ghost use Rattle.cg_group.specs.Refusals.{sender_at};
ghost use Rattle.cg_group.specs.Logs.{sent_of, with_all_receipts, IsSettled, AreFronts};
ghost use Rattle.cg_group.specs.Ready.{ready_in, all_received};
ghost use Rattle.cg_group.specs.Events.{with_message, with_receipt};

use crate::ordered_message::OrderedMessage;
use crate::place::at_place;
use cg_base::{IdSet, NoMemory, ReplicaId};
use std::alloc::Global;
use std::marker::Model;

/// A configuration: its members, and the messages that were ordered in it.
#[derive(Drop)]
pub(crate) struct ConfigurationLog<M> {
    members: IdSet,
    ordered: Vec<OrderedMessage<M>>,
    // every member has received each of the first places, so many
    settled: usize,
    // each replica has received each of the first places, so many as are counted at its slot, one below its number
    fronts: Vec<usize>,
}

impl<M> Model for ConfigurationLog<M> {
    ghost use Rattle.std.specs.Prelude.{◌-◌, vec_len, vec_capacity};
    ghost use Rattle.cg_group.specs.Logs.{LogView, IsSettled, AreFronts, AreInTurn, configuration_of};

    ghost Value = { LogView M };

    ghost view = { λ l. record {
      configuration = configuration_of l.members l.ordered.items;
      room = vec_capacity l.ordered - vec_len l.ordered;
    } };

    ghost invariant = { λ l. IsSettled l.members l.ordered.items l.settled × AreFronts l.ordered.items l.fronts.items
        × AreInTurn l.ordered.items };
}

// the room is there, so no memory is taken
fn push_in_room<T: Drop>(items: &mut Vec<T>, item: T)
    requires { vec_len items.old < vec_capacity items.old }
    ensures items { items.new.items ≡ items.old.items ++ item ∷ [] }
    ensures len { vec_len items.new ≡ vec_len items.old + 1 }
    ensures capacity { vec_capacity items.old ≤ vec_capacity items.new }
{
    let _done = items.push(item);
}

// the receiver is among those who have received the place, which are a set
fn add_receipt<M>(placed: &mut OrderedMessage<M>, p: ReplicaId, in_turn: bool)
    ensures value { placed.new ≡ record placed.old {
      received = with_member placed.old.received p;
      in_turn = if in_turn then with_member placed.old.in_turn p else placed.old.in_turn;
    } }
    ensures set { IsSet placed.new.received }
{
    placed.received.add(p);
    if in_turn {
        placed.in_turn.add(p);
    }
    placed.received.holds();
}

// each of the members is among those who have received a place
fn is_complete(received: &IdSet, members: &IdSet) -> bool
    ensures within { result ≡ true → is_within members.now received.now ≡ true }
    ensures set { IsSet received.now }
{
    received.holds();
    members.is_within(received)
}

// how many of the first places every member has received, from so many on
fn settled_from<M>(members: &IdSet, ordered: &[OrderedMessage<M>], from: usize) -> usize
    requires { from ≤ length ordered.now }
    ensures { IsSettled members.now ordered.now from → IsSettled members.now ordered.now result }
{
    let mut place = from;
    while place < ordered.len() {
        if !is_complete(&ordered[place].received, members) {
            return place;
        }
        place += 1;
    }
    place
}

// counts on which of the first places a replica has received, where it has a slot
fn count_on<M>(fronts: &mut Vec<usize>, ordered: &[OrderedMessage<M>], p: ReplicaId)
    requires { AreFronts ordered.now fronts.old.items }
    ensures { AreFronts ordered.now fronts.new.items }
{
    let slot = usize::from(p.get() - 1);
    if slot >= fronts.len() {
        return;
    }
    fronts[slot] = settled_from(&IdSet::single(p), ordered, fronts[slot]);
}

// a slot for each of the members, where there is none yet
fn put_slots<M>(
    fronts: &mut Vec<usize>,
    ordered: &[OrderedMessage<M>],
    members: &IdSet,
) -> Result<(), NoMemory>
    requires { AreFronts ordered.now fronts.old.items }
    ensures { AreFronts ordered.now fronts.new.items }
{
    if fronts.len() > 0 {
        return Ok(());
    }
    let mut greatest = 0;
    for p in members.iter() {
        greatest = p.get();
    }
    fronts.reserve(usize::from(greatest))?;
    for _slot in 0..greatest {
        fronts.push(0)?;
    }
    Ok(())
}

// makes room for that many more, where there is less, and then for a quarter more at least: room that a configuration doesn't need
// before everybody has left it stays unused
fn reserve_some<T>(items: &mut Vec<T>, count: usize) -> Result<(), NoMemory>
    ensures items { items.new.items ≡ items.old.items }
    ensures kept { vec_capacity items.old - vec_len items.old ≤ vec_capacity items.new - vec_len items.new }
    ensures room { OnOk result (count ≤ vec_capacity items.new - vec_len items.new) }
{
    if count <= items.capacity() - items.len() {
        return Ok(());
    }
    items.reserve_exact(count.max(items.len() / 4))?;
    Ok(())
}

impl<M> ConfigurationLog<M> {
    pub(crate) fn new(alloc: Global, members: IdSet) -> ConfigurationLog<M>
        ensures { result.configuration ≡ record { members = members; ordered = []; received = [] } }
    {
        ConfigurationLog {
            members,
            ordered: Vec::new(alloc),
            settled: 0,
            fronts: Vec::new(alloc),
        }
    }

    /// How many messages have a place.
    pub(crate) fn len(&self) -> usize
        ensures { result ≡ length self.now.configuration.ordered }
    {
        self.ordered.len()
    }

    /// Makes room for that many more messages, and counts from then on what each member receives.
    pub(crate) fn reserve(&mut self, count: usize) -> Result<(), NoMemory>
        ensures same { self.new.configuration ≡ self.old.configuration }
        ensures kept { self.old.room ≤ self.new.room }
        ensures room { OnOk result (count ≤ self.new.room) }
    {
        reserve_some(&mut self.ordered, count)?;
        put_slots(&mut self.fronts, self.ordered.as_slice(), &self.members)
    }

    /// A message gets the next place, and its sender has received it. It takes no memory.
    pub(crate) fn append(&mut self, from: ReplicaId, message: M)
    where
        M: Drop,
        requires { 0 < self.old.room }
        ensures value { self.new.configuration ≡ with_message self.old.configuration from message }
        ensures room { self.old.room ≤ self.new.room + 1 }
    {
        let mut received = IdSet::empty();
        received.add(from);
        let in_turn = IdSet::empty();
        let placed = OrderedMessage {
            from,
            message,
            received,
            in_turn,
        };
        push_in_room(&mut self.ordered, placed);
        let ordered = self.ordered.as_slice();
        count_on(&mut self.fronts, ordered, from);
        self.settled = settled_from(&self.members, ordered, self.settled);
    }

    /// A member has received a place, where there is such a place.
    pub(crate) fn receive(&mut self, p: ReplicaId, place: u64)
        ensures value { self.new.configuration ≡ with_receipt self.old.configuration p place }
        ensures room { self.new.room ≡ self.old.room }
    {
        if place == 0 {
            return;
        }
        if place > self.ordered.len() as u64 {
            return;
        }
        let in_turn = self.has_all_before(p, place);
        let placed = &mut self.ordered[(place - 1) as usize];
        add_receipt(placed, p, in_turn);
        let ordered = self.ordered.as_slice();
        count_on(&mut self.fronts, ordered, p);
        self.settled = settled_from(&self.members, ordered, self.settled);
    }

    /// So many of the first places every member has received.
    pub(crate) fn settled(&self) -> usize
        ensures within { result ≤ length self.now.configuration.ordered }
        ensures received { (place : ℕ) → 0 < place → place ≤ result → all_received self.now.configuration place ≡ true }
    {
        self.settled
    }

    /// So many of the first places the replica is known to have received.
    pub(crate) fn received_by(&self, p: ReplicaId) -> usize
        ensures within { result ≤ length self.now.configuration.ordered }
        ensures received { (place : ℕ) → 0 < place → place ≤ result →
            has_received self.now.configuration p place ≡ true }
        ensures same { (place : ℕ) → 0 < place → place ≤ result →
            with_receipt self.now.configuration p place ≡ self.now.configuration }
    {
        let slot = usize::from(p.get() - 1);
        if slot >= self.fronts.len() {
            return 0;
        }
        self.fronts[slot]
    }

    /// A member has received every place.
    pub(crate) fn receive_all(&mut self, p: ReplicaId)
        ensures value { self.new.configuration ≡ with_all_receipts self.old.configuration p }
        ensures room { self.new.room ≡ self.old.room }
    {
        let from = self.received_by(p) as u64;
        let len = self.ordered.len() as u64;
        for place in from..len {
            self.receive(p, place + 1);
        }
    }

    /// The message of a place, with its sender.
    pub(crate) fn get(&self, place: u64) -> Option<&OrderedMessage<M>>
        ensures { option_map sent_of (option_copied result) ≡ at_place self.now.configuration.ordered place }
    {
        at_place(self.ordered.as_slice(), place)
    }

    pub(crate) fn has_received(&self, p: ReplicaId, place: u64) -> bool
        ensures { result ≡ has_received self.now.configuration p place }
    {
        match at_place(self.ordered.as_slice(), place) {
            Some(placed) => placed.received.contains(p),
            None => false,
        }
    }

    /// The member is known to have received the place, and each of its sender's places before it.
    pub(crate) fn has_received_in_turn(&self, p: ReplicaId, place: u64) -> bool
        ensures { result ≡ true → (earlier : ℕ) → 0 < earlier → earlier ≤ place →
            sender_at self.now.configuration earlier ≡ sender_at self.now.configuration place →
            has_received self.now.configuration p earlier ≡ true }
    {
        match at_place(self.ordered.as_slice(), place) {
            Some(placed) => placed.in_turn.contains(p),
            None => false,
        }
    }

    /// How many places in a row behind the first ones every member has received.
    pub(crate) fn ready(&self, delivered: u64) -> u64
        ensures count { result ≡ ready_in self.now.configuration delivered }
        ensures fits { delivered + result < 2 ^ 64 }
    {
        let len = self.ordered.len() as u64;
        let mut place = delivered.max(self.settled() as u64);
        while place < len {
            if !self.is_received_by_all(place + 1) {
                return place - delivered;
            }
            place += 1;
        }
        place - delivered
    }

    // every member has received the place
    fn is_received_by_all(&self, place: u64) -> bool
        requires from { 1 ≤ place }
        requires to { place ≤ length self.now.configuration.ordered }
        ensures { result ≡ all_received self.now.configuration place }
    {
        match at_place(self.ordered.as_slice(), place) {
            Some(placed) => self.members.is_within(&placed.received),
            None => false,
        }
    }
}
