ghost use Rattle.std.specs.Prelude.{◌≡◌, [], ◌∷◌, ◌==◌, nat_lt, not, length, if◌then◌else◌, true, List, filter, position, is_some, OnOk, OnErr, MatchOption};
ghost use Rattle.std.specs.Option.{option_copied};
ghost use Rattle.std.specs.List.{prefix_len};
ghost use Rattle.cg_base.specs.Sets.{IsId, with_member};
ghost use Rattle.cg_group.specs.State.{Standing, with_standing};
ghost use Rattle.cg_group.specs.Rosters.{found, changing, waiting, handed_so_far, with_unordered, waits_of, conf_of, is_sender, senders_of, IsRoster};

use crate::Phase;
use crate::member::Member;
use cg_base::{IdSet, NoMemory, ReplicaId};
use std::alloc::Global;
use std::marker::Model;

/// The replicas that are up, ascending.
#[derive(Drop)]
pub(crate) struct Roster<M> {
    members: Vec<Member<M>>,
}

impl<M> Model for Roster<M> {
    ghost use Rattle.std.specs.Prelude.{List};
    ghost use Rattle.cg_group.specs.State.{Standing};
    ghost use Rattle.cg_group.specs.Rosters.{IsRoster};

    ghost Value = { List (Standing M) };

    ghost view = { λ r. r.members.items };

    ghost invariant = { λ r. IsRoster r.members.items };
}

// where a replica stands, from 0. The identifiers ascend from 1, so its place is below its number: it is looked for from
// there backwards, and is the first one there where all replicas below it are up
fn place_of<M>(members: &[Member<M>], p: ReplicaId) -> Option<usize>
    requires { IsRoster members.now }
    ensures { result ≡ position (λ s. s.id == p) members.now }
{
    let number = p.get();
    let mut left = members.len().min(usize::from(number));
    while left > 0 {
        left -= 1;
        let id = members[left].id().get();
        if id == number {
            return Some(left);
        }
        if id < number {
            return None;
        }
    }
    None
}

// the set, with a regular replica whose messages wait for a place
fn with_sender<M>(set: IdSet, member: &Member<M>) -> IdSet
    ensures { result ≡ (if is_sender member.now then with_member set member.now.id else set) }
{
    let mut more = set;
    if member.regular_in() != 0 && member.unordered() != 0 {
        more.add(member.id());
    }
    more
}

// where a replica that isn't up belongs, from 0
fn place_for<M>(members: &[Member<M>], p: ReplicaId) -> usize
    ensures place { result ≡ prefix_len (λ s. nat_lt s.id p) members.now }
    ensures range { IsId p }
{
    let number = p.get();
    members.iter().take_while(|m| m.id().get() < number).count()
}

impl<M> Roster<M> {
    pub(crate) fn new(alloc: Global) -> Roster<M>
        ensures { result ≡ [] }
    {
        Roster {
            members: Vec::new(alloc),
        }
    }

    pub(crate) fn find(&self, p: ReplicaId) -> Option<&Member<M>>
        ensures { option_copied result ≡ found self.now p }
    {
        let members = self.members.as_slice();
        match place_of(members, p) {
            Some(i) => Some(&members[i]),
            None => None,
        }
    }

    /// The configuration in which a replica is regular, 0 for none.
    pub(crate) fn regular_in(&self, p: ReplicaId) -> u64
        ensures { result ≡ conf_of self.now p }
    {
        match self.find(p) {
            Some(member) => member.regular_in(),
            None => 0,
        }
    }

    /// How many messages of a replica wait for a place.
    pub(crate) fn waiting(&self, p: ReplicaId) -> usize
        ensures { result ≡ length (waits_of self.now p) }
    {
        match self.find(p) {
            Some(member) => member.unordered(),
            None => 0,
        }
    }

    /// The regular replicas whose messages wait for a place.
    pub(crate) fn senders(&self) -> IdSet
        ensures { result ≡ senders_of self.now }
    {
        let mut senders = IdSet::empty();
        for member in self.members.as_slice() {
            senders = with_sender(senders, member);
        }
        senders
    }

    pub(crate) fn as_slice(&self) -> &[Member<M>]
        ensures { result.now ≡ self.now }
    {
        self.members.as_slice()
    }

    /// What always holds of a roster: the replicas ascend.
    pub(crate) fn holds(&self)
        ensures { IsRoster self.now }
    {
        let _ = &self.members;
    }

    /// A replica that isn't up comes up.
    pub(crate) fn add(&mut self, member: Member<M>) -> Result<(), NoMemory>
    where
        M: Drop,
        requires { found self.old member.id ≡ None }
        ensures ok { OnOk result (self.new ≡ with_standing self.old member) }
        ensures err { OnErr result (self.new ≡ self.old) }
    {
        let place = place_for(self.members.as_slice(), member.id());
        self.members.insert(place, member)?;
        Ok(())
    }

    /// A replica goes down, where it is up.
    pub(crate) fn remove(&mut self, p: ReplicaId)
    where
        M: Drop,
        ensures { self.new ≡ filter (λ s. not (s.id == p)) self.old }
    {
        match place_of(self.members.as_slice(), p) {
            Some(i) => {
                let _gone = self.members.remove(i);
            }
            None => {}
        }
    }

    /// A message of a replica that is up waits for a place.
    pub(crate) fn send(&mut self, p: ReplicaId, message: M) -> Result<(), NoMemory>
    where
        M: Drop,
        ensures ok { OnOk result (self.new ≡ changing (λ s. waiting s message) self.old p) }
        ensures err { OnErr result (self.new ≡ self.old) }
    {
        match place_of(self.members.as_slice(), p) {
            Some(i) => {
                let member = &mut self.members[i];
                member.send(message)
            }
            None => Ok(()),
        }
    }

    /// The oldest message of a replica leaves, if there is one.
    pub(crate) fn take_oldest(&mut self, p: ReplicaId) -> Option<M>
        ensures { MatchOption result
            ((self.new ≡ self.old) × (waits_of self.old p ≡ []))
            (λ m. (s : Standing M) × (rest : List M) × (found self.old p ≡ Some s) × (s.unordered ≡ m ∷ rest)
            × (self.new ≡ with_standing self.old (with_unordered s rest))) }
    {
        match place_of(self.members.as_slice(), p) {
            Some(i) => {
                let member = &mut self.members[i];
                member.take_oldest()
            }
            None => None,
        }
    }

    /// A replica that is up was handed so many places.
    pub(crate) fn hand_out(&mut self, p: ReplicaId, count: u64)
        ensures { self.new ≡ changing (λ s. handed_so_far s count) self.old p }
    {
        match place_of(self.members.as_slice(), p) {
            Some(i) => {
                let member = &mut self.members[i];
                member.hand_out(count);
            }
            None => {}
        }
    }

    /// A replica that is up goes into another phase.
    pub(crate) fn enter(&mut self, p: ReplicaId, phase: Phase, delivered: u64)
    where
        M: Drop,
        requires { is_some (found self.old p) ≡ true }
        ensures { self.new ≡ with_standing self.old (record {
          id = p;
          phase = phase;
          delivered = delivered;
          unordered = [];
        }) }
    {
        match place_of(self.members.as_slice(), p) {
            Some(i) => {
                let member = &mut self.members[i];
                member.enter(phase, delivered);
            }
            None => {}
        }
    }
}
