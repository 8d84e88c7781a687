ghost use Rattle.std.specs.Prelude.{◌≡◌, ◌+◌, IsSome, IfOk};
ghost use Rattle.cg_plan.specs.Plan.{plan_of};
ghost use Rattle.cg_plan.specs.Following.{begun, after_item, Answers};
ghost use Rattle.cg_plan.specs.Progress.{next_item, is_wanted as is_wanted_item, is_done, turn_of};

use crate::making::turns_of;
use crate::place::{item_at, part_at, place_after};
use crate::{Item, Other, Part, SentItem, SentPart};
use cg_base::{NoMemory, ReplicaId};
use cg_knowledge::Summary;
use std::alloc::Global;
use std::marker::Model;

/// A plan, and how far it has been followed. Clauses see its parts, and how many items were accepted.
pub struct Plan {
    turns: Vec<SentPart>,
    current: usize,
    made: u64,
}

impl Drop for Plan {
    fn drop(self) {
        let Plan {
            turns: _,
            current: _,
            made: _,
        } = self;
    }
}

impl Model for Plan {
    ghost use Rattle.cg_plan.specs.Progress.{PlanProgress};
    ghost use Rattle.cg_plan.specs.Place.{IsPlace, items_before};

    ghost Value = { PlanProgress };

    ghost view = { λ p. record { turns = p.turns.items; accepted = items_before p.turns.items p.current p.made } };

    ghost invariant = { λ p. IsPlace p.turns.items p.current p.made };
}

fn is_wanted(next: &Option<SentItem>, from: ReplicaId, i: &Item) -> bool
    ensures { result ≡ is_wanted_item next.now from i.now }
{
    match next {
        None => false,
        Some(sent) => sent.sender == from && sent.item == *i,
    }
}

impl Plan {
    /// The plan that follows from the summaries of all members, in whatever order they stand.
    pub fn make(alloc: Global, summaries: &[Summary]) -> Result<Plan, NoMemory>
        ensures { IfOk result (λ plan. plan ≡ begun (plan_of summaries.now)) }
    {
        let turns = turns_of(alloc, summaries)?;
        Ok(Plan {
            turns,
            current: 0,
            made: 0,
        })
    }

    /// The part that the given replica has to send now. None says that the next item isn't the first of a part of it.
    pub fn turn(&self, me: ReplicaId) -> Option<Part>
        ensures { result ≡ turn_of self.now.turns me self.now.accepted }
    {
        part_at(self.turns.as_slice(), self.current, self.made, me)
    }

    fn next(&self) -> Option<SentItem>
        ensures { result ≡ next_item self.now }
    {
        item_at(self.turns.as_slice(), self.current, self.made)
    }

    fn advance(&mut self)
        requires { IsSome (next_item self.old) }
        ensures { self.new ≡ record self.old { accepted = self.old.accepted + 1 } }
    {
        let (current, made) = place_after(self.turns.as_slice(), self.current, self.made);
        self.current = current;
        self.made = made;
    }

    /// Takes the next item from its sender. Every other item, and one from another sender, is refused and changes nothing.
    pub fn accept(&mut self, from: ReplicaId, i: &Item) -> Result<(), Other>
        ensures answer { Answers self.old from i.now result }
        ensures state { self.new ≡ after_item self.old from i.now }
    {
        let next = self.next();
        if !is_wanted(&next, from, i) {
            return Err(Other {
                want: next.map(|sent| sent.item),
            });
        }
        self.advance();
        Ok(())
    }

    /// Every item was accepted.
    pub fn done(&self) -> bool
        ensures { result ≡ is_done self.now }
    {
        self.current == self.turns.as_slice().len()
    }
}
