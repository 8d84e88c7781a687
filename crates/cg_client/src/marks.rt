//! The marks of actions.
ghost use Rattle.std.specs.Prelude.{◌≡◌, ◌==◌, ◌++◌, suc, IsTrue, OnOk, IfOk, option_map};
ghost use Rattle.cg_base.specs.Cuts.{index_in};
ghost use Rattle.cg_action.specs.ActionLimits.{IsAction};
ghost use Rattle.cg_db.specs.Apply.{apply};
ghost use Rattle.cg_db.specs.Find.{answer, query_of};
ghost use Rattle.cg_client.specs.Drafts.{turn_with};
ghost use Rattle.cg_client.specs.Noting.{Notes};
ghost use Rattle.cg_client.specs.Replica.{State};
ghost use Rattle.cg_client.specs.Marks.{is_unmade, can_be_green, after_owed, is_first, given_to, place_green, mark_green, mark_green_at, mark_red, mark_yellow, marked};
ghost use Rattle.cg_queue.specs.Queue.{marked_red, marked_yellow};

use crate::entries::Entries;
use crate::{Core, Draft, Fifo, drop_own, name_of, note_unknown, put_green};
use cg_action::{Action, Answer, Effect, Kind};
use cg_base::{ActionId, COUNT_LIMIT, NoMemory, Row};
use cg_queue::{Mark, QueueFault, is_next};
use cg_report::Reply;

fn is_owed(owed: &Fifo<ActionId>, id: &ActionId) -> bool
    ensures { result ≡ is_first owed.now id.now }
{
    match owed.first() {
        Some(first) => *first == *id,
        None => false,
    }
}

impl Core {
    #[tactic(auto, unfolding(crate::specs::Marks::is_unmade))]
    fn is_unmade(&self, a: &Action) -> bool
        ensures { result ≡ is_unmade self.now a.now }
    {
        a.id.creator == self.held.id && self.last_created() < a.id.index
    }

    #[tactic(auto, unfolding(crate::specs::Marks::can_be_green))]
    fn can_be_green(&self, a: &Action) -> bool
        ensures value { result ≡ can_be_green self.now a.now }
        ensures next { IsTrue result → a.now.id.index ≡ suc (index_in self.now.queue.green_cut a.now.id.creator) }
    {
        is_next(a.id.index, self.held.queue.green_index(a.id.creator)) && !self.is_unmade(a)
    }

    /// Marks an action red, where it is the next of its creator.
    #[tactic(auto, unfolding(crate::specs::Marks::mark_red))]
    pub fn mark_red(&mut self, draft: &mut Draft, a: Action) -> Result<(), NoMemory>
        requires { IsAction a }
        ensures { OnOk result ((state : State) →
            turn_with self.new state draft.new ≡ mark_red (turn_with self.old state draft.old) a) }
    {
        if self.is_unmade(&a) {
            return Ok(());
        }
        self.place_red(draft, a)
    }

    pub(crate) fn place_red(&mut self, draft: &mut Draft, a: Action) -> Result<(), NoMemory>
        requires { IsAction a }
        ensures { OnOk result ((state : State) → turn_with self.new state draft.new ≡
            marked (turn_with self.old state draft.old) a (marked_red self.old.queue a)) }
    {
        let copy = a.copy(self.held.alloc)?;
        let mark = self.held.queue.mark_red(a);
        self.note_mark(draft, copy, mark)
    }

    // An action that the queue has placed is newly known, and isn't waited for any more.
    fn note_mark(
        &mut self,
        draft: &mut Draft,
        a: Action,
        mark: Result<Mark, QueueFault>,
    ) -> Result<(), NoMemory>
        requires { IsAction a }
        ensures { OnOk result (Notes self.old draft.old a mark self.new draft.new) }
    {
        match mark {
            Ok(Mark::Placed) => {
                let id = name_of(&a);
                drop_own(&mut self.held.own, &id);
                draft.known.push(a)
            }
            Ok(Mark::Known) => Ok(()),
            Err(QueueFault::Gap { .. }) => Ok(()),
            Err(QueueFault::NoMemory) => Err(NoMemory),
        }
    }

    /// Marks an action red, and yellow.
    #[tactic(auto, unfolding(crate::specs::Marks::mark_yellow))]
    pub fn mark_yellow(&mut self, draft: &mut Draft, a: Action) -> Result<(), NoMemory>
        requires { IsAction a }
        ensures { OnOk result ((state : State) →
            turn_with self.new state draft.new ≡ mark_yellow (turn_with self.old state draft.old) a) }
    {
        if self.is_unmade(&a) {
            return Ok(());
        }
        self.place_yellow(draft, a)
    }

    fn place_yellow(&mut self, draft: &mut Draft, a: Action) -> Result<(), NoMemory>
        requires { IsAction a }
        ensures { OnOk result ((state : State) → turn_with self.new state draft.new ≡
            marked (turn_with self.old state draft.old) a (marked_yellow self.old.queue a)) }
    {
        let copy = a.copy(self.held.alloc)?;
        let mark = self.held.queue.mark_yellow(a);
        self.note_mark(draft, copy, mark)
    }

    /// Marks an action green at the next place, where it is the next green one of its creator.
    #[tactic(auto, unfolding(crate::specs::Marks::mark_green))]
    pub fn mark_green(&mut self, draft: &mut Draft, a: Action) -> Result<(), NoMemory>
        requires { IsAction a }
        ensures { OnOk result ((state : State) →
            turn_with self.new state draft.new ≡ mark_green (turn_with self.old state draft.old) a) }
    {
        if !self.can_be_green(&a) {
            return Ok(());
        }
        self.place_green(draft, a)
    }

    /// Marks an action green at a place, where that is the next one.
    pub fn mark_green_at(&mut self, draft: &mut Draft, at: u64, a: Action) -> Result<(), NoMemory>
        requires { IsAction a }
        ensures { OnOk result ((state : State) →
            turn_with self.new state draft.new ≡ mark_green_at (turn_with self.old state draft.old) at a) }
    {
        if !is_next(at, self.held.queue.green_count()) {
            return Ok(());
        }
        self.mark_green(draft, a)
    }

    #[tactic(auto, unfolding(crate::specs::Marks::place_green))]
    fn place_green(&mut self, draft: &mut Draft, a: Action) -> Result<(), NoMemory>
        requires action { IsAction a }
        requires next { a.id.index ≡ suc (index_in self.old.queue.green_cut a.id.creator) }
        ensures { OnOk result ((state : State) →
            turn_with self.new state draft.new ≡ place_green (turn_with self.old state draft.old) a) }
    {
        let count = self.held.queue.green_count();
        if count >= COUNT_LIMIT {
            return Err(NoMemory);
        }
        let id = name_of(&a);
        note_unknown(self.held.alloc, &self.held.queue, &mut draft.known, &a)?;
        draft.green.push(id)?;
        let held = &mut *self.held;
        let effect = held.db.apply(&a)?;
        reply(&held.db, &mut held.owed, &mut draft.replies, &a, effect)?;
        drop_own(&mut held.own, &id);
        held.members.note_green(count + 1, &a);
        put_green(&mut held.queue, count + 1, a)
    }
}

pub(crate) fn drop_owed(owed: &mut Fifo<ActionId>, id: &ActionId)
    ensures { owed.new ≡ after_owed owed.old id.now }
{
    if is_owed(owed, id) {
        owed.drop_first();
    }
}

fn answer_to(db: &Entries, kind: &Kind) -> Result<Option<Answer>, NoMemory>
    ensures { IfOk result (λ found. found ≡ option_map (answer db.now) (query_of kind.now)) }
{
    match kind {
        Kind::Update { query, .. } => match query {
            Some(query) => {
                let found = db.answer(query)?;
                Ok(Some(found))
            }
            None => Ok(None),
        },
        Kind::Join(..) => Ok(None),
        Kind::Leave(_) => Ok(None),
    }
}

// the reply is given where it is owed
fn reply(
    db: &Entries,
    owed: &mut Fifo<ActionId>,
    replies: &mut Row<Reply>,
    a: &Action,
    effect: Effect,
) -> Result<(), NoMemory>
    ensures owed { OnOk result (owed.new ≡ after_owed owed.old a.now.id) }
    ensures replies { OnOk result (replies.new ≡ replies.old
        ++ given_to owed.old a.now (record { db = db.now; effect = effect })) }
{
    let id = name_of(a);
    if is_owed(owed, &id) {
        let answer = answer_to(db, a.kind.get())?;
        replies.push(Reply { id, effect, answer })?;
    }
    drop_owed(owed, &id);
    Ok(())
}
