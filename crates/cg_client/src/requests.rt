//! Requests, created at once or kept.
ghost use Rattle.std.specs.Prelude.{◌≡◌, ◌++◌, ◌∷◌, ◌<◌, [], fold, OnOk};
ghost use Rattle.cg_action.specs.Limits.{IsKind};
ghost use Rattle.cg_client.specs.Drafts.{turn_with};
ghost use Rattle.cg_client.specs.Replica.{State};
ghost use Rattle.cg_client.specs.Requests.{create, create_kept};

use crate::{Core, Draft, KeptRequest};
use cg_action::{Action, Kind, Shared};
use cg_base::{ActionId, COUNT_LIMIT, NoMemory, Row};
use cg_wire::Msg;
use std::mem::replace;

impl Core {
    /// Keeps a request until it can be created.
    pub fn keep(&mut self, kind: Kind) -> Result<(), NoMemory>
        requires { IsKind kind }
        ensures { OnOk result (self.new ≡ record self.old { buffered = self.old.buffered ++ kind ∷ [] }) }
    {
        self.held.buffered.push(KeptRequest::new(kind))
    }

    /// The requests that are kept are no longer kept.
    pub fn empty_buffer(&mut self)
        ensures { self.new ≡ record self.old { buffered = [] } }
    {
        self.held.buffered = Row::new(self.held.alloc);
    }

    /// The action of a request gets the next index; it is the replica's own, and is sent.
    #[tactic(auto, unfolding(crate::specs::Requests::create))]
    pub fn create(&mut self, draft: &mut Draft, kind: Kind) -> Result<(), NoMemory>
        requires { IsKind kind }
        ensures { OnOk result ((state : State) →
            turn_with self.new state draft.new ≡ create (turn_with self.old state draft.old) kind) }
    {
        let created = self.last_created();
        if created >= COUNT_LIMIT {
            return Err(NoMemory);
        }
        let index = created + 1;
        let id = ActionId {
            creator: self.held.id,
            index,
        };
        let green_line = self.held.queue.green_count();
        let kind = Shared::new(self.held.alloc, kind)?;
        let action = Action {
            id,
            green_line,
            kind,
        };
        draft.made.push(action.copy(self.held.alloc)?)?;
        draft.send(Msg::Action(action.copy(self.held.alloc)?))?;
        self.held.owed.push(id)?;
        self.held.own.push(action)
    }

    /// The kept requests are created.
    #[tactic(auto, unfolding(crate::specs::Requests::create_kept))]
    pub fn create_kept(&mut self, draft: &mut Draft) -> Result<(), NoMemory>
        ensures { OnOk result ((state : State) →
            turn_with self.new state draft.new ≡ create_kept (turn_with self.old state draft.old)) }
    {
        let none = Row::new(self.held.alloc);
        let kept = replace(&mut self.held.buffered, none);
        self.create_all(draft, kept)
    }

    fn create_all(&mut self, draft: &mut Draft, kept: Row<KeptRequest>) -> Result<(), NoMemory>
        ensures { OnOk result ((state : State) →
            turn_with self.new state draft.new ≡ fold create (turn_with self.old state draft.old) kept) }
    {
        for request in kept.into_vec() {
            self.create(draft, request.into_kind())?;
        }
        Ok(())
    }
}
