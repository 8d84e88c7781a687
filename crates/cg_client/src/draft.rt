ghost use Rattle.std.specs.Prelude.{◌≡◌, ◌++◌, ◌∷◌, [], OnOk};
ghost use Rattle.cg_action.specs.ActionLimits.{IsAction, IsActionId};
ghost use Rattle.cg_base.specs.Lists.{Each};
ghost use Rattle.cg_wire.specs.Limits.{IsMsg};
ghost use Rattle.cg_client.specs.Drafts.{no_parts};

use crate::DraftParts;
use cg_action::{Action, Limited};
use cg_base::{ActionId, NoMemory, Row};
use cg_encoded::EncodedMsg;
use cg_report::Reply;
use cg_wire::Msg;
use std::alloc::Global;
use std::marker::Model;

/// The event under way: what it has brought about so far. It has to be spent, by a commit that takes it apart or by
/// `abandon`. Clauses see its parts.
pub struct Draft {
    alloc: Global,
    pub(crate) known: Limited<Action>,
    pub(crate) green: Limited<ActionId>,
    pub(crate) made: Limited<Action>,
    pub(crate) sent: Row<EncodedMsg>,
    pub(crate) replies: Row<Reply>,
    pub(crate) marked_own: bool,
}

impl Model for Draft {
    ghost use Rattle.cg_client.specs.declared.parts.DraftParts.{DraftParts};

    ghost Value = { DraftParts };

    ghost view = { λ d. record {
      known = d.known;
      green = d.green;
      made = d.made;
      sent = d.sent;
      replies = d.replies;
      marked_own = d.marked_own;
    } };
}

impl Draft {
    /// An event begins.
    pub fn new(alloc: Global) -> Draft
        ensures { result ≡ no_parts }
    {
        Draft {
            alloc,
            known: Limited::new(alloc),
            green: Limited::new(alloc),
            made: Limited::new(alloc),
            sent: Row::new(alloc),
            replies: Row::new(alloc),
            marked_own: false,
        }
    }

    /// A message is to be sent. It is spelled at once.
    pub fn send(&mut self, m: Msg) -> Result<(), NoMemory>
        requires { IsMsg m }
        ensures { OnOk result (self.new ≡ record self.old { sent = self.old.sent ++ m ∷ [] }) }
    {
        let encoded = EncodedMsg::seal(self.alloc, m)?;
        self.sent.push(encoded)
    }

    /// The actions newly known, in the order of their marks.
    pub fn known(&self) -> &[Action]
        ensures value { result.now ≡ self.now.known }
        ensures each { Each IsAction self.now.known }
    {
        self.known.as_slice()
    }

    /// The names newly green, in order.
    pub fn green(&self) -> &[ActionId]
        ensures value { result.now ≡ self.now.green }
        ensures each { Each IsActionId self.now.green }
    {
        self.green.as_slice()
    }

    /// The actions made.
    pub fn made(&self) -> &[Action]
        ensures value { result.now ≡ self.now.made }
        ensures each { Each IsAction self.now.made }
    {
        self.made.as_slice()
    }

    /// The messages to be sent.
    pub fn sent(&self) -> &Row<EncodedMsg>
        ensures { result.now ≡ self.now.sent }
    {
        &self.sent
    }

    /// The replies to be given.
    pub fn replies(&self) -> &Row<Reply>
        ensures { result.now ≡ self.now.replies }
    {
        &self.replies
    }

    /// Own actions that weren't delivered became red.
    pub fn marked_own(&self) -> bool
        ensures { result ≡ self.now.marked_own }
    {
        self.marked_own
    }

    /// All of it, for a commit. It takes no memory.
    pub fn into_parts(self) -> DraftParts
        ensures value { result ≡ self }
        ensures known { Each IsAction self.known }
        ensures green { Each IsActionId self.green }
        ensures made { Each IsAction self.made }
    {
        let Draft {
            alloc: _,
            known,
            green,
            made,
            sent,
            replies,
            marked_own,
        } = self;
        DraftParts {
            known: known.into_list(),
            green: green.into_list(),
            made: made.into_list(),
            sent,
            replies,
            marked_own,
        }
    }

    /// The event comes to nothing, as after `NoMemory`.
    pub fn abandon(self) {
        let _ = self.into_parts();
    }
}
