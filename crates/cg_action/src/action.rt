ghost use Rattle.std.specs.Prelude.{◌≡◌, IfOk};

use crate::commands::copy_commands;
use crate::query::copy_query;
use crate::{CmdList, Query, Shared};
use cg_base::{ActionId, NoMemory, ReplicaId, Row};
use std::alloc::Global;

/// What an action does.
#[derive(PartialEq, Eq)]
pub enum Kind {
    /// Runs at most 16 commands, and then asks the query. Without commands there is a query.
    Update { cmds: CmdList, query: Option<Query> },
    /// Makes the replica a server that counts with this weight, from 1.
    Join(ReplicaId, u8),
    /// Takes the server out.
    Leave(ReplicaId),
}

impl Drop for Kind {
    fn drop(self) {
        match self {
            Kind::Update { cmds: _, query: _ } => {}
            Kind::Join(_, _) => {}
            Kind::Leave(_) => {}
        }
    }
}

/// An action.
#[derive(PartialEq, Eq)]
pub struct Action {
    pub id: ActionId,
    /// Its creator's green count when it was created.
    pub green_line: u64,
    pub kind: Shared<Kind>,
}

impl Drop for Action {
    fn drop(self) {
        let Action {
            id: _,
            green_line: _,
            kind: _,
        } = self;
    }
}

/// Actions, in order.
pub type ActionList = Row<Action>;

impl Kind {
    /// Another one that is the same.
    pub fn copy(&self, alloc: Global) -> Result<Kind, NoMemory>
        ensures { IfOk result (λ kind. kind ≡ self.now) }
    {
        match self {
            Kind::Update { cmds, query } => {
                let cmds = copy_commands(alloc, cmds.as_slice())?;
                let query = copy_query(alloc, query)?;
                Ok(Kind::Update { cmds, query })
            }
            Kind::Join(joiner, weight) => Ok(Kind::Join(*joiner, *weight)),
            Kind::Leave(server) => Ok(Kind::Leave(*server)),
        }
    }
}

impl Action {
    /// Another action that is the same. Both share what they do.
    pub fn copy(&self, alloc: Global) -> Result<Action, NoMemory>
        ensures { IfOk result (λ action. action ≡ self.now) }
    {
        let kind = self.kind.copy(alloc)?;
        Ok(Action {
            id: self.id,
            green_line: self.green_line,
            kind,
        })
    }

    /// What it does.
    pub fn into_kind(self) -> Shared<Kind>
        ensures { result ≡ self.kind }
    {
        let Action {
            id: _,
            green_line: _,
            kind,
        } = self;
        kind
    }
}

/// Other actions that are the same, in the same order.
pub fn copy_actions(alloc: Global, actions: &[Action]) -> Result<ActionList, NoMemory>
    ensures { IfOk result (λ list. list ≡ actions.now) }
{
    let mut copies = Row::new(alloc);
    for action in actions {
        copies.push(action.copy(alloc)?)?;
    }
    Ok(copies)
}
