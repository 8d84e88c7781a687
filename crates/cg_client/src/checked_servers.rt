ghost use Rattle.std.specs.Prelude.{◌≡◌, ◌≤◌};
ghost use Rattle.cg_base.specs.declared.limits.TheConstants.{COUNT_LIMIT};
ghost use Rattle.cg_base.specs.Sets.{IsSet};
ghost use Rattle.cg_action.specs.ActionLimits.{IsAction};
ghost use Rattle.cg_members.specs.Listed.{AreServers};
ghost use Rattle.cg_members.specs.Servers.{starting, after_green, weight_of, white_line};
ghost use Rattle.cg_base.specs.Lists.{Each};
ghost use Rattle.cg_records.specs.Limits.{IsNumber};

use cg_action::Action;
use cg_base::{IdSet, ReplicaId, WeightSet};
use cg_members::Members;
use std::marker::Model;

/// The servers, each with a line below 2 ^ 63, and those that have left. Clauses see them.
pub struct CheckedServers {
    members: Members,
}

impl Drop for CheckedServers {
    fn drop(self) {
        let CheckedServers { members: _ } = self;
    }
}

impl Model for CheckedServers {
    ghost use Rattle.cg_members.specs.Members.{Members};
    ghost use Rattle.cg_base.specs.Lists.{Each};
    ghost use Rattle.cg_records.specs.Limits.{IsNumber};

    ghost Value = { Members };

    ghost view = { λ s. s.members };

    ghost invariant = { λ s. Each (λ server. IsNumber server.line) s.members.servers };
}

impl CheckedServers {
    /// The servers of the start, each with the line 0.
    pub fn start(set: WeightSet) -> CheckedServers
        ensures { result ≡ starting set }
    {
        CheckedServers {
            members: Members::start(set),
        }
    }

    /// These servers.
    pub fn of(members: Members) -> CheckedServers
        requires { Each (λ server. IsNumber server.line) members.servers }
        ensures { result ≡ members }
    {
        CheckedServers { members }
    }

    /// An action is green at a place.
    pub fn note_green(&mut self, at: u64, a: &Action)
        requires action { IsAction a.now }
        requires few { at ≤ COUNT_LIMIT }
        ensures { self.new ≡ after_green self.old at a.now }
    {
        self.members.note_green(at, a);
    }

    /// The weight of a server, 0 where it is none.
    pub fn weight(&self, id: ReplicaId) -> u8
        ensures { result ≡ weight_of self.now.servers id }
    {
        self.members.weight(id)
    }

    /// The servers that have left.
    pub fn left(&self) -> IdSet
        ensures { result ≡ self.now.left }
    {
        self.members.left()
    }

    /// Up to where all servers are known to have come, if there is a server.
    pub fn white_line(&self) -> Option<u64>
        ensures { result ≡ white_line self.now }
    {
        self.members.white_line()
    }

    /// The servers, with their lines and weights, and those that have left.
    pub fn members(&self) -> &Members
        ensures value { result.now ≡ self.now }
        ensures lines { Each (λ server. IsNumber server.line) self.now.servers }
    {
        &self.members
    }

    /// What always holds of the servers, and of those that have left.
    pub(crate) fn holds(&self)
        ensures servers { AreServers self.now.servers }
        ensures lines { Each (λ server. IsNumber server.line) self.now.servers }
        ensures left { IsSet self.now.left }
    {
        self.members.holds();
    }
}
