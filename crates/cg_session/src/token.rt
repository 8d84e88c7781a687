ghost use Rattle.std.specs.Prelude.{◌≡◌, Ok, Err, IfErr, OnErr, OnOk};
ghost use Rattle.cg_base.specs.Ids.{has_name};

use crate::action_key::ActionKey;
use cg_base::{ActionId, NoMemory};
use indexmap::IndexSet;
use std::alloc::Global;
use std::marker::Model;

/// Why a session reads nothing.
#[derive(Clone, Copy, Debug, PartialEq, Eq)]
pub struct BehindErr {
    /// The position of what was to be read.
    pub have: u64,
    /// The position that the session has seen.
    pub want: u64,
}

/// What a session has seen. Clauses see its position, and the names of the actions that it wrote in the order of the
/// writes. A name is found in one look, however many there are.
pub struct Token {
    position: u64,
    written: IndexSet<ActionKey>,
}

impl Drop for Token {
    fn drop(self) {
        let Token {
            position: _,
            written: _,
        } = self;
    }
}

impl Model for Token {
    ghost use Rattle.std.specs.Prelude.{map};
    ghost use Rattle.cg_session.specs.ActionKey.{id_of};
    ghost use Rattle.cg_session.specs.Token.{Token};

    ghost Value = { Token };

    ghost view = { λ t. record { position = t.position; written = map id_of t.written.keys } };
}

impl Token {
    ghost use Rattle.cg_session.specs.Token.{new_token, read, wrote, raises, replied};

    /// The token of a session that has seen nothing.
    pub fn new(alloc: Global) -> Token
        ensures { result ≡ new_token }
    {
        Token {
            position: 0,
            written: IndexSet::new(alloc),
        }
    }

    /// How far in the global order the session has seen it.
    pub fn position(&self) -> u64
        ensures { result ≡ self.now.position }
    {
        self.position
    }

    /// Reads a state at a position, which is what the session has seen from here on. Where that is below what it has
    /// seen, nothing is read.
    pub fn read(&mut self, pos: u64) -> Result<(), BehindErr>
        ensures ok { OnOk result (read self.old pos ≡ Ok self.new) }
        ensures behind { IfErr result (λ b. read self.old pos ≡ Err b) }
        ensures err { OnErr result (self.new ≡ self.old) }
    {
        if pos < self.position {
            return Err(BehindErr {
                have: pos,
                want: self.position,
            });
        }
        self.position = pos;
        Ok(())
    }

    /// The session wrote the action.
    pub fn wrote(&mut self, id: ActionId) -> Result<(), NoMemory>
        ensures ok { OnOk result (self.new ≡ wrote self.old id) }
        ensures err { OnErr result (self.new ≡ self.old) }
    {
        self.written.insert(ActionKey::of(&id))?;
        Ok(())
    }

    /// The reply to an action at its place in the global order. True says that the session wrote the action and that
    /// the place is above what it has seen; the place is then what it has seen.
    pub fn replied(&mut self, id: ActionId, place: u64) -> bool
        ensures told { result ≡ raises self.old id place }
        ensures new { self.new ≡ replied self.old id place }
    {
        let rises = self.has_written(&id) && self.position < place;
        if rises {
            self.position = place;
        }
        rises
    }

    fn has_written(&self, id: &ActionId) -> bool
        ensures { result ≡ has_name self.now.written id.now }
    {
        self.written.contains(&ActionKey::of(id))
    }
}
