ghost use Rattle.std.specs.Prelude.{◌≡◌};
ghost use Rattle.cg_action.specs.Limits.{IsKind};

use cg_action::Kind;
use std::marker::Model;

/// What a request that is kept asks for. Clauses see it.
pub struct KeptRequest {
    kind: Kind,
}

impl Drop for KeptRequest {
    fn drop(self) {
        let KeptRequest { kind: _ } = self;
    }
}

impl Model for KeptRequest {
    ghost use Rattle.cg_action.specs.declared.action.Kind.{Kind};
    ghost use Rattle.cg_action.specs.Limits.{IsKind};

    ghost Value = { Kind };

    ghost view = { λ r. r.kind };

    ghost invariant = { λ r. IsKind r.kind };
}

impl KeptRequest {
    /// A request that asks for this.
    pub fn new(kind: Kind) -> KeptRequest
        requires { IsKind kind }
        ensures { result ≡ kind }
    {
        KeptRequest { kind }
    }

    /// What it asks for. It takes no memory.
    pub fn into_kind(self) -> Kind
        ensures value { result ≡ self }
        ensures kind { IsKind result }
    {
        let KeptRequest { kind } = self;
        kind
    }
}
