ghost use Rattle.std.specs.Prelude.{◌≡◌, ◌↔◌, IsSome, IfSome};

use std::marker::Model;

/// The name of a replica, a number from 1 to 32. Clauses see the number.
#[derive(Clone, Copy, Debug, PartialEq, Eq, PartialOrd, Ord)]
pub struct ReplicaId {
    number: u8,
}

impl Model for ReplicaId {
    ghost use Rattle.std.specs.Prelude.{ℕ};
    ghost use Rattle.cg_base.specs.Sets.{IsId};

    ghost Value = { ℕ };

    ghost view = { λ a. a.number };

    ghost invariant = { λ a. IsId a.number };

    ghost inverse = { λ n. record { number = n } };
}

impl ReplicaId {
    ghost use Rattle.cg_base.specs.Sets.{IsId};

    /// The greatest number that names a replica.
    pub const MAX: u8 = 32;

    /// None says that the number names no replica.
    pub fn new(n: u8) -> Option<ReplicaId>
        ensures given { IsSome result ↔ IsId n }
        ensures value { IfSome result (λ id. id ≡ n) }
    {
        if n >= 1 && n <= 32 {
            Some(ReplicaId { number: n })
        } else {
            None
        }
    }

    /// The identifier with a number that is known to be one.
    pub fn known(n: u8) -> ReplicaId
        requires { IsId n }
        ensures { result ≡ n }
    {
        ReplicaId { number: n }
    }

    /// The number.
    pub fn get(&self) -> u8
        ensures value { result ≡ self.now }
        ensures range { IsId self.now }
    {
        self.number
    }

    /// What always holds of an identifier.
    pub fn holds(&self)
        ensures { IsId self.now }
    {
        let _ = &self.number;
    }
}
