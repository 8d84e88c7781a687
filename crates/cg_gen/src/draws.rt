ghost use Rattle.std.specs.Prelude.{◌≡◌, ◌≤◌, ◌<◌};
ghost use Rattle.cg_base.specs.declared.limits.TheConstants.{COUNT_LIMIT};
ghost use Rattle.cg_gen.specs.Generated.{draw, draw_from_one};

use cg_base::ReplicaId;
use std::marker::Model;

/// A sequence of numbers, each found from the one before it. Clauses see the number that it has come to.
#[derive(Clone, Copy)]
pub(crate) struct Draws {
    number: u64,
}

impl Model for Draws {
    ghost use Rattle.std.specs.Prelude.{ℕ};

    ghost Value = { ℕ };

    ghost view = { λ draws. draws.number };

    ghost inverse = { λ n. record { number = n } };
}

impl Draws {
    pub(crate) fn new(seed: u64) -> Draws
        ensures { result ≡ seed }
    {
        Draws { number: seed }
    }

    /// One of the m numbers from 0.
    #[tactic(auto, unfolding(crate::specs::Generated::draw))]
    pub(crate) fn draw(&mut self, m: u64) -> u64
        requires { 1 ≤ m }
        ensures value { result ≡ (draw m self.old).0 }
        ensures next { self.new ≡ (draw m self.old).1 }
        ensures range { result < m }
    {
        self.number = self
            .number
            .wrapping_mul(6_364_136_223_846_793_005)
            .wrapping_add(1_442_695_040_888_963_407);
        (self.number >> 33) % m
    }

    /// One of the m numbers from 1.
    pub(crate) fn draw_from_one(&mut self, m: u64) -> u64
        requires { (1 ≤ m) × (m < COUNT_LIMIT) }
        ensures value { result ≡ (draw_from_one m self.old).0 }
        ensures next { self.new ≡ (draw_from_one m self.old).1 }
        ensures range { (1 ≤ result) × (result ≤ m) }
    {
        1 + self.draw(m)
    }

    /// One of so many replicas.
    pub(crate) fn replica(&mut self, replicas: ReplicaId) -> ReplicaId
        ensures value { result ≡ (draw_from_one replicas self.old).0 }
        ensures next { self.new ≡ (draw_from_one replicas self.old).1 }
    {
        let n = self.draw_from_one(u64::from(replicas.get()));
        ReplicaId::known(n as u8)
    }
}
