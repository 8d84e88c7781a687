ghost use Rattle.std.specs.Prelude.{◌≡◌};

use cg_disk::Side;

/// A side of either format: whether its first gate is open, and where its records end if it is of the newer one.
#[derive(Clone, Copy, Debug, PartialEq, Eq)]
pub struct Head {
    pub is_open: bool,
    pub end: u64,
}

/// Both sides.
#[derive(Clone, Copy, Debug, PartialEq, Eq)]
pub struct Heads {
    pub a: Head,
    pub b: Head,
}

impl Heads {
    ghost use Rattle.cg_journal.specs.Heads.{head_on, with_head};

    pub fn on(self, side: Side) -> Head
        ensures { result ≡ head_on side self }
    {
        match side {
            Side::A => self.a,
            Side::B => self.b,
        }
    }

    /// The same with another head on a side.
    pub fn with(self, side: Side, head: Head) -> Heads
        ensures { result ≡ with_head side head self }
    {
        match side {
            Side::A => Heads { a: head, b: self.b },
            Side::B => Heads { a: self.a, b: head },
        }
    }
}
