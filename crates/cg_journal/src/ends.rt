ghost use Rattle.std.specs.Prelude.{◌≡◌};

use cg_disk::Side;

/// Where the records of each side end, just past the gate behind the last one.
#[derive(Clone, Copy, Debug, PartialEq, Eq)]
pub struct Ends {
    pub a: u64,
    pub b: u64,
}

impl Ends {
    ghost use Rattle.cg_journal.specs.Held.{end_on, with_end};

    pub fn on(self, side: Side) -> u64
        ensures { result ≡ end_on side self }
    {
        match side {
            Side::A => self.a,
            Side::B => self.b,
        }
    }

    /// The ends with another one on a side.
    pub fn with(self, side: Side, end: u64) -> Ends
        ensures { result ≡ with_end side end self }
    {
        match side {
            Side::A => Ends { a: end, b: self.b },
            Side::B => Ends { a: self.a, b: end },
        }
    }
}
