ghost use Rattle.std.specs.Prelude.{◌≡◌};
ghost use Rattle.cg_outcome.specs.Calls.{status_number};

use cg_group::Reason;

/// Which limit was passed.
#[derive(Clone, Copy, Debug, PartialEq, Eq)]
pub enum Limit {
    /// The line has more than 32,768 bytes.
    Line,
    /// The input has more than 8,388,608 bytes.
    Input,
    /// The input has more than 200,000 lines.
    Lines,
    /// The line asks for a step behind the 2,000,000th.
    Steps,
}

/// How a run ended. Lines are counted from 1.
#[derive(Clone, Copy, Debug, PartialEq, Eq)]
pub enum Status {
    /// All of the input was gone through, and `end` stood in it; the schedule of a seed was put; or a replica was seen in
    /// an image.
    Done,
    /// The words are no command.
    Usage,
    /// The line can't be read.
    Syntax {
        line: u64,
        /// Why not, by the number of a `SyntaxReason` of `cg_schedule`.
        reason: u8,
    },
    /// The event of the line isn't admitted.
    Refused {
        line: u64,
        /// The first reason against it.
        reason: Reason,
    },
    /// A take from the input failed, and so the run ended.
    ReadFault,
    /// A put to the output failed, the first that did: of an entry, of a tail, of a summary or of a schedule.
    WriteFault,
    /// The line passes the limit; line 0 says that an image does.
    Limit {
        line: u64,
        what: Limit,
    },
    /// Memory was refused.
    NoMemory,
    /// The input ended, and `end` hadn't stood in it.
    NoEnd {
        /// How many lines the input has.
        lines: u64,
    },
    /// The input is no image of a replica's disk.
    NotAnImage,
    /// The input is an image of a replica's disk on which no state of the replica stands.
    NotAStore,
}

impl Status {
    /// The exit status of the program.
    pub fn number(&self) -> u8
        ensures { result ≡ status_number self.now }
    {
        match self {
            Status::Done => 0,
            Status::Usage => 1,
            Status::Syntax { .. } => 2,
            Status::Refused { .. } => 3,
            Status::ReadFault => 4,
            Status::WriteFault => 5,
            Status::Limit { .. } => 6,
            Status::NoMemory => 7,
            Status::NoEnd { .. } => 8,
            Status::NotAnImage => 10,
            Status::NotAStore => 11,
        }
    }
}
