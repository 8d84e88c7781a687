//! Why a line is no event.

ghost use Rattle.std.specs.Prelude.{◌≡◌};
ghost use Rattle.cg_schedule.specs.declared.fault.LineFault.TheVariants.{NoMemory as OutOfMemory};

use cg_base::NoMemory;
use cg_text::TextFault;
use thiserror::Error;

/// Why a line has no reading.
#[derive(Clone, Copy, Debug, PartialEq, Eq, Error)]
pub enum SyntaxReason {
    /// The line isn't UTF-8.
    #[error("the line isn't UTF-8")]
    NotUtf8,
    /// The first token is no event word.
    #[error("the first token is no event word")]
    UnknownWord,
    /// The line ends where a part must stand.
    #[error("the line ends where a part must stand")]
    MissingPart,
    /// A token stands where the line must end, or where `;`, `?` or the end must stand.
    #[error("a token stands where the line must end")]
    ExtraPart,
    /// A number, an identifier or a value without quotes has another spelling, or is out of its range.
    #[error("a number or an identifier has another spelling or is out of its range")]
    BadNumber,
    /// A text isn't quoted as it must be, or has a wrong length; the bytes of a stop aren't pairs of digits.
    #[error("a text isn't quoted as it must be, or has a wrong length")]
    BadText,
    /// Where a command or query word must stand there is none.
    #[error("a token where a command or query word must stand is none")]
    BadCommand,
    /// An identifier isn't above the one before, or the commands are too many.
    #[error("an identifier isn't above the one before, or a 17th command stands")]
    BadList,
    /// The first event isn't `start`, a later one is, or an event follows `end`.
    #[error("the first event isn't `start`, a later one is, or an event follows `end`")]
    Misplaced,
}

impl SyntaxReason {
    ghost use Rattle.cg_schedule.specs.Fault.{syntax_number};

    /// The number that is printed for the reason.
    pub fn number(&self) -> u8
        ensures { result ≡ syntax_number self.now }
    {
        match self {
            SyntaxReason::NotUtf8 => 1,
            SyntaxReason::UnknownWord => 2,
            SyntaxReason::MissingPart => 3,
            SyntaxReason::ExtraPart => 4,
            SyntaxReason::BadNumber => 5,
            SyntaxReason::BadText => 6,
            SyntaxReason::BadCommand => 7,
            SyntaxReason::BadList => 8,
            SyntaxReason::Misplaced => 9,
        }
    }
}

/// Why a line is no event.
#[derive(Clone, Copy, Debug, PartialEq, Eq, Error)]
pub enum LineFault {
    /// The line has no reading.
    #[error("{0}")]
    Syntax(SyntaxReason),
    /// Memory was refused, which says nothing of the line.
    #[error("memory was refused")]
    NoMemory,
}

impl LineFault {
    ghost use Rattle.cg_schedule.specs.Fault.{of_text_fault};

    // what the fault of a text says of the line
    pub(crate) fn of_text(fault: TextFault) -> LineFault
        ensures { result ≡ of_text_fault fault }
    {
        match fault {
            TextFault::NoMemory => LineFault::NoMemory,
            _ => LineFault::Syntax(SyntaxReason::BadText),
        }
    }
}

impl From<NoMemory> for LineFault {
    ghost from_gives = { λ _ fault. fault ≡ OutOfMemory };

    fn from(_: NoMemory) -> LineFault {
        LineFault::NoMemory
    }
}
