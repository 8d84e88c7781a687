//! Why bytes are not the spelling of a value.

ghost use Rattle.std.specs.Prelude.{◌≡◌};
ghost use Rattle.cg_text.specs.declared.fault.TextFault.TheVariants.{NoMemory as OutOfMemory};

use cg_base::NoMemory;
use std::alloc::{AllocError, AllocFailed};
use thiserror::Error;

/// Why bytes are not the spelling of a value: first by how they are spelled, and then by the size of
/// what they spell.
#[derive(Clone, Copy, Debug, PartialEq, Eq, Error)]
pub enum TextFault {
    /// The bytes are no number in plain decimal.
    #[error("no number in plain decimal")]
    NotANumber,
    /// The number is out of the type's range.
    #[error("the number is out of range")]
    TooLarge,
    /// The bytes are no text between quotes.
    #[error("no text between quotes")]
    BadQuote,
    /// The text has more bytes than it may have.
    #[error("the text is too long")]
    TooLong,
    /// Memory was refused, which says nothing of the bytes.
    #[error("memory was refused")]
    NoMemory,
}

impl TextFault {
    ghost use Rattle.cg_text.specs.Fault.{text_fault_number};

    /// The number of a fault of the bytes.
    pub fn number(&self) -> Option<u8>
        ensures { result ≡ text_fault_number self.now }
    {
        match self {
            TextFault::NotANumber => Some(1),
            TextFault::TooLarge => Some(2),
            TextFault::BadQuote => Some(3),
            TextFault::TooLong => Some(4),
            TextFault::NoMemory => None,
        }
    }
}

impl From<NoMemory> for TextFault {
    ghost from_gives = { λ _ fault. fault ≡ OutOfMemory };

    fn from(_: NoMemory) -> TextFault {
        TextFault::NoMemory
    }
}

impl From<AllocError> for TextFault {
    ghost from_gives = { λ _ fault. fault ≡ OutOfMemory };

    fn from(_: AllocError) -> TextFault {
        TextFault::NoMemory
    }
}

impl<T: Drop> From<AllocFailed<T>> for TextFault {
    ghost from_gives = { λ _ fault. fault ≡ OutOfMemory };

    fn from(_: AllocFailed<T>) -> TextFault {
        TextFault::NoMemory
    }
}
