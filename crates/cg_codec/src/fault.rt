//! Why bytes could not be read or written.

ghost use Rattle.std.specs.Prelude.{◌≡◌};
ghost use Rattle.cg_codec.specs.declared.fault.CodecFault.TheVariants.{NoMemory as OutOfMemory};

use cg_base::NoMemory;
use std::alloc::{AllocError, AllocFailed};
use thiserror::Error;

/// Why a value can't be read from bytes: the first fault from the left.
/// Offsets count from 0, over all the bytes that the reader was made of.
#[derive(Clone, Copy, Debug, PartialEq, Eq, Error)]
pub enum CodecFault {
    /// The bytes end in the field whose first byte is at this offset.
    #[error("the bytes end in the field at {at}")]
    Short { at: u64 },
    /// The field whose first byte is at this offset has no such value.
    #[error("the field at {at} has no such value")]
    Bad { at: u64 },
    /// Bytes follow the last field. The first of them is at this offset.
    #[error("bytes follow the last field, from {at} on")]
    Rest { at: u64 },
    /// Memory was refused, which says nothing of the bytes.
    #[error("memory was refused")]
    NoMemory,
}

impl CodecFault {
    ghost use Rattle.cg_codec.specs.Fault.{codec_fault_number};

    /// The number of a fault of the bytes.
    pub fn number(&self) -> Option<u8>
        ensures { result ≡ codec_fault_number self.now }
    {
        match self {
            CodecFault::Short { .. } => Some(1),
            CodecFault::Bad { .. } => Some(2),
            CodecFault::Rest { .. } => Some(3),
            CodecFault::NoMemory => None,
        }
    }
}

impl From<NoMemory> for CodecFault {
    ghost from_gives = { λ _ fault. fault ≡ OutOfMemory };

    fn from(_: NoMemory) -> CodecFault {
        CodecFault::NoMemory
    }
}

impl From<AllocError> for CodecFault {
    ghost from_gives = { λ _ fault. fault ≡ OutOfMemory };

    fn from(_: AllocError) -> CodecFault {
        CodecFault::NoMemory
    }
}

impl<T: Drop> From<AllocFailed<T>> for CodecFault {
    ghost from_gives = { λ _ fault. fault ≡ OutOfMemory };

    fn from(_: AllocFailed<T>) -> CodecFault {
        CodecFault::NoMemory
    }
}
