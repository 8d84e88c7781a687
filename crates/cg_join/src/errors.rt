ghost use Rattle.std.specs.Prelude.{◌≡◌};
ghost use Rattle.cg_join.specs.Taking.{bad};

use crate::SnapshotName;
use cg_codec::CodecFault;
use thiserror::Error;

/// Why a piece isn't taken.
#[derive(Clone, Copy, Debug, PartialEq, Eq, Error)]
pub enum JoinErr {
    /// The bytes are no piece; this is the offset of the first that can't be read.
    #[error("the bytes at {at} are of no piece")]
    BadPiece {
        at: u64,
    },
    /// It is one of another snapshot.
    #[error("the piece is one of another snapshot")]
    OtherSnapshot {
        want: SnapshotName,
        got: SnapshotName,
    },
    /// It isn't the next one.
    #[error("piece {got} came where piece {want} is the next")]
    OutOfTurn {
        want: u64,
        got: u64,
    },
    /// Memory was refused.
    #[error("memory was refused")]
    NoMemory,
}

pub(crate) fn bad(fault: CodecFault) -> JoinErr
    ensures { result ≡ bad fault }
{
    match fault {
        CodecFault::Short { at } => JoinErr::BadPiece { at },
        CodecFault::Bad { at } => JoinErr::BadPiece { at },
        CodecFault::Rest { at } => JoinErr::BadPiece { at },
        CodecFault::NoMemory => JoinErr::NoMemory,
    }
}
