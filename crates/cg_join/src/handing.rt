//! The pieces of a snapshot are handed to its joiner.
ghost use Rattle.std.specs.Prelude.{◌≡◌, ◌+◌, ◌≤◌, ◌<◌, length, take, suc, OnOk, OnErr};
ghost use Rattle.cg_join.specs.Handing.{IsTaking, with_parts};

use crate::{JoinErr, Joiner, SnapshotWriter, snapshots_are_taken};
use cg_base::NoMemory;
use cg_disk::Disk;

/// The joiner takes the next pieces of the snapshot, so many. Where memory was refused it has taken those in front.
pub fn hand_pieces<D: Disk>(
    writer: &SnapshotWriter,
    joiner: &mut Joiner<D>,
    count: u64,
) -> Result<(), NoMemory>
    requires takes { IsTaking writer.now joiner.old }
    requires there { length joiner.old.parts + count ≤ length writer.now.parts }
    ensures pieces { OnOk result (joiner.new ≡
        with_parts joiner.old (take (length joiner.old.parts + count) writer.now.parts)) }
    ensures takes { IsTaking writer.now joiner.new }
{
    for _ in 0..count {
        hand_piece(writer, joiner)?;
    }
    Ok(())
}

fn hand_piece<D: Disk>(writer: &SnapshotWriter, joiner: &mut Joiner<D>) -> Result<(), NoMemory>
    requires takes { IsTaking writer.now joiner.old }
    requires there { length joiner.old.parts < length writer.now.parts }
    ensures ok { OnOk result (joiner.new ≡
        with_parts joiner.old (take (suc (length joiner.old.parts)) writer.now.parts)) }
    ensures err { OnErr result (joiner.new ≡ joiner.old) }
{
    snapshots_are_taken();
    writer.holds();
    let bytes = writer.piece(joiner.taken() + 1)?;
    match joiner.piece(bytes.as_slice()) {
        Ok(_last) => Ok(()),
        Err(JoinErr::NoMemory) => Err(NoMemory),
        Err(_) => unreachable!(),
    }
}
