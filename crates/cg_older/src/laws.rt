ghost use Rattle.std.specs.Prelude.{◌≡◌, ◌<◌, ℕ, false, List, Some};
ghost use Rattle.cg_base.specs.declared.limits.TheConstants.{COUNT_LIMIT};
ghost use Rattle.cg_disk_records.specs.Agreeing.{Agrees};
ghost use Rattle.cg_disk_records.specs.Limits.{IsStored};
ghost use Rattle.cg_disk_records.specs.Parts.{Saved};
ghost use Rattle.cg_disk_records.specs.Stored.{Stored};
ghost use Rattle.cg_older.specs.Bytes.{spelled_old_checkpoint};
ghost use Rattle.cg_older.specs.Older.{old_checkpoint_in, has_weights};

use cg_disk_records::{checkpoints_are_exact, lists_are_exact, parts_are_exact};

/// A state in which no weight is above 1 is read again from its checkpoint of the older format, and each checkpoint
/// that is read leaves room for many later generations.
pub fn old_checkpoints_are_exact()
    ensures again { (id generation : ℕ) (s : Stored) → generation < COUNT_LIMIT → s.id ≡ id → IsStored s → Agrees s →
        has_weights s ≡ false → old_checkpoint_in id (spelled_old_checkpoint generation s) ≡
        Some (record { generation = generation; content = s }) }
    ensures room { (id : ℕ) (bytes : List ℕ) (x : Saved) → old_checkpoint_in id bytes ≡ Some x → x.generation < COUNT_LIMIT }
{
    lists_are_exact();
    parts_are_exact();
    checkpoints_are_exact();
}
