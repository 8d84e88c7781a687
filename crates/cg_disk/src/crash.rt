//! What a crash leaves of the bytes of a side.
ghost use Rattle.std.specs.Prelude.{◌≡◌, IfOk, reverse};
ghost use Rattle.cg_disk.specs.State.{filled};
ghost use Rattle.cg_disk.specs.Undo.{side_after};

use crate::written::{Written, before_writes, highest_end, is_among, lowest_offset};
use cg_base::NoMemory;
use std::alloc::Global;

/// The bytes after a crash with this fill. They stay where they are, and the offsets from the lowest to the highest written
/// one alone are gone through.
pub fn bytes_left(
    alloc: Global,
    bytes: Vec<u8>,
    writes: &[Written],
    fill: &[u8],
) -> Result<Vec<u8>, NoMemory>
    ensures { IfOk result (λ left. left.items ≡ filled (side_after bytes.items (reverse writes.now)) fill.now) }
{
    let from = lowest_offset(writes, bytes.len());
    let to = highest_end(writes, bytes.len());
    let old = before_writes(alloc, &bytes, from, writes)?;
    let mut left = bytes;
    let mut used = 0;
    for offset in from..to {
        if is_among(writes, offset) {
            if used < fill.len() {
                left[offset] = fill[used];
                used += 1;
            } else if offset - from < old.len() {
                left[offset] = old[offset - from];
            } else {
                left.truncate(offset);
                return Ok(left);
            }
        }
    }
    Ok(left)
}
