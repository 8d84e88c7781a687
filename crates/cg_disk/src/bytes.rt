//! Writes to bytes in memory.
ghost use Rattle.std.specs.Prelude.{◌≡◌, ◌+◌, ◌<◌, ◌≤◌, ◌-◌, ◌++◌, min, length, OnOk, OnErr, IfOk, take, drop};
ghost use Rattle.cg_base.specs.declared.limits.TheConstants.{NUMBER_LIMIT};
ghost use Rattle.cg_disk.specs.Writes.{overwritten};

use cg_base::NoMemory;
use std::alloc::Global;

/// Writes over the bytes from an offset on, and past their end.
pub fn overwrite(bytes: &mut Vec<u8>, offset: usize, new: &[u8]) -> Result<(), NoMemory>
    requires { offset ≤ length bytes.old.items }
    ensures ok { OnOk result (bytes.new.items ≡ overwritten bytes.old.items offset new.now) }
    ensures err { OnErr result (bytes.new.items ≡ bytes.old.items) }
    ensures short { OnOk result (offset + length new.now < NUMBER_LIMIT) }
{
    let over = new.len().min(bytes.len() - offset);
    bytes.extend_from_slice(&new[over..])?;
    bytes[offset..offset + over].copy_from_slice(&new[..over]);
    Ok(())
}

/// The bytes that a write of this many at an offset writes over.
pub fn written_over(
    alloc: Global,
    bytes: &[u8],
    offset: usize,
    count: usize,
) -> Result<Vec<u8>, NoMemory>
    requires { offset ≤ length bytes.now }
    ensures { IfOk result (λ over. over.items ≡ take (min count (length bytes.now - offset)) (drop offset bytes.now)) }
{
    let over = count.min(bytes.len() - offset);
    Ok(Vec::from_slice(alloc, &bytes[offset..offset + over])?)
}

/// Puts other bytes in place of so many from an offset on, or of those that there are.
pub fn substitute(
    alloc: Global,
    bytes: &mut Vec<u8>,
    offset: usize,
    count: usize,
    new: &[u8],
) -> Result<(), NoMemory>
    ensures { OnOk result (bytes.new.items ≡ take offset bytes.old.items ++ new.now
        ++ drop (offset + count) bytes.old.items) }
{
    if new.len() == count && offset <= bytes.len() {
        return overwrite(bytes, offset, new);
    }
    let end = offset.saturating_add(count).min(bytes.len());
    let behind = Vec::from_slice(alloc, &bytes[end..])?;
    bytes.truncate(offset);
    bytes.extend_from_slice(new)?;
    bytes.extend_from_slice(&behind)?;
    Ok(())
}
