//! The writes that a side keeps until a sync.
ghost use Rattle.std.specs.Prelude.{◌≡◌, ℕ, ◌<◌, ◌≤◌, ◌++◌, false, length, take, reverse, All, IfOk};
ghost use Rattle.cg_disk.specs.State.{is_unsynced};
ghost use Rattle.cg_disk.specs.Undo.{undone, ranges};

use crate::bytes::substitute;
use cg_base::NoMemory;
use std::alloc::Global;

/// A write since the last sync, with the bytes that it wrote over.
#[derive(Drop)]
pub struct Written {
    pub offset: usize,
    pub count: usize,
    pub before: Vec<u8>,
}

/// The bytes from an offset on before these writes, none of which is below it. The newest comes last.
pub fn before_writes(
    alloc: Global,
    bytes: &[u8],
    from: usize,
    writes: &[Written],
) -> Result<Vec<u8>, NoMemory>
    requires inside { from ≤ length bytes.now }
    requires above { All (λ w. from ≤ w.offset) writes.now }
    ensures { IfOk result (λ old. take from bytes.now ++ old.items ≡ undone bytes.now (reverse writes.now)) }
{
    let mut old = Vec::from_slice(alloc, &bytes[from..])?;
    let mut left = writes.len();
    while left > 0 {
        left -= 1;
        let w = &writes[left];
        substitute(alloc, &mut old, w.offset - from, w.count, &w.before)?;
    }
    Ok(old)
}

/// Whether one of these writes has written at this offset.
pub fn is_among(writes: &[Written], offset: usize) -> bool
    ensures { result ≡ is_unsynced (ranges writes.now) offset }
{
    for w in writes {
        if w.offset <= offset && offset - w.offset < w.count {
            return true;
        }
    }
    false
}

/// The lowest offset at which one of these writes begins, or the limit where that is lower.
pub fn lowest_offset(writes: &[Written], limit: usize) -> usize
    ensures within { result ≤ limit }
    ensures above { All (λ w. result ≤ w.offset) writes.now }
{
    let mut lowest = limit;
    for w in writes {
        lowest = lowest.min(w.offset);
    }
    lowest
}

/// The highest offset at which one of these writes ends, or the limit where that is lower.
pub fn highest_end(writes: &[Written], limit: usize) -> usize
    ensures within { result ≤ limit }
    ensures none { (k : ℕ) → result ≤ k → k < limit → is_unsynced (ranges writes.now) k ≡ false }
{
    let mut highest = 0;
    for w in writes {
        highest = highest.max(w.offset.saturating_add(w.count));
    }
    highest.min(limit)
}
