//! The bytes of a record behind its gate.
ghost use Rattle.std.specs.Prelude.{◌≡◌, ◌<◌, length, IfOk};
ghost use Rattle.cg_base.specs.declared.limits.TheConstants.{LIST_LIMIT};
ghost use Rattle.cg_journal.specs.Records.{framed};

use cg_base::NoMemory;
use cg_codec::put_u32;
use std::alloc::Global;

// The byte of a closed gate; any but 1 is.
const CLOSED: u8 = 0;

/// The length of the body, the body, and the closed gate of the next record.
pub fn framed(alloc: Global, body: &[u8]) -> Result<Vec<u8>, NoMemory>
    requires { length body.now < LIST_LIMIT }
    ensures { IfOk result (λ bytes. bytes.items ≡ framed body.now) }
{
    let mut record = Vec::with_capacity(alloc, body.len() + 5)?;
    put_u32(&mut record, body.len() as u32)?;
    record.extend_from_slice(body)?;
    record.push(CLOSED)?;
    Ok(record)
}
