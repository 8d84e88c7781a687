//! The values that may change at any time, as records have them one behind another.
ghost use Rattle.std.specs.Prelude.{◌≡◌, ◌≢◌, Ok, Err, MatchResult, IsTrue};
ghost use Rattle.cg_codec.specs.Taking.{unread_of};
ghost use Rattle.cg_codec.specs.declared.fault.CodecFault.TheVariants.{NoMemory as OutOfMemory};
ghost use Rattle.cg_records.specs.Reading.{take_stable as reading_stable};
ghost use Rattle.cg_store.specs.Repeating.{IsRecent, Repeats};

use cg_codec::{CodecFault, Fields};
use cg_records::{Stable, take_stable};
use std::alloc::Global;

/// The values that the record before had, and the bytes at its front that spell them: most records repeat these, and then
/// they aren't read anew. Before the first record there are no such bytes.
#[derive(Drop)]
pub(crate) struct LastValues<'a> {
    pub(crate) values: Stable,
    front: &'a [u8],
}

impl<'a> LastValues<'a> {
    /// Values that stand in no record.
    pub(crate) fn new(values: Stable) -> LastValues<'a>
        ensures { IsRecent result }
    {
        LastValues { values, front: &[] }
    }

    /// Takes the values at the front of a record.
    pub(crate) fn take(&mut self, alloc: Global, body: &'a [u8]) -> Result<Fields<'a>, CodecFault>
        requires { IsRecent self.old }
        ensures recent { IsRecent self.new }
        ensures read { MatchResult result (λ fields. reading_stable (record { at = 0; bytes = body.now }) ≡
            Ok (self.new.values, unread_of fields))
            (λ fault. fault ≢ OutOfMemory → reading_stable (record { at = 0; bytes = body.now }) ≡ Err fault) }
    {
        let mut fields = Fields::new(body);
        fields.are_bytes();
        if self.is_repeated(body) {
            fields.skip(self.front.len());
            return Ok(fields);
        }
        let values = take_stable(alloc, &mut fields)?;
        let front = &body[..body.len() - fields.left()];
        *self = LastValues { values, front };
        Ok(fields)
    }

    fn is_repeated(&self, body: &[u8]) -> bool
        ensures { IsTrue result → Repeats self.now.front.now body.now }
    {
        !self.front.is_empty() && body.starts_with(self.front)
    }
}
