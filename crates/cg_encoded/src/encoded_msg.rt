ghost use Rattle.std.specs.Prelude.{◌≡◌, IfOk};
ghost use Rattle.cg_wire.specs.Bytes.{spelled_msg};
ghost use Rattle.cg_wire.specs.Limits.{IsMsg};

use crate::DeliveredMsg;
use crate::delivered_msg::ReadBytes;
use cg_base::NoMemory;
use cg_group::TryClone;
use cg_wire::{Msg, encode, messages_are_exact};
use std::alloc::Global;
use std::marker::Model;

/// A message in bytes. Clauses see the message.
pub struct EncodedMsg {
    delivered: DeliveredMsg,
}

impl Drop for EncodedMsg {
    fn drop(self) {
        let EncodedMsg { delivered: _ } = self;
    }
}

impl Model for EncodedMsg {
    ghost use Rattle.cg_wire.specs.declared.message.Msg.{Msg};
    ghost use Rattle.cg_encoded.specs.Encoded.{encoded_by, IsEncoded};

    ghost Value = { Msg };

    ghost view = { λ m. encoded_by m.delivered };

    ghost invariant = { λ m. IsEncoded m.delivered };
}

impl EncodedMsg {
    /// The message in bytes.
    pub fn seal(alloc: Global, m: Msg) -> Result<EncodedMsg, NoMemory>
        requires { IsMsg m }
        ensures { IfOk result (λ encoded. encoded ≡ m) }
    {
        messages_are_exact();
        let bytes = encode(alloc, &m)?;
        let message = Some(m);
        let delivered = DeliveredMsg::share(alloc, ReadBytes { bytes, message })?;
        Ok(EncodedMsg { delivered })
    }

    /// The bytes with what they spell, to hand over. It takes no memory.
    pub fn into_delivered(self) -> DeliveredMsg
        ensures { result ≡ spelled_msg self }
    {
        let EncodedMsg { delivered } = self;
        delivered
    }

    // What it says is within the limits of a message.
    pub(crate) fn holds(&self)
        ensures { IsMsg self.now }
    {
        let _delivered = &self.delivered;
    }

    /// The bytes. It takes no memory.
    pub fn as_bytes(&self) -> &[u8]
        ensures { result.now ≡ spelled_msg self.now }
    {
        self.delivered.as_slice()
    }
}

impl TryClone for EncodedMsg {
    fn try_clone(&self, alloc: Global) -> Result<EncodedMsg, NoMemory> {
        let delivered = self.delivered.try_clone(alloc)?;
        Ok(EncodedMsg { delivered })
    }
}
