ghost use Rattle.std.specs.Prelude.{◌≡◌, IfOk, IfSome};
ghost use Rattle.std.specs.Option.{option_copied};
ghost use Rattle.cg_wire.specs.Reading.{message_in};
ghost use Rattle.cg_wire.specs.Limits.{IsMsg};
ghost use Rattle.cg_encoded.specs.Delivered.{IsRead};

use cg_base::{Bytes, NoMemory};
use cg_group::TryClone;
use cg_wire::{Msg, read_message};
use std::alloc::Global;
use std::marker::Model;
use std::rc::Rc;

/// Bytes with the message that they spell, if they spell one.
#[derive(Drop)]
pub(crate) struct ReadBytes {
    pub(crate) bytes: Bytes,
    pub(crate) message: Option<Msg>,
}

/// Bytes that are handed to replicas, read once for all of them: a copy shares what was read. Clauses see the bytes.
pub struct DeliveredMsg {
    shared: Rc<ReadBytes>,
}

impl Drop for DeliveredMsg {
    fn drop(self) {
        let DeliveredMsg { shared: _ } = self;
    }
}

impl Model for DeliveredMsg {
    ghost use Rattle.std.specs.Prelude.{ℕ, List};
    ghost use Rattle.cg_encoded.specs.Delivered.{IsRead};

    ghost Value = { List ℕ };

    ghost view = { λ m. m.shared.value.bytes };

    ghost invariant = { λ m. IsRead m.shared.value };
}

impl DeliveredMsg {
    /// The bytes, which are read.
    pub fn read(alloc: Global, bytes: Bytes) -> Result<DeliveredMsg, NoMemory>
        ensures { IfOk result (λ delivered. delivered ≡ bytes) }
    {
        let message = read_message(alloc, bytes.as_slice())?;
        DeliveredMsg::share(alloc, ReadBytes { bytes, message })
    }

    // What was read already.
    pub(crate) fn share(alloc: Global, read: ReadBytes) -> Result<DeliveredMsg, NoMemory>
        requires { IsRead read }
        ensures { IfOk result (λ delivered. delivered ≡ read.bytes) }
    {
        let shared = Rc::new(alloc, read)?;
        Ok(DeliveredMsg { shared })
    }

    /// The bytes. It takes no memory.
    pub fn as_slice(&self) -> &[u8]
        ensures { result.now ≡ self.now }
    {
        self.shared.bytes.as_slice()
    }

    /// The message that all of the bytes spell, if they spell one. It takes no memory.
    pub fn message(&self) -> Option<&Msg>
        ensures value { option_copied result ≡ message_in self.now }
        ensures limits { IfSome (message_in self.now) IsMsg }
    {
        self.shared.message.as_ref()
    }
}

impl TryClone for DeliveredMsg {
    fn try_clone(&self, alloc: Global) -> Result<DeliveredMsg, NoMemory> {
        let _alloc = alloc;
        let shared = self.shared.clone()?;
        Ok(DeliveredMsg { shared })
    }
}
