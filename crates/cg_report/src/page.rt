//! Text that grows behind the bytes that stand there.

ghost use Rattle.std.specs.Prelude.{◌≡◌, ◌++◌, ◌∷◌, [], List, ℕ, IsSome, OnOk, decimal};
ghost use Rattle.std.specs.Fmt.{AppendsText};
ghost use Rattle.cg_base.specs.Fronts.{KeepsFront};

use cg_base::{NoMemory, put, put_number, put_shown};
use std::fmt::Display;
use std::marker::{Brand, Model, PhantomData};

/// What stands in front of all that is put.
pub(crate) trait HasFront {
    ghost front: { List ℕ };
}

impl HasFront for Brand {
    ghost front = { [] };
}

/// Bytes that begin with the front, whatever is put. Clauses see the bytes.
#[derive(Drop)]
pub(crate) struct Page<F: HasFront> {
    bytes: Vec<u8>,
    of: PhantomData<F>,
}

impl<F: HasFront> Model for Page<F> {
    ghost Value = { List ℕ };

    ghost view = { λ s. s.bytes.items };

    ghost invariant = { λ s. KeepsFront F.front s.bytes.items };
}

impl<F: HasFront> Page<F> {
    /// Text behind these bytes, which are the front.
    pub(crate) fn behind(bytes: Vec<u8>) -> Page<F>
        requires { bytes.items ≡ F.front }
        ensures { result ≡ bytes.items }
    {
        Page {
            bytes,
            of: PhantomData,
        }
    }

    pub(crate) fn into_bytes(self) -> Vec<u8>
        ensures text { result.items ≡ self }
        ensures front { KeepsFront F.front result.items }
    {
        let Page { bytes, of: _ } = self;
        bytes
    }

    pub(crate) fn put(&mut self, text: &[u8]) -> Result<(), NoMemory>
        ensures { OnOk result (self.new ≡ self.old ++ text.now) }
    {
        put(&mut self.bytes, text)
    }

    pub(crate) fn put_byte(&mut self, byte: u8) -> Result<(), NoMemory>
        ensures { OnOk result (self.new ≡ self.old ++ byte ∷ []) }
    {
        self.bytes.push(byte)?;
        Ok(())
    }

    /// A number in decimal digits.
    #[tactic(auto, using(std::proofs::lemmas::Fmt::decimal_digit))]
    pub(crate) fn put_number(&mut self, n: u64) -> Result<(), NoMemory>
        ensures { OnOk result (self.new ≡ self.old ++ decimal n) }
    {
        if n < 10 {
            return self.put_byte(b'0' + n as u8);
        }
        put_number(&mut self.bytes, n)
    }

    /// What `{}` prints of the value, where that is told.
    pub(crate) fn put_shown<D: Display>(&mut self, value: &D) -> Result<(), NoMemory>
        requires { IsSome (D.output value.now) }
        ensures { OnOk result (AppendsText self.old self.new (D.output value.now)) }
    {
        put_shown(&mut self.bytes, value)
    }
}
