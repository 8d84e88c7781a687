//! Text that is put as it is shown, straight behind the bytes that stand there.

ghost use Rattle.std.specs.Prelude.{◌≡◌, ◌++◌, List, ℕ, [], OnOk, OnErr, length};
ghost use Rattle.std.specs.Fmt.{AppendsText};
ghost use Rattle.cg_base.specs.Fronts.{KeepsFront};

use crate::NoMemory;
use std::fmt;
use std::fmt::{Display, Formatter, Write};
use std::marker::{Brand, Model, PhantomData};
use std::mem::replace;

// what stands in front of all that is put
trait HasFront {
    ghost front: { List ℕ };
}

impl HasFront for Brand {
    ghost front = { [] };
}

// bytes that begin with the front, whatever is written
#[derive(Drop)]
struct FrontedBytes<F: HasFront> {
    bytes: Vec<u8>,
    of: PhantomData<F>,
}

impl<F: HasFront> Model for FrontedBytes<F> {
    ghost Value = { List ℕ };

    ghost view = { λ s. s.bytes.items };

    ghost invariant = { λ s. KeepsFront F.front s.bytes.items };
}

impl<F: HasFront> Write for FrontedBytes<F> {
    ghost write_str_gives = { λ s bs t. t ≡ s ++ bs };

    fn write_str(&mut self, s: &str) -> fmt::Result {
        match self.bytes.extend_from_slice(s.as_bytes()) {
            Ok(()) => Ok(()),
            Err(_) => Err(fmt::Error),
        }
    }
}

/// What `{}` prints of the value, without a copy beside it. Where memory is refused nothing is put.
pub fn put_shown<D: Display>(out: &mut Vec<u8>, value: &D) -> Result<(), NoMemory>
    ensures ok { OnOk result (AppendsText out.old.items out.new.items (D.output value.now)) }
    ensures err { OnErr result (out.new.items ≡ out.old.items) }
{
    let count = out.len();
    let none = Vec::new(*out.allocator());
    let (bytes, result) = written::<Brand, D>(replace(out, none), value);
    *out = bytes;
    if result.is_ok() {
        return Ok(());
    }
    out.truncate(count);
    Err(NoMemory)
}

fn written<F: HasFront, D: Display>(bytes: Vec<u8>, value: &D) -> (Vec<u8>, fmt::Result)
    requires { bytes.items ≡ F.front }
    ensures ok { OnOk result.1 (AppendsText bytes.items result.0.items (D.output value.now)) }
    ensures front { KeepsFront bytes.items result.0.items }
{
    let sink: FrontedBytes<F> = FrontedBytes {
        bytes,
        of: PhantomData,
    };
    let mut f = Formatter::new(sink);
    let result = f.write(value);
    let FrontedBytes { bytes, of: _ } = f.into_inner();
    (bytes, result)
}
