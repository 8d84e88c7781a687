//! Writers of fields.

ghost use Rattle.std.specs.Prelude.{◌≡◌, ◌<◌, ◌++◌, length, take, OnOk, OnErr};
ghost use Rattle.cg_base.specs.declared.limits.TheConstants.{LIST_LIMIT};
ghost use Rattle.cg_codec.specs.Fields.{byte, number32, number64, signed64, text, truth as truth_bytes, spelled_id};

use byteorder::{BigEndian, ByteOrder};
use cg_base::{ActionId, NoMemory};

/// Puts one byte at the end.
#[tactic(auto, unfolding(crate::specs::Fields::byte))]
pub fn put_u8(out: &mut Vec<u8>, n: u8) -> Result<(), NoMemory>
    ensures ok { OnOk result (out.new.items ≡ out.old.items ++ byte n) }
    ensures err { OnErr result (out.new.items ≡ out.old.items) }
{
    out.push(n)?;
    Ok(())
}

/// Puts a number at the end, in four bytes.
#[tactic(auto, unfolding(crate::specs::Fields::number32))]
pub fn put_u32(out: &mut Vec<u8>, n: u32) -> Result<(), NoMemory>
    ensures ok { OnOk result (out.new.items ≡ out.old.items ++ number32 n) }
    ensures err { OnErr result (out.new.items ≡ out.old.items) }
{
    let mut bytes = [0; 4];
    BigEndian::write_u32(&mut bytes, n);
    out.extend_from_slice(&bytes)?;
    Ok(())
}

/// Puts a number at the end, in eight bytes.
#[tactic(auto, unfolding(crate::specs::Fields::number64))]
pub fn put_u64(out: &mut Vec<u8>, n: u64) -> Result<(), NoMemory>
    ensures ok { OnOk result (out.new.items ≡ out.old.items ++ number64 n) }
    ensures err { OnErr result (out.new.items ≡ out.old.items) }
{
    let mut bytes = [0; 8];
    BigEndian::write_u64(&mut bytes, n);
    out.extend_from_slice(&bytes)?;
    Ok(())
}

/// Puts a number with a sign at the end: the eight bytes of its two's complement.
#[tactic(auto, unfolding(crate::specs::Fields::signed64))]
pub fn put_i64(out: &mut Vec<u8>, n: i64) -> Result<(), NoMemory>
    ensures ok { OnOk result (out.new.items ≡ out.old.items ++ signed64 n) }
    ensures err { OnErr result (out.new.items ≡ out.old.items) }
{
    put_u64(out, n.cast_unsigned())
}

/// Puts a truth value at the end: a byte that is 1 or 0.
#[tactic(auto, unfolding(crate::specs::Fields::truth))]
pub fn put_truth(out: &mut Vec<u8>, truth: bool) -> Result<(), NoMemory>
    ensures ok { OnOk result (out.new.items ≡ out.old.items ++ truth_bytes truth) }
    ensures err { OnErr result (out.new.items ≡ out.old.items) }
{
    put_u8(out, u8::from(truth))
}

/// Puts a name of an action at the end: its creator and its index. Where memory is refused nothing is put.
pub fn put_action_id(out: &mut Vec<u8>, v: &ActionId) -> Result<(), NoMemory>
    ensures ok { OnOk result (out.new.items ≡ out.old.items ++ spelled_id v.now) }
    ensures err { OnErr result (out.new.items ≡ out.old.items) }
{
    let before = out.len();
    let put = write_action_id(out, v);
    if put.is_err() {
        out.truncate(before);
    }
    put
}

fn write_action_id(out: &mut Vec<u8>, v: &ActionId) -> Result<(), NoMemory>
    ensures ok { OnOk result (out.new.items ≡ out.old.items ++ spelled_id v.now) }
    ensures err { OnErr result (take (length out.old.items) out.new.items ≡ out.old.items) }
{
    put_u8(out, v.creator.get())?;
    put_u64(out, v.index)
}

/// Puts a text at the end: how many bytes it has, in four bytes, and these.
pub fn put_text(out: &mut Vec<u8>, t: &str) -> Result<(), NoMemory>
    requires { length t.now < LIST_LIMIT }
    ensures ok { OnOk result (out.new.items ≡ out.old.items ++ text t.now) }
    ensures err { OnErr result (out.new.items ≡ out.old.items) }
{
    let before = out.len();
    let put = put_counted(out, t.as_bytes());
    if put.is_err() {
        out.truncate(before);
    }
    put
}

#[tactic(auto, unfolding(crate::specs::Fields::text))]
fn put_counted(out: &mut Vec<u8>, bytes: &[u8]) -> Result<(), NoMemory>
    requires { length bytes.now < LIST_LIMIT }
    ensures ok { OnOk result (out.new.items ≡ out.old.items ++ text bytes.now) }
    ensures err { OnErr result (take (length out.old.items) out.new.items ≡ out.old.items) }
{
    put_u32(out, bytes.len() as u32)?;
    out.extend_from_slice(bytes)?;
    Ok(())
}
