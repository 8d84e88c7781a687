//! What a replica keeps beside its actions, in bytes.

ghost use Rattle.std.specs.Prelude.{◌≡◌, length, IfOk};

use crate::bytes::bytes_of;
use cg_base::{ActionId, IdList, NoMemory, ReplicaId, WeightSet};
use cg_records::{Primary, Stable, Yellow};
use std::alloc::Global;

// index 1, configuration 2, members 1 with weight 3 and 2; attempt index 4; no record; valid yellow list of 1:1; created 5
const BYTES: &str = "0000000000000001 0000000000000002 00000002 01 03 02 01 0000000000000004 \
    00 01 00000001 01 0000000000000001 0000000000000005";

// what the bytes are of
fn record(alloc: Global) -> Result<Stable, NoMemory>
    ensures { IfOk result (λ stable. length stable.yellow.list ≡ 1) }
{
    let mut set = WeightSet::empty();
    set.put(ReplicaId::known(2), 1);
    set.put(ReplicaId::known(1), 3);
    let first = ActionId {
        creator: ReplicaId::known(1),
        index: 1,
    };
    let list = IdList::from_slice(alloc, &[first])?;
    Ok(Stable {
        prim: Primary {
            index: 1,
            conf: 2,
            set,
        },
        attempt_index: 4,
        vulnerable: None,
        yellow: Yellow { valid: true, list },
        created: 5,
    })
}

fn is_spelled(alloc: Global, stable: &Stable) -> bool
    requires { length stable.now.yellow.list ≡ 1 }
{
    let mut out = Vec::new(alloc);
    let _done = stable.encode(&mut out);
    out.as_slice() == bytes_of(alloc, BYTES).as_slice()
}

fn is_same(left: &Stable, right: &Stable) -> bool {
    left.prim == right.prim
        && left.yellow == right.yellow
        && left.vulnerable.is_none()
        && left.attempt_index == 4
        && left.created == 5
}

fn is_read(alloc: Global, stable: &Stable) -> bool {
    match Stable::decode(alloc, bytes_of(alloc, BYTES).as_slice()) {
        Ok(back) => {
            let is_same = is_same(&back, stable);
            drop(back);
            is_same
        }
        Err(_) => false,
    }
}

// whether it has these bytes, and these bytes are it
fn is_exact(alloc: Global) -> bool {
    let Ok(record) = record(alloc) else {
        return false;
    };
    let is_spelled = is_spelled(alloc, &record);
    let is_read = is_read(alloc, &record);
    drop(record);
    is_spelled && is_read
}

#[test]
fn a_record_has_these_bytes(rt: HostRuntime) {
    assert!(rt; is_exact(rt.alloc()));
}
