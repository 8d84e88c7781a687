ghost use Rattle.std.specs.Prelude.{◌≡◌, IfOk, OnOk, map};
ghost use Rattle.cg_encoded.specs.Encoded.{opened, IsSaid, AreSaid};

use crate::{DeliveredMsg, EncodedMsg};
use cg_base::{NoMemory, Row};
use cg_group::Delivery;
use std::alloc::Global;

/// Deliveries, in order, of bytes that were read.
pub type DeliveredList = Row<Delivery<DeliveredMsg>>;

// what is handed over, with its message in bytes
fn opened(one: Delivery<EncodedMsg>) -> Delivery<DeliveredMsg>
    ensures opened { result ≡ opened one }
    ensures said { IsSaid one }
{
    match one {
        Delivery::Message { place, from, bytes } => {
            bytes.holds();
            Delivery::Message {
                place,
                from,
                bytes: bytes.into_delivered(),
            }
        }
        Delivery::Transitional { conf, set } => Delivery::Transitional { conf, set },
        Delivery::Regular { conf, set } => Delivery::Regular { conf, set },
    }
}

/// All that is handed to a replica, with the messages in bytes.
pub fn open_all(alloc: Global, list: Row<Delivery<EncodedMsg>>) -> Result<DeliveredList, NoMemory>
    ensures opened { IfOk result (λ all. all ≡ map opened list) }

    // Each message is within its limits, and so is the one that its bytes spell.
    ensures said { OnOk result (AreSaid list) }
{
    let mut all = Row::with_capacity(alloc, list.len())?;
    for one in list.into_vec() {
        all.push(opened(one))?;
    }
    Ok(all)
}
