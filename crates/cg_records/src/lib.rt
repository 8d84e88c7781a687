//! What a replica keeps beside its actions: the last primary component, the attempt index, the vulnerable record, the
//! yellow list and the last index created; with their bytes, and those of sets and cuts.
//!
//! Each value has one spelling (`specs/Bytes.antt`). Reading is a function of the bytes (`specs/Reading.antt`), and the
//! laws say that the two are one field: what is spelled is read, and what is read is spelled so. What the records mean is
//! left to the layers above.
#![tactic(auto)]

mod laws;
mod names;
mod numbers;
mod primary;
mod sets;
mod stable;
mod vulnerable;
mod yellow;

pub use laws::{all_bytes_are_stable, records_are_exact, records_stand_apart};
pub use names::{put_cut, take_cut};
pub use numbers::{take_id, take_id_above, take_number, take_weight};
pub use primary::{Primary, put_prim, take_prim};
pub use sets::{put_set, put_weight_set, take_set, take_weight_set};
pub use stable::{Stable, put_stable, take_stable};
pub use vulnerable::{
    Vulnerable, put_maybe_vulnerable, put_vulnerable, take_maybe_vulnerable, take_vulnerable,
};
pub use yellow::{Yellow, put_yellow, take_yellow};
