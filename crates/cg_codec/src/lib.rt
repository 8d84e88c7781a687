//! Fields of bytes: numbers, big-endian, and texts, read from the left and written at the end.
//!
//! Each value has one spelling, which `specs/Fields.antt` defines. Reading is a function of the bytes
//! that are left, in `specs/Reading.antt`: the value and what is behind it, or the first fault with its
//! offset. A reader gives exactly that, and stays where it was after a fault.
//! Which values a field may have, beyond a text's length, is left to those who read it.
#![tactic(auto)]

mod fault;
mod fields;
mod laws;
mod writing;

pub use fault::CodecFault;
pub use fields::Fields;
pub use laws::{fields_are_exact, fields_compose};
pub use writing::{put_action_id, put_i64, put_text, put_truth, put_u8, put_u32, put_u64};
