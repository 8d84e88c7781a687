//! Actions: what a client asks of the database, or that a server joins or leaves. And entries, answers and effects: what
//! the database holds, what a query finds in it, and what an action has done, as lines show it.
//!
//! An action has one spelling in bytes, and what it does has one printed form. `specs/ActionLimits.antt` says which
//! actions there are: each of these is read again as it was written, and nothing else is read. Where bytes have no
//! reading, the fault is the first from the left. Entries, answers and effects have a printed form alone
//! (`specs/AnswerPrint.antt`). What actions make of a database is left to the layers above.
//!
//! Things in a row that are each within the limits of their type are a `Limited<T>`: of actions, of names of actions,
//! and of what else has `Limits`.
#![tactic(auto)]

mod action;
mod answer;
mod answer_print;
mod boxed;
mod command;
mod commands;
mod effect;
mod entry;
mod laws;
mod limited;
mod print;
mod query;
mod reading;
mod shared;
mod value;
mod writing;

pub use action::{Action, ActionList, Kind, copy_actions};
pub use answer::Answer;
pub use boxed::{Boxed, BoxedOption};
pub use cg_codec::put_action_id;
pub use command::Cmd;
pub use commands::{CmdList, copy_commands};
pub use effect::Effect;
pub use entry::{DbEntry, EntryList, TxtList};
pub use laws::{actions_are_exact, spellings_stand_apart};
pub use limited::{Limited, Limits};
pub use print::{Update, print_kind, print_value};
pub use query::{Query, copy_query};
pub use reading::{decode, take_action, take_action_id, take_value};
pub use shared::Shared;
pub use value::Value;
pub use writing::{encode, put_action, put_value};
