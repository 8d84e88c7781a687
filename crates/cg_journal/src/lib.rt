//! Records on the two sides of a disk, each behind a gate.
//!
//! The one contract: at each moment of an append every image that a crash may leave stands for the records before it or
//! for those with the new one, after Ok for the latter, and after a fault the byte at the new record's gate decides.
//! A restart says the same of one record in place of a side's others. Clauses see a journal as its disk, and its records
//! as what the bytes of a side spell. What a body means is left to the store above.
//!
//! A disk of which a side may be of the older format is a `MixedJournal`: `renew` and `clear` lead a side to the newer one,
//! and at each moment of them an image has on that side what it had, nothing, or the new record (`specs/Renews.antt`). Where
//! both sides are of the newer format it becomes a `Journal`.
#![tactic(auto)]

mod add;
mod bodies;
mod close;
mod either;
mod ends;
mod format;
mod framed;
mod heads;
mod journal;
mod load;
mod migrate;
mod mixed;
mod older;
mod open;
mod parse;
mod put;

pub use bodies::Bodies;
pub use journal::{AppendErr, Journal};
pub use mixed::MixedJournal;
pub use older::make_old;
pub use open::{FormatErr, JournalOpen, MigrateErr, SideRecords};
