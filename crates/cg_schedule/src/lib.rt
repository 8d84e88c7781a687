//! The schedule: events, and the lines that spell them.
//!
//! `specs/Line.antt` defines how a line reads: a function of its tokens and of whether `start` and `end` have stood,
//! which gives an event, nothing for a line that is passed over, or one of nine reasons. `Reader` answers exactly that.
//! `print_line` writes the one printed form of an event. `laws` says that reading and printing belong together. The parts
//! of lines (`take_id` and the like) can be taken alone, by a command that has lines of its own (`specs/Own.antt`). What
//! events do, and which of them are admitted, is left to the layers above.
#![tactic(auto)]

mod command;
mod event;
mod fault;
mod laws;
mod part;
mod print;
mod reader;
mod reader_state;
mod word;

pub use command::{take_query, take_update};
pub use event::Event;
pub use fault::{LineFault, SyntaxReason};
pub use laws::{lines_are_exact, parts_are_exact, printed_lines_are_read};
pub use part::{take_count, take_fill, take_id, take_number, take_token};
pub use print::print_line;
pub use reader::Reader;
pub use reader_state::ReaderState;
pub use word::Word;
