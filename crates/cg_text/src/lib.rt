//! Texts, and how plain values are spelled in text: numbers in decimal, texts between quotes, tokens of a line.
//!
//! `specs/` defines what bytes spell, apart from reading and from printing: a number has one spelling, a
//! text between quotes has one, and each line has its tokens. Reading gives exactly what the bytes spell,
//! or the fault: by spelling first and then by size. `laws` says that reading and printing belong together.
//! Which values may stand where in a line is left to those who read it.
#![tactic(auto)]

mod fault;
mod laws;
mod numbers;
mod quoted;
mod txt;
mod words;

pub use fault::TextFault;
pub use laws::{numbers_are_exact, quoted_texts_are_exact, tokens_are_exact};
pub use numbers::{read_i64, read_u64};
pub use quoted::{Quoted, put_quoted, read_quoted};
pub use txt::Txt;
pub use words::{Words, is_passed_over};
