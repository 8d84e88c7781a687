//! Words of a table's line, and what is said of what comes.
//!
//! What comes is put into a text without a word on want of memory: that leaves a gap, which the comparison finds. So no
//! function has an exit while it holds something, which is what would cost most to prove.

use cg_base::{put, put_number, put_shown};
use std::fmt::Display;
use std::process::Abort;

/// Compares what was put with what is expected.
pub(crate) fn is(rt: &impl Abort, out: &[u8], expected: &str, line: &str) {
    let seen = str::from_utf8(out).unwrap_or("no text");
    assert_eq!(rt; seen, expected, "{line}");
}

/// What stands before a mark and behind it; nothing does where there is none.
pub(crate) fn parts<'a>(text: &'a str, mark: &str) -> (&'a str, &'a str) {
    match text.split_once(mark) {
        Some(parts) => parts,
        None => (text, ""),
    }
}

/// The number that a text is, or 0.
pub(crate) fn number(text: &str) -> u64 {
    match text.parse() {
        Ok(number) => number,
        Err(_) => 0,
    }
}

pub(crate) fn say(out: &mut Vec<u8>, text: &str) {
    let _done = put(out, text.as_bytes());
}

/// A text and the number behind it.
pub(crate) fn say_with(out: &mut Vec<u8>, text: &str, number: u64) {
    say(out, text);
    let _done = put_number(out, number);
}

/// What `{}` shows.
pub(crate) fn say_shown(out: &mut Vec<u8>, value: &impl Display) {
    let _done = put_shown(out, value);
}
