//! Tables as texts: each line is a call, and behind an arrow what comes of it.
//!
//! What comes is put into a text without a word on want of memory: that leaves a gap, which the comparison finds. So no
//! function has an exit while it holds something, which is what would cost most to prove.

use crate::action::{show_copies, show_kind};
use crate::schedule::read;
use crate::wire::show_said;
use cg_base::{ActionId, IdSet, put, put_number, put_shown};
use cg_schedule::Reader;
use std::alloc::Global;
use std::fmt::Display;
use std::process::Abort;

// One function for all tables: what is passed by name costs three goals each time.
fn perform(alloc: Global, reader: &mut Reader, call: &str, out: &mut Vec<u8>) {
    let (word, text) = parts(call, " ");
    match word {
        "kind" => show_kind(alloc, text, out),
        "actions" => show_copies(alloc, text, out),
        "said" => show_said(alloc, text, out),
        _ => read(alloc, reader, call, out),
    }
}

/// Makes the call of each line, and compares what it puts with what stands behind the arrow. A line of a schedule may look
/// at what those before it have left. A line that begins with `#` is a title.
pub(crate) fn follows(rt: &(impl Abort + AllocGlobal), reader: &mut Reader, table: &str) {
    for line in table.lines() {
        let (call, expected) = parts(line, " -> ");
        let mut out = Vec::new(rt.alloc());
        if !line.starts_with('#') {
            perform(rt.alloc(), reader, call, &mut out);
        }
        let seen = str::from_utf8(out.as_slice()).unwrap_or("no text");
        assert_eq!(rt; seen, expected, "{line}");
    }
}

/// Compares what was put with what is expected.
pub(crate) fn is(rt: &impl Abort, out: &[u8], expected: &str) {
    let seen = str::from_utf8(out).unwrap_or("no text");
    assert_eq!(rt; seen, expected);
}

/// What stands before a mark and behind it; nothing does where there is none.
pub(crate) fn parts<'a>(text: &'a str, mark: &str) -> (&'a str, &'a str) {
    match text.split_once(mark) {
        Some(parts) => parts,
        None => (text, ""),
    }
}

/// The number that a text is, or 0.
pub(crate) fn number(text: &str) -> u64 {
    match text.parse() {
        Ok(number) => number,
        Err(_) => 0,
    }
}

pub(crate) fn say(out: &mut Vec<u8>, text: &str) {
    let _done = put(out, text.as_bytes());
}

pub(crate) fn say_number(out: &mut Vec<u8>, number: u64) {
    let _done = put_number(out, number);
}

pub(crate) fn say_name(out: &mut Vec<u8>, id: ActionId) {
    let _done = put_shown(out, &id);
}

pub(crate) fn say_set(out: &mut Vec<u8>, set: IdSet) {
    let _done = put_shown(out, &set);
}

/// What `{}` shows.
pub(crate) fn say_shown(out: &mut Vec<u8>, value: &impl Display) {
    let _done = put_shown(out, value);
}
