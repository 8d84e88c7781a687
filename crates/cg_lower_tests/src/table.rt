//! Tables as texts: each line is a call on what the lines before have left, and, behind an arrow, what is then seen.
//!
//! What is seen is put into a text without a word on want of memory: that leaves a gap, which the comparison finds. So no
//! function has an exit while it holds something, which is what would cost most to prove.

use cg_base::{ActionId, IdSet, ReplicaId, put, put_number, put_shown};
use std::alloc::Global;
use std::fmt::Display;
use std::process::Abort;

/// Makes the call of each line, and compares what it puts with what is expected: nothing where there is no arrow.
pub(crate) fn follows<S, F: Fn(Global, &mut S, &str, &mut Vec<u8>)>(
    rt: &(impl Abort + AllocGlobal),
    state: &mut S,
    table: &str,
    perform: F,
)
    requires { F.IsAlwaysCallable perform }
{
    for line in table.lines() {
        let (call, expected) = parts(line, " -> ");
        let mut out = Vec::new(rt.alloc());
        perform(rt.alloc(), state, call, &mut out);
        let seen = str::from_utf8(out.as_slice()).unwrap_or("no text");
        assert_eq!(rt; seen, expected, "{line}");
    }
}

/// What stands before a mark and behind it; nothing does where there is none.
pub(crate) fn parts<'a>(text: &'a str, mark: &str) -> (&'a str, &'a str) {
    match text.split_once(mark) {
        Some(parts) => parts,
        None => (text, ""),
    }
}

/// The number that a text is, or 0.
pub(crate) fn number(text: &str) -> u64 {
    match text.parse() {
        Ok(number) => number,
        Err(_) => 0,
    }
}

/// The replica that a text is, or the first one.
pub(crate) fn id(text: &str) -> ReplicaId {
    match ReplicaId::new((number(text) % 256) as u8) {
        Some(id) => id,
        None => ReplicaId::known(1),
    }
}

/// The action that a text as `1:2` names.
pub(crate) fn name(text: &str) -> ActionId {
    let (creator, index) = parts(text, ":");
    ActionId {
        creator: id(creator),
        index: number(index),
    }
}

/// The replicas of a list as `1,2`, each below 10; none of `-`.
pub(crate) fn set(text: &str) -> IdSet {
    let mut set = IdSet::empty();
    for digit in text.as_bytes() {
        if let Some(id) = ReplicaId::new(digit.saturating_sub(b'0')) {
            set.add(id);
        }
    }
    set
}

pub(crate) fn say(out: &mut Vec<u8>, text: &str) {
    let _done = put(out, text.as_bytes());
}

pub(crate) fn say_number(out: &mut Vec<u8>, number: u64) {
    let _done = put_number(out, number);
}

/// A text and the number behind it.
pub(crate) fn say_with(out: &mut Vec<u8>, text: &str, number: u64) {
    say(out, text);
    say_number(out, number);
}

pub(crate) fn say_truth(out: &mut Vec<u8>, truth: bool) {
    say(out, if truth { "yes" } else { "no" });
}

pub(crate) fn say_name(out: &mut Vec<u8>, id: ActionId) {
    let _done = put_shown(out, &id);
}

pub(crate) fn say_set(out: &mut Vec<u8>, set: IdSet) {
    let _done = put_shown(out, &set);
}

/// What `{}` shows.
pub(crate) fn say_shown(out: &mut Vec<u8>, value: &impl Display) {
    let _done = put_shown(out, value);
}
