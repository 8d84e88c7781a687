//! Runs over a source and a sink in memory of which a take or a put fails; the cases of the program show all others.
//!
//! A line is what there is to take, and behind the arrow stands what is put; how the run ends stands behind a second arrow:
//! the exit status of the program, and the status itself.
//!
//! In these lines `$` is a line feed, `&` is the entry of a start of replica 1 alone, and `~5000 a~` so many of one text.

use cg_base::{Bytes, put};
use cg_io::{MemSink, MemSource};
use cg_run::{ArgText, Status, run};
use std::alloc::{AllocGlobal, Global};
use std::process::Abort;

const FIRST_TAKE: &str = "start 1$end$ -> read fault 0$ -> 4 ReadFault";

// A line may stand in many chunks.
const SECOND_TAKE: &str = "start 1$end$ -> &read fault 2$ -> 4 ReadFault
start 1$#~20000 a~$end -> &read fault 1$ -> 4 ReadFault";

// A finding is told before more is taken.
const BEFORE_THE_SECOND_TAKE: &str =
    "# one$Start$~5000 a~ -> syntax 2 2$ -> 2 Syntax { line: 2, reason: 2 }";

const BEFORE_THE_TENTH_TAKE: &str = "#$~50000 a~ -> limit 2 line$";

const FIRST_PUT: &str = "start 1$end$ ->  -> 5 WriteFault";

const SECOND_PUT: &str = "start 1$end$ -> & -> 5 WriteFault";

const TWO_REQUESTS: &str = "start 1 2 3
merge 1 2 3
rounds 2
request 1 put \"x\" 1
request 2 inc \"x\" 4 ? get \"x\"
rounds 1
show order
end
";

const TWO_ENTRIES: &str = "= 1
1 NonPrim - g0 w0 p0@0{1,2,3} a0 v- y- r[] o[] x{} b0
2 NonPrim - g0 w0 p0@0{1,2,3} a0 v- y- r[] o[] x{} b0
3 NonPrim - g0 w0 p0@0{1,2,3} a0 v- y- r[] o[] x{} b0
= 2
1 ExchangeStates c1 g0 w0 p0@0{1,2,3} a0 v- y- r[] o[] x{} b0
2 ExchangeStates c1 g0 w0 p0@0{1,2,3} a0 v- y- r[] o[] x{} b0
3 ExchangeStates c1 g0 w0 p0@0{1,2,3} a0 v- y- r[] o[] x{} b0
 -> 5 WriteFault";

// what a `&` stands for
const ALONE: &str = "= 1\n1 NonPrim - g0 w0 p0@0{1} a0 v- y- r[] o[] x{} b0\n";

// what stands before a mark and behind it
fn parts<'a>(text: &'a str, mark: &str) -> (&'a str, &'a str) {
    match text.split_once(mark) {
        Some(parts) => parts,
        None => (text, ""),
    }
}

fn put_text(out: &mut Vec<u8>, text: &str) {
    for byte in text.as_bytes() {
        let _done = match byte {
            b'$' => put(out, b"\n"),
            b'&' => put(out, ALONE.as_bytes()),
            _ => put(out, &[*byte]),
        };
    }
}

// so many of a text, as `5000 a`
fn put_many(out: &mut Vec<u8>, words: &str) {
    let (count, text) = parts(words, " ");
    let count: u64 = match count.parse() {
        Ok(count) => count,
        Err(_) => 0,
    };
    for _ in 0..count {
        put_text(out, text);
    }
}

// the bytes that a text of a line stands for
fn bytes_of(alloc: Global, text: &str) -> Vec<u8> {
    let mut out = Vec::new(alloc);
    let mut is_many = false;
    for part in text.split('~') {
        if is_many {
            put_many(&mut out, part);
        } else {
            put_text(&mut out, part);
        }
        is_many = !is_many;
    }
    out
}

fn replay(alloc: Global) -> Vec<ArgText> {
    let mut args = Vec::new(alloc);
    if let Ok(bytes) = Bytes::from_slice(alloc, b"replay") {
        let _done = args.push(ArgText::new(bytes));
    }
    args
}

// the one call that fails, none where it is 0
fn only(alloc: Global, call: u64) -> Vec<u64> {
    let mut calls = Vec::new(alloc);
    let _done = calls.push(call);
    calls
}

// how a replay of this input ends, and the sink behind it
fn ended(alloc: Global, input: &str, take: u64, put: u64) -> (Status, MemSink) {
    let args = replay(alloc);
    let mut source = MemSource::new(bytes_of(alloc, input), only(alloc, take));
    let mut sink = MemSink::new(alloc, only(alloc, put));
    let status = run(alloc, args.as_slice(), &mut source, &mut sink);
    drop(source);
    (status, sink)
}

fn is_end(alloc: Global, status: Status, expected: &str) -> bool {
    let number = status.number();
    match format!(in alloc; "{number} {status:?}") {
        Ok(text) => text.starts_with(expected),
        Err(_) => false,
    }
}

// Whether the run puts what is expected, and ends so; where it doesn't, what came is told.
fn is_right(rt: &(impl Abort + AllocGlobal), take: u64, put: u64, input: &str, expected: &str) {
    let alloc = rt.alloc();
    let (text, end) = parts(expected, " -> ");
    let (status, sink) = ended(alloc, input, take, put);
    let is_put = sink.bytes() == bytes_of(alloc, text).as_slice();
    let is_end = is_end(alloc, status, end);
    let seen = str::from_utf8(sink.bytes()).unwrap_or("no text");
    assert!(rt;
        is_put && is_end,
        "{input} -> {expected}\nwhat came: {seen}"
    );
}

// the take and the put that fail
fn are_right(rt: &(impl Abort + AllocGlobal), take: u64, put: u64, lines: &str) {
    for line in lines.lines() {
        let (input, expected) = parts(line, " -> ");
        is_right(rt, take, put, input, expected);
    }
}

#[test]
fn a_failed_take_is_told_behind_the_lines_taken(rt: HostRuntime) {
    are_right(&rt, 1, 0, FIRST_TAKE);
    are_right(&rt, 2, 0, SECOND_TAKE);
    are_right(&rt, 2, 0, BEFORE_THE_SECOND_TAKE);
    are_right(&rt, 10, 0, BEFORE_THE_TENTH_TAKE);
}

#[test]
fn a_failed_put_ends_the_run_with_what_was_put_before(rt: HostRuntime) {
    are_right(&rt, 0, 1, FIRST_PUT);
    are_right(&rt, 0, 2, SECOND_PUT);
    is_right(&rt, 0, 3, TWO_REQUESTS, TWO_ENTRIES);
}
