//! Lines of a schedule: the event that a line is, as it is printed, or why it is none. A line is written as in `bytes`.
//!
//! It stands behind `start 1`, but for a `first` one, and for those that stand behind the lines before: `next`.

use crate::bytes::bytes_of;
use crate::table::{follows, number, parts, say};
use cg_base::put;
use cg_schedule::{Event, LineFault, Reader, SyntaxReason, print_line};
use std::alloc::Global;

const NO_LINES: &str = r#"# one of each reason
'gather 'ff -> not UTF-8
'Request 1' -> unknown word
'request 1 put "x"' -> missing part
'rounds 1 2' -> extra part
'order 01' -> bad number
'weak 1 get "x' -> bad text
'request 1 set "x" 1' -> bad command
'merge 2 1' -> bad list
'start 1' -> misplaced
# lines that are passed over
'' -> nothing
' '09' ' -> nothing
'#' -> nothing
09'# end' -> nothing
' #'ff -> nothing
'#start 1' -> nothing
# no texts
ff -> not UTF-8
'Request 'ff -> not UTF-8
'end 'c3 -> not UTF-8
'weak 1 get "'c3'"' -> not UTF-8
# no event word
';' -> unknown word
'?' -> unknown word
'"end"' -> unknown word
'"end' -> unknown word
'ends' -> unknown word
'en' -> unknown word
'END' -> unknown word
'1' -> unknown word
'show_order' -> unknown word
'-' -> unknown word
'compare 1 2' -> unknown word
# parts that are missing
'request' -> missing part
'request 1' -> missing part
'request 1 ?' -> missing part
'request 1 ? get' -> missing part
'request 1 put' -> missing part
'request 1 del' -> missing part
'request 1 inc "k"' -> missing part
'request 1 cas "k" absent' -> missing part
'request 1 move "a" "b"' -> missing part
'request 1 need "k"' -> missing part
'request 1 del "k";' -> missing part
'request 1 del "k" ?' -> missing part
'weak 1' -> missing part
'dirty 1 keys' -> missing part
'order' -> missing part
'recover' -> missing part
'recover 3 7' -> missing part
'downgrade' -> missing part
'show' -> missing part
'receive 1' -> missing part
'deliver 1' -> missing part
'rounds' -> missing part
'stop 1' -> missing part
'stop 1 0' -> missing part
'fail 1' -> missing part
'join 1' -> missing part
'leave 1' -> missing part
'transfer 1 2' -> missing part
# parts too many
'gather ;' -> extra part
'end 1' -> extra part
'show order 1' -> extra part
'show 1 order' -> extra part
'order 1 2' -> extra part
'receive 1 2 3' -> extra part
'request 1 del "k" 1' -> extra part
'request 1 del "k" del "k"' -> extra part
'request 1 inc "k" 1"x"' -> extra part
'request 1 ? count ;' -> extra part
'request 1 ? count ? count' -> extra part
'request 1 del "k" ? get "k" "k"' -> extra part
'weak 1 count count' -> extra part
'stop 1 0 - -' -> extra part
'recover 3 7 - -' -> extra part
'downgrade 1 2' -> extra part
'join 1 2 3' -> extra part
'transfer 1 2 3 4' -> extra part
# no numbers
'split 1 ;' -> bad number
'merge ?' -> bad number
'split "1"' -> bad number
'request;1' -> bad number
'order 0' -> bad number
'order 33' -> bad number
'order +1' -> bad number
'order one' -> bad number
'order ;' -> bad number
'order 18446744073709551617' -> bad number
'show all' -> bad number
'show "order"' -> bad number
'receive 1 0' -> bad number
'receive 1 1000001' -> bad number
'deliver 1 -1' -> bad number
'rounds 0' -> bad number
'rounds 1000001' -> bad number
'stop 1 1000001 -' -> bad number
'stop 1 -1 -' -> bad number
'recover 3 0 -' -> bad number
'recover 3 1000001 -' -> bad number
'recover 3 x' -> bad number
'recover 33 x' -> bad number
'downgrade 33' -> bad number
'fail 1 0' -> bad number
'fail 1 ?' -> bad number
'leave 1 2*3' -> bad number
'transfer 1 2 0' -> bad number
# no values
'request 1 put "k" v' -> bad number
'request 1 put "k" absent' -> bad number
'request 1 put "k" ;' -> bad number
'request 1 put "k" 9223372036854775808' -> bad number
'request 1 put "k" -0' -> bad number
'request 1 inc "k" "1"' -> bad number
'request 1 inc "k" 1.5' -> bad number
'request 1 cas "k" Absent 1' -> bad number
'request 1 cas "k" ; 1' -> bad number
'request 1 move "a" "b" -1' -> bad number
'request 1 need "k" absent1' -> bad number
# no weights
first 'start 1*1' -> bad number
first 'start 1*0' -> bad number
first 'start 1*256' -> bad number
first 'start 1*02' -> bad number
first 'start 1*' -> bad number
first 'start *2' -> bad number
first 'start 1*2*3' -> bad number
first 'start 0*2' -> bad number
first 'start 33*2' -> bad number
first 'start 1**2' -> bad number
first 'start 1*-2' -> bad number
first 'start "1"' -> bad number
first 'start 1 * 2' -> bad number
first 'start 2 1*1' -> bad number
'join 1 2*1' -> bad number
'join 1 2*256' -> bad number
'join 1 2*' -> bad number
'join 1 2*2*2' -> bad number
'join 1 33*2' -> bad number
'join 1*2 2' -> bad number
'split 1*2' -> bad number
'merge 1*2' -> bad number
'leave 1*2 1' -> bad number
# texts that are none
'weak 1 get x' -> bad text
'weak 1 get ;' -> bad text
'weak 1 get ""' -> bad text
'weak 1 get "a\n"' -> bad text
'weak 1 get "a'09'b"' -> bad text
'weak 1 get "a'7f'"' -> bad text
'weak 1 get "a\"' -> bad text
'dirty 1 keys 1' -> bad text
'request 1 put x 1' -> bad text
'request 1 put ? 1' -> bad text
'request 1 put "x" "y' -> bad text
'request 1 del absent' -> bad text
'request 1 need "k" "\z"' -> bad text
'request 1 move "a" b 1' -> bad text
'request 1 ? get "' -> bad text
# the bytes of a stop
'stop 1 0 ;' -> bad text
'stop 1 0 ?' -> bad text
'stop 1 0 "00"' -> bad text
'stop 1 0 0' -> bad text
'stop 1 0 000' -> bad text
'stop 1 0 0A' -> bad text
'stop 1 0 0g' -> bad text
'stop 1 0 --' -> bad text
'stop 1 0 -0' -> bad text
'stop 1 0 0x00' -> bad text
'stop 1 0 0:' -> bad text
'recover 3 7 0' -> bad text
'recover 3 7 ;' -> bad text
# no commands
'request 1 ;' -> bad command
'request 1 "put"' -> bad command
'request 1 get "x"' -> bad command
'request 1 Put "x" 1' -> bad command
'request 1 del "k" ; ;' -> bad command
'request 1 del "k" ; ? count' -> bad command
'request 1 del "k" ; count' -> bad command
'request 1 ? del "k"' -> bad command
'request 1 ? ? count' -> bad command
'request 1 1' -> bad command
'weak 1 ? count' -> bad command
'weak 1 put "x" 1' -> bad command
'weak 1 Count' -> bad command
'dirty 1 "get"' -> bad command
'dirty 1 ;' -> bad command
# lists that don't ascend
'split 1 1' -> bad list
'merge 1 3 2' -> bad list
'split 2 1' -> bad list
'merge 32 32' -> bad list
'split 1 2 3 1' -> bad list
first 'start 1 1' -> bad list
first 'start 2*3 1*3' -> bad list
first 'start 1*3 1' -> bad list
# the first part at fault decides
'START 1 1' -> unknown word
'start 1 1' -> misplaced
'merge 2 1 x' -> bad list
'merge 2 x 1' -> bad number
'order 0 1' -> bad number
'request 0 set' -> bad number
'request 1 put x' -> bad text
'request 1 del "k" ; del' -> missing part
'stop 1 x y' -> bad number
'recover 3 x y' -> bad number
'join 1 2* 3' -> bad number
'transfer 1 x' -> bad number"#;

const LINES: &str = r#"# events
'split' -> itself
'split 1 2 32' -> itself
'merge' -> itself
'merge 7' -> itself
'order 1' -> itself
'recover 32' -> itself
'recover 3 7 -' -> itself
'recover 3 1000000 00ff' -> itself
'downgrade 3' -> itself
'show 10' -> itself
'show order' -> itself
'gather' -> itself
'end' -> itself
'receive 1 1' -> itself
'receive 1 1000000' -> itself
'deliver 2 9' -> itself
'rounds 1000000' -> itself
'stop 1 0 -' -> itself
'stop 1 1000000 00' -> itself
'stop 3 4 00ff09af' -> itself
'fail 1 1000000' -> itself
'join 1 2' -> itself
'join 1 2*2' -> itself
'join 32 31*255' -> itself
'leave 1 1' -> itself
'transfer 1 2 1000000' -> itself
first 'start 1*3 2 32*255' -> itself
# requests
'request 1 ? count' -> itself
'request 1 ? keys ""' -> itself
'request 1 ? get "a b"' -> itself
'request 1 put "x" 1' -> itself
'request 1 put "x" "1"' -> itself
'request 1 put "x" ""' -> itself
'request 1 put "é" "a\"b\\c;?"' -> itself
'request 1 del "x"' -> itself
'request 1 inc "x" -9223372036854775808' -> itself
'request 1 cas "x" absent 0' -> itself
'request 1 cas "x" "absent" -1' -> itself
'request 1 move "a" "a" 0' -> itself
'request 1 need "x" absent' -> itself
'request 1 need "x" 9223372036854775807' -> itself
'request 1 del "a"; del "a"; del "b" ? get "a"' -> itself
'weak 1 get "x"' -> itself
'weak 32 count' -> itself
'dirty 2 keys "k"' -> itself
# blanks between parts
' '09'end'09' ' -> end
'merge'09'1  2' -> merge 1 2
'weak 1 get"x"' -> weak 1 get "x"
'request 1?count' -> request 1 ? count
'request 1 put"a""b"?count' -> request 1 put "a" "b" ? count
'request 1 del"a";del"b"' -> request 1 del "a"; del "b"
'request 1 inc "a" 1;inc "b" 2 ;del "c"?get "d"' -> request 1 inc "a" 1; inc "b" 2; del "c" ? get "d"
# what stands behind 16 commands
more '' -> itself
more ' ? count' -> itself
more ';' -> missing part
more '; del "a"' -> bad list
more '; need' -> bad list
more '; set "a"' -> bad command
more ' del' -> extra part
# so many of a part stand at the star
long 64 x weak 1 get "*" -> itself
long 65 x weak 1 get "*" -> bad text
long 64 x weak 1 keys "*" -> itself
long 65 x weak 1 keys "*" -> bad text
long 1024 x request 1 put "k" "*" -> itself
long 1025 x request 1 put "k" "*" -> bad text
long 1024 x request 1 need "k" "*" ? count -> itself
long 1025 x request 1 need "k" "*" ? count -> bad text
long 4096 0f stop 1 0 * -> itself
long 4097 0f stop 1 0 * -> bad text
long 4096 0f recover 1 1 * -> itself
long 4097 0f recover 1 1 * -> bad text"#;

const PLACES: &str = "next '# first' -> nothing
next 'gather' -> misplaced
next 'end' -> misplaced
next 'ends' -> unknown word
next 'start 2 1' -> bad list
next 'start 1 2' -> itself
next 'start x' -> misplaced
next 'end 1' -> extra part
next 'end'0d -> unknown word
next 'end' -> itself
next '# end' -> nothing
next 'end' -> misplaced
next 'start' -> misplaced
next 'x' -> unknown word
next ff -> not UTF-8";

// the one place where an event is let go: each further one is shown over all variants
fn let_go(event: Event) {
    drop(event);
}

fn reason_of(fault: LineFault) -> &'static str {
    match fault {
        LineFault::Syntax(SyntaxReason::NotUtf8) => "not UTF-8",
        LineFault::Syntax(SyntaxReason::UnknownWord) => "unknown word",
        LineFault::Syntax(SyntaxReason::MissingPart) => "missing part",
        LineFault::Syntax(SyntaxReason::ExtraPart) => "extra part",
        LineFault::Syntax(SyntaxReason::BadNumber) => "bad number",
        LineFault::Syntax(SyntaxReason::BadText) => "bad text",
        LineFault::Syntax(SyntaxReason::BadCommand) => "bad command",
        LineFault::Syntax(SyntaxReason::BadList) => "bad list",
        LineFault::Syntax(SyntaxReason::Misplaced) => "misplaced",
        LineFault::NoMemory => "no memory",
    }
}

// the event's printed form, where that isn't the line itself
fn say_event(event: Event, line: &[u8], out: &mut Vec<u8>) {
    let _done = print_line(&event, out);
    let_go(event);
    if out.as_slice() == line {
        out.clear();
        say(out, "itself");
    }
}

fn say_line(alloc: Global, reader: &mut Reader, line: &[u8], out: &mut Vec<u8>) {
    match reader.read_line(alloc, line) {
        Ok(Some(event)) => say_event(event, line, out),
        Ok(None) => say(out, "nothing"),
        Err(fault) => say(out, reason_of(fault)),
    }
}

fn started(alloc: Global) -> Reader {
    let mut reader = Reader::new();
    if let Ok(Some(event)) = reader.read_line(alloc, b"start 1") {
        let_go(event);
    }
    reader
}

fn repeat(out: &mut Vec<u8>, part: &str, count: u64) {
    for _ in 0..count {
        say(out, part);
    }
}

// a line with so many parts at its star
fn stretched(alloc: Global, text: &str) -> Vec<u8> {
    let (count, text) = parts(text, " ");
    let (part, line) = parts(text, " ");
    let (front, back) = parts(line, "*");
    let mut out = Vec::new(alloc);
    say(&mut out, front);
    repeat(&mut out, part, number(count));
    say(&mut out, back);
    out
}

// a line of 16 commands with more behind them
fn filled(alloc: Global, more: &str) -> Vec<u8> {
    let mut out = Vec::new(alloc);
    say(&mut out, "request 1 del \"a\"");
    repeat(&mut out, "; del \"a\"", 15);
    let _done = put(&mut out, bytes_of(alloc, more).as_slice());
    out
}

/// Reads a line, as one behind a start where its first word is none of these.
pub(crate) fn read(alloc: Global, reader: &mut Reader, call: &str, out: &mut Vec<u8>) {
    let (word, text) = parts(call, " ");
    let mut other = started(alloc);
    match word {
        "first" => say_line(
            alloc,
            &mut Reader::new(),
            bytes_of(alloc, text).as_slice(),
            out,
        ),
        "next" => say_line(alloc, reader, bytes_of(alloc, text).as_slice(), out),
        "more" => say_line(alloc, &mut other, filled(alloc, text).as_slice(), out),
        "long" => say_line(alloc, &mut other, stretched(alloc, text).as_slice(), out),
        _ => say_line(alloc, &mut other, bytes_of(alloc, call).as_slice(), out),
    }
}

#[test]
fn lines_that_are_events_and_others(rt: HostRuntime) {
    let mut reader = Reader::new();
    follows(&rt, &mut reader, NO_LINES);
    follows(&rt, &mut reader, LINES);
}

#[test]
fn lines_behind_one_another(rt: HostRuntime) {
    let mut reader = Reader::new();
    follows(&rt, &mut reader, PLACES);
}
