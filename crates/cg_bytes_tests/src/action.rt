//! Actions: their bytes, with what they do as lines show it.

ghost use Rattle.cg_action.specs.ActionLimits.{IsAction};

use crate::bytes::bytes_of;
use crate::table::{follows, is, parts, say, say_shown};
use cg_action::{Action, Value, copy_actions, decode, encode, print_kind, print_value, put_action};
use cg_base::put;
use cg_schedule::Reader;
use std::alloc::Global;

// the action 1:1 with green line 0, up to the tag of what it does
const NAMED: &str = "01 0000000000000001 0000000000000000 ";

const KINDS: &str = r#"kind 01 00000001 01 00000001'x' 02 0000000000000001 00 -> put "x" 1
kind 02 05 -> join 5
kind 04 05 03 -> join 5*3
kind 04 20 ff -> join 32*255
kind 03 07 -> leave 7
kind 01 00000000 01 03 -> ? count
kind 01 00000000 01 02 00000000 -> ? keys ""
kind 01 00000001 02 00000001'k' 01 01 00000001'k' -> del "k" ? get "k"
kind 01 00000001 03 00000001'k' 8000000000000000 00 -> inc "k" -9223372036854775808
kind 01 00000001 04 00000001'k' 00 01 00000000 00 -> cas "k" absent ""
kind 01 00000001 04 00000001'k' 02 ffffffffffffffff 01 00000001'"' 00 -> cas "k" -1 "\""
kind 01 00000001 05 00000001'a' 00000001'b' 7fffffffffffffff 00 -> move "a" "b" 9223372036854775807
kind 01 00000001 06 00000001'k' 00 00 -> need "k" absent
kind 01 00000002 02 00000001'a' 02 00000001'b' 01 03 -> del "a"; del "b" ? count
actions 01 0000000000000001 0000000000000000 01 00000001 01 00000001'x' 02 0000000000000001 00 -> 1:1 put "x" 1"#;

// the bytes of an action that does this
fn named(alloc: Global, kind: &str) -> Vec<u8> {
    let mut bytes = bytes_of(alloc, NAMED);
    let _done = put(&mut bytes, bytes_of(alloc, kind).as_slice());
    bytes
}

// whether it has the names of NAMED, and these bytes, also where it is put behind others
fn is_spelled(alloc: Global, action: &Action, bytes: &[u8]) -> bool
    requires { IsAction action.now }
{
    let mut out = Vec::new(alloc);
    let _done = encode(action, &mut out);
    let is_same = out.as_slice() == bytes;
    let _done = put_action(&mut out, action);
    let has_names = action.id.creator.get() == 1 && action.id.index == 1 && action.green_line == 0;
    is_same && out.len() / 2 == bytes.len() && has_names
}

fn say_kind(alloc: Global, action: &Action, bytes: &[u8], out: &mut Vec<u8>)
    requires { IsAction action.now }
{
    let _done = print_kind(action.kind.get(), out);
    if !is_spelled(alloc, action, bytes) {
        say(out, ", and other bytes");
    }
}

/// What an action of these bytes does.
pub(crate) fn show_kind(alloc: Global, kind: &str, out: &mut Vec<u8>) {
    let bytes = named(alloc, kind);
    if let Ok(action) = decode(alloc, bytes.as_slice()) {
        say_kind(alloc, &action, bytes.as_slice(), out);
        drop(action);
    }
}

/// The copies of a list of one.
pub(crate) fn show_copies(alloc: Global, text: &str, out: &mut Vec<u8>) {
    let bytes = bytes_of(alloc, text);
    if let Ok(action) = decode(alloc, bytes.as_slice()) {
        if let Ok(copies) = copy_actions(alloc, &[action]) {
            for copy in copies.as_slice() {
                say_shown(out, copy);
            }
            drop(copies);
        }
    }
}

#[test]
fn bytes_that_are_read(rt: HostRuntime) {
    let mut reader = Reader::new();
    follows(&rt, &mut reader, KINDS);
}

#[test]
fn a_value_is_printed(rt: HostRuntime) {
    let mut out = Vec::new(rt.alloc());
    let _done = print_value(&Value::Int(-2), &mut out);
    is(&rt, out.as_slice(), "-2");
}
