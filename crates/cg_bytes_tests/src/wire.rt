//! Messages. One is written as the bytes of its fields, with a blank between two of them.

ghost use Rattle.cg_wire.specs.Limits.{IsMsg};

use crate::bytes::bytes_of;
use crate::table::{follows, say, say_name, say_number, say_set, say_shown};
use cg_action::Action;
use cg_base::Cut;
use cg_knowledge::Summary;
use cg_records::Vulnerable;
use cg_schedule::Reader;
use cg_wire::{Msg, decode, encode};
use std::alloc::Global;

// the action 1:1 with green line 0 that puts 1 at "x"
const ACTION: &str = "01 01 0000000000000001 0000000000000000 01 00000001 01 00000001'x' 02 \
    0000000000000001 00";

// the member 3 in configuration 9, with one of everything
const STATE: &str = "02 03 0000000000000009 0000000000000002 0000000000000004 00000002 01 01 03 05 \
    0000000000000006 01 0000000000000008 0000000000000002 00000002 01 03 00000001 03 \
    01 00000001 01 000000000000000b 0000000000000007 00000001 01 000000000000000a \
    00000002 01 000000000000000c 03 0000000000000001 00000001 02";

// a member that has nothing to tell
const SHORT_STATE: &str = "02 20 0000000000000001 0000000000000000 0000000000000000 00000000 \
    0000000000000000 00 00 00000000 0000000000000000 00000000 00000000 00000000";

// the same action at the green place 7
const GREEN: &str = "03 01 0000000000000007 01 0000000000000001 0000000000000000 01 00000001 01 \
    00000001'x' 02 0000000000000001 00";

// and as a red action
const RED: &str = "03 02 01 0000000000000001 0000000000000000 01 00000001 01 00000001'x' 02 \
    0000000000000001 00";

// the member 5 is ready in configuration 258
const CPC: &str = "04 05 0000000000000102";

const SAID: &str = "said action -> action 1:1 behind 0
said state -> member 3 in 9, 2/4 {1,3*5}, attempt 6, record 8/2 {1,3} {3}, yellow [1:11], green 7 [1:10], red [1:12][3:1], left {2}
said short state -> member 32 in 1, 0/0 {}, attempt 0, no record, no yellow [], green 0 , red , left {}
said green -> green 7, action 1:1 behind 0
said red -> red, action 1:1 behind 0
said cpc -> ready 5 in 258";

fn fields_of(kind: &str) -> &'static str {
    match kind {
        "action" => ACTION,
        "state" => STATE,
        "short state" => SHORT_STATE,
        "green" => GREEN,
        "red" => RED,
        _ => CPC,
    }
}

fn say_action(out: &mut Vec<u8>, action: &Action) {
    say(out, "action ");
    say_name(out, action.id);
    say(out, " behind ");
    say_number(out, action.green_line);
}

// a text and the number behind it
fn say_with(out: &mut Vec<u8>, text: &str, number: u64) {
    say(out, text);
    say_number(out, number);
}

fn say_cut(out: &mut Vec<u8>, cut: &Cut) {
    for last in cut.iter() {
        say(out, "[");
        say_name(out, last);
        say(out, "]");
    }
}

fn say_record(out: &mut Vec<u8>, record: &Vulnerable) {
    say_with(out, ", record ", record.attempt);
    say_with(out, "/", record.from);
    say(out, " ");
    say_set(out, record.set);
    say(out, " ");
    say_set(out, record.bits);
}

fn say_primary(out: &mut Vec<u8>, summary: &Summary) {
    say_with(out, "member ", u64::from(summary.id.get()));
    say_with(out, " in ", summary.conf);
    say_with(out, ", ", summary.prim.index);
    say_with(out, "/", summary.prim.conf);
    say(out, " ");
    say_shown(out, &summary.prim.set);
    say_with(out, ", attempt ", summary.attempt_index);
}

fn say_summary(out: &mut Vec<u8>, summary: &Summary) {
    say_primary(out, summary);
    match &summary.vulnerable {
        Some(record) => say_record(out, record),
        None => say(out, ", no record"),
    }
    let is_valid = summary.yellow.valid;
    say(
        out,
        if is_valid {
            ", yellow "
        } else {
            ", no yellow "
        },
    );
    say_shown(out, &summary.yellow.list);
    say_with(out, ", green ", summary.green_count);
    say(out, " ");
    say_cut(out, &summary.green_cut);
    say(out, ", red ");
    say_cut(out, &summary.red_cut);
    say(out, ", left ");
    say_set(out, summary.left);
}

fn say_message(out: &mut Vec<u8>, message: &Msg) {
    match message {
        Msg::Action(action) => say_action(out, action),
        Msg::State(summary) => say_summary(out, summary.get()),
        Msg::GreenItem { at, action } => {
            say_with(out, "green ", *at);
            say(out, ", ");
            say_action(out, action);
        }
        Msg::RedItem(action) => {
            say(out, "red, ");
            say_action(out, action);
        }
        Msg::Cpc { id, conf } => {
            say_with(out, "ready ", u64::from(id.get()));
            say_with(out, " in ", *conf);
        }
    }
}

fn is_spelled(alloc: Global, message: &Msg, bytes: &[u8]) -> bool
    requires { IsMsg message.now }
{
    match encode(alloc, message) {
        Ok(again) => again.as_slice() == bytes,
        Err(_) => false,
    }
}

/// What a message says, and whether it is written again so.
pub(crate) fn show_said(alloc: Global, kind: &str, out: &mut Vec<u8>) {
    let bytes = bytes_of(alloc, fields_of(kind));
    if let Ok(message) = decode(alloc, bytes.as_slice()) {
        say_message(out, &message);
        if !is_spelled(alloc, &message, bytes.as_slice()) {
            say(out, ", and other bytes");
        }
        drop(message);
    }
}

#[test]
fn each_kind_in_bytes(rt: HostRuntime) {
    let mut reader = Reader::new();
    follows(&rt, &mut reader, SAID);
}
