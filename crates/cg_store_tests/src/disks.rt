//! Disks as texts, each with what is seen where it is opened as that of a replica.
//!
//! A side is `h`, the eight bytes at its front, and then bytes in decimal, and records: the length and the body of one that
//! is named, with some bytes written over, as `checkpoint@7=2`. With a 1 behind its name each of them is that of the older
//! format: `h1`, `checkpoint1`, `change1`. Behind a bar stands side B. Of what is found, the green and the white count are
//! seen, the attempt index, the kept greens, the yellow names, the other reds and the own actions, and what stands at "k".
//!
//! Replica 1 is among the servers 1 and 2, of which the second has weight 5. The action 2:1 puts 21 at "k", 2:2 puts 22, and
//! so on; all but 2:1 and 1:2 have green line 1. Behind a star stand weights, which the older format hasn't.

use crate::table::{is, number, parts, say, say_shown, say_with};
use cg_action::Query;
use cg_base::{ReplicaId, put};
use cg_client::{Core, names_of};
use cg_disk::{Disk, DiskFault, ModelDisk, Side};
use cg_store::{OpenErr, Store};
use cg_text::Txt;
use std::alloc::Global;
use std::process::Abort;

// 2:1 is green, 2:2 is yellow, and 1:1 is an own action.
const CHECKPOINT: &str = "0000000000000001
0000000000000000 0000000000000000 00000002 01 *01 02 *05
0000000000000003
00
01 00000001 02 0000000000000002
0000000000000001
0000000000000001 0000000000000000
00000001 02 0000000000000001
00000002 01 0000000000000001 *01 02 0000000000000000 *05
00000000
00000001 00000001 6b 02 0000000000000015
00000001 02 0000000000000001 0000000000000000 01 00000001 01 00000001 6b 02 0000000000000015 00
00000001 02 0000000000000002 0000000000000001 01 00000001 01 00000001 6b 02 0000000000000016 00
00000001 01 0000000000000001 0000000000000001 01 00000001 01 00000001 6b 02 000000000000000b 00";

// 1:1 becomes red, 2:2 green, and 1:2 is made.
const CHANGE: &str = "0000000000000000 0000000000000000 00000002 01 *01 02 *05
0000000000000004
00
01 00000000
0000000000000002
00000001 01 0000000000000001 0000000000000001 01 00000001 01 00000001 6b 02 000000000000000b 00
00000001 02 0000000000000002
00000001 01 0000000000000002 0000000000000002 01 00000001 01 00000001 6b 02 000000000000000c 00";

const OPENED: &str = "h 1 checkpoint 0 | h 0 -> g1 w0 a3 [2:1] [2:2] [] [1:1] k21
h 0 | h 1 checkpoint 0 -> g1 w0 a3 [2:1] [2:2] [] [1:1] k21
h 1 checkpoint 1 change 0 | h 0 -> g2 w1 a4 [2:2] [] [1:1] [1:2] k22
h 1 checkpoint 7 1 2 3 | h 0 -> g1 w0 a3 [2:1] [2:2] [] [1:1] k21
h 0 | h 0 -> no store
h 1 change 0 | h 0 -> no store
h 1 checkpoint 1 checkpoint 0 | h 0 -> no store
h 1 checkpoint 1 change 1 change 0 | h 0 -> no store
h 1 checkpoint 0 | h 1 checkpoint@7=2@39=9 0 -> g1 w0 a9 [2:1] [2:2] [] [1:1] k21
h 1 checkpoint@7=2 0 | h 1 checkpoint@39=9 0 -> g1 w0 a3 [2:1] [2:2] [] [1:1] k21
h 1 checkpoint 0 | h 1 checkpoint@39=9 0 -> g1 w0 a3 [2:1] [2:2] [] [1:1] k21
h 1 checkpoint 0 | h 1 change 0 -> g1 w0 a3 [2:1] [2:2] [] [1:1] k21
h 1 checkpoint 0 | h 1 checkpoint@7=2 1 checkpoint 0 -> no store
h@7=49 1 checkpoint 0 | h 0 -> no store
h 1 checkpoint 0 | -> no store
| -> no store";

// Disks of the older format, and some with a side of either.
const OLDER: &str = "h1 1 checkpoint1 0 | h1 0 -> g1 w0 a3 [2:1] [2:2] [] [1:1] k21
h1 0 | h1 1 checkpoint1 0 -> g1 w0 a3 [2:1] [2:2] [] [1:1] k21
h1 1 checkpoint1 1 change1 0 | h1 0 -> g2 w1 a4 [2:2] [] [1:1] [1:2] k22
h1 1 checkpoint1@37=7 0 | h1 1 checkpoint1@7=2 0 -> g1 w0 a3 [2:1] [2:2] [] [1:1] k21
h1 1 checkpoint1@37=7 0 | h1 1 checkpoint1 0 -> g1 w0 a7 [2:1] [2:2] [] [1:1] k21
h1 1 checkpoint1@37=7 0 | h 1 checkpoint 0 -> g1 w0 a7 [2:1] [2:2] [] [1:1] k21
h1 1 checkpoint1@37=7 0 | h 1 checkpoint@7=2 0 -> g1 w0 a3 [2:1] [2:2] [] [1:1] k21
h 1 checkpoint 0 | h1 1 checkpoint1@7=2@37=7 1 change1 0 -> g2 w1 a4 [2:2] [] [1:1] [1:2] k22
h@7=51 0 | h1 1 checkpoint1 0 -> g1 w0 a3 [2:1] [2:2] [] [1:1] k21
h@7=51 1 9 | h 1 checkpoint 0 -> g1 w0 a3 [2:1] [2:2] [] [1:1] k21
h1 1 checkpoint1@0=63 0 | h1 0 -> g1 w0 a3 [2:1] [2:2] [] [1:1] k21
h1 1 checkpoint1@0=64 0 | h1 0 -> no store
h1 1 checkpoint 0 | h 0 -> no store
h 1 checkpoint1 0 | h1 0 -> no store
h1 1 checkpoint1 1 change 0 | h1 0 -> no store
h@7=51 1 checkpoint 0 | h 0 -> no store
h@7=51 0 | h@7=51 0 -> no store
h1 1 checkpoint1 0 | h -> no store";

// The device calls of an opening, and of the next one.
const CALLS: &str = "h 1 checkpoint 0 | h 0 -> 5 5
h 1 checkpoint 0 | h1 0 -> 9 5
h 1 checkpoint 0 | h@7=51 1 9 -> 9 5
h1 1 checkpoint1 0 | h 1 checkpoint@7=2 0 -> 9 5
h1 1 checkpoint1 0 | h 1 checkpoint 0 -> 16 5
h1 1 checkpoint1 0 | h1 0 -> 16 5
h1 0 | h1 1 checkpoint1 0 -> 16 5
h@7=51 1 9 | h1 1 checkpoint1 1 change1 0 -> 16 5";

// A stop in a call of an opening of the older disk, with these bytes in the places that weren't synced; and the calls of the
// next opening, and whether it finds what stood there.
const TORN: &str = "6 - -> 16 same
8 4347525549545932 -> 16 same
9 01 -> 16 same
10 0101010101010101010101 -> 16 same
11 00 -> 16 same
11 01 -> 9 same
12 - -> 16 same
12 01 -> 9 same
13 01 -> 9 same
14 - -> 9 same
15 - -> 9 same
15 4347525549545932 -> 5 same
16 434752554954 -> 9 same
16 4347525549545932 -> 5 same
17 - -> it isn't torn";

const OLDER_SIDES: &str = "h1 1 checkpoint1 0 | h1 0";

const OLDER_CORE: &str = "g1 w0 a3 [2:1] [2:2] [] [1:1] k21";

// The same, opened as the disk of replica 2.
const OTHERS: &str = "h 1 checkpoint 0 | h 0 -> no store";

// Each has one byte that is no other's, and says what can't be.
const REFUSED: &str = "h 1 checkpoint@41=2 0 | h 0 -> no store
h 1 checkpoint@54=3 0 | h 0 -> no store
h 1 checkpoint@62=2 0 | h 0 -> no store
h 1 checkpoint@70=2 0 | h 0 -> no store
h 1 checkpoint@104=2 0 | h 0 -> no store
h 1 checkpoint 1 change@0=128 0 | h 0 -> no store
h 1 checkpoint 1 change@32=2 0 | h 0 -> no store
h 1 checkpoint 1 change@45=3 0 | h 0 -> no store
h 1 checkpoint 1 change@58=2 0 | h 0 -> no store
h 1 checkpoint 1 change@100=3 0 | h 0 -> no store
h 1 checkpoint 1 change@105=2 0 | h 0 -> no store";

fn digit(character: u8) -> Option<u8> {
    match character {
        b'0'..=b'9' => Some(character - b'0'),
        b'a'..=b'f' => Some(character - b'a' + 10),
        _ => None,
    }
}

// one more digit, behind the first one of its byte where there is one
fn add_digit(out: &mut Vec<u8>, first: Option<u8>, digit: u8) -> Option<u8> {
    match first {
        Some(first) => {
            let _done = put(out, &[first << 4 | digit]);
            None
        }
        None => Some(digit),
    }
}

// the bytes of a word, two digits each
fn put_digits(out: &mut Vec<u8>, word: &str) {
    let mut first = None;
    for character in word.as_bytes() {
        if let Some(digit) = digit(*character) {
            first = add_digit(out, first, digit);
        }
    }
}

// the bytes of a text, with its weights or without them
fn bytes_of(alloc: Global, text: &str, weights: bool) -> Vec<u8> {
    let mut bytes = Vec::new(alloc);
    for word in text.split_whitespace() {
        if weights || !word.starts_with('*') {
            put_digits(&mut bytes, word);
        }
    }
    bytes
}

// what is named, with some bytes written over, as in `7=2`
fn edited(alloc: Global, word: &str) -> Vec<u8> {
    let (name, edits) = parts(word, "@");
    let mut bytes = bytes_of(
        alloc,
        match name {
            "h" => "4347525549545932",
            "h1" => "4347525549545931",
            "checkpoint" | "checkpoint1" => CHECKPOINT,
            _ => CHANGE,
        },
        !name.ends_with('1'),
    );
    for edit in edits.split('@') {
        if let Some((place, byte)) = edit.split_once('=') {
            let place = number(place) as usize;
            if place < bytes.len() {
                bytes[place] = (number(byte) % 256) as u8;
            }
        }
    }
    bytes
}

fn put_word(alloc: Global, out: &mut Vec<u8>, word: &str) {
    if word.starts_with('h') {
        let _done = put(out, edited(alloc, word).as_slice());
    } else if word.starts_with('c') {
        let bytes = edited(alloc, word);
        let length = bytes.len();
        let _done = put(
            out,
            &[0, 0, (length / 256 % 256) as u8, (length % 256) as u8],
        );
        let _done = put(out, bytes.as_slice());
    } else {
        let _done = put(out, &[(number(word) % 256) as u8]);
    }
}

fn side(alloc: Global, text: &str) -> Vec<u8> {
    let mut out = Vec::new(alloc);
    for word in text.split_whitespace() {
        put_word(alloc, &mut out, word);
    }
    out
}

// a disk on which these bytes stand
fn disk_of(alloc: Global, a: &[u8], b: &[u8]) -> Result<ModelDisk, DiskFault> {
    let mut disk = ModelDisk::new(alloc);
    disk.write_at(Side::A, 0, a)?;
    disk.write_at(Side::B, 0, b)?;
    Ok(disk)
}

fn say_greens(core: &Core, out: &mut Vec<u8>) {
    if let Ok(greens) = core.greens() {
        if let Ok(names) = names_of(core.alloc(), greens.as_slice()) {
            say_shown(out, &names);
        }
        drop(greens);
    }
}

fn say_view(core: &Core, out: &mut Vec<u8>) {
    if let Ok(view) = core.view() {
        say(out, " ");
        say_shown(out, &view.yellow.list);
        say(out, " ");
        say_shown(out, &view.reds);
        say(out, " ");
        say_shown(out, &view.own);
        drop(view);
    }
}

// what stands at "k"
fn say_key(core: &Core, out: &mut Vec<u8>) {
    say(out, " k");
    if let Ok(key) = Txt::new(core.alloc(), "k") {
        let query = Query::Get(key);
        if let Ok(answer) = core.weak(&query) {
            say_shown(out, &answer);
            drop(answer);
        }
        drop(query);
    }
}

fn say_core(core: &Core, out: &mut Vec<u8>) {
    say_with(out, "g", core.green_count());
    say_with(out, " w", core.white_count());
    say_with(out, " a", core.attempt_index());
    say(out, " ");
    say_greens(core, out);
    say_view(core, out);
    say_key(core, out);
}

fn say_found(opened: Result<(Store<ModelDisk>, Core), OpenErr<ModelDisk>>, out: &mut Vec<u8>) {
    match opened {
        Ok((store, core)) => {
            drop(store);
            say_core(&core, out);
            drop(core);
        }
        Err(OpenErr::NotAStore(disk)) => {
            drop(disk);
            say(out, "no store");
        }
        Err(fault) => {
            drop(fault);
            say(out, "it isn't opened");
        }
    }
}

fn say_opened(alloc: Global, disk: ModelDisk, id: ReplicaId, out: &mut Vec<u8>) {
    if disk.calls() > 1000 {
        drop(disk);
        return;
    }
    say_found(Store::open(alloc, disk, id), out);
}

fn say_sides(alloc: Global, sides: &str, id: ReplicaId, out: &mut Vec<u8>) {
    let (a, b) = parts(sides, "|");
    let a = side(alloc, a);
    let b = side(alloc, b);
    if let Ok(disk) = disk_of(alloc, a.as_slice(), b.as_slice()) {
        say_opened(alloc, disk, id, out);
    }
}

fn opens(rt: &(impl Abort + AllocGlobal), lines: &str, id: ReplicaId) {
    for line in lines.lines() {
        let (sides, expected) = parts(line, " -> ");
        let mut out = Vec::new(rt.alloc());
        say_sides(rt.alloc(), sides, id, &mut out);
        is(rt, out.as_slice(), expected, line);
    }
}

// the disk of an opened store, behind so many calls
fn closed(
    opened: Result<(Store<ModelDisk>, Core), OpenErr<ModelDisk>>,
    before: u64,
    out: &mut Vec<u8>,
) -> Option<ModelDisk> {
    match opened {
        Ok((store, core)) => {
            drop(core);
            let disk = store.into_disk();
            say_with(out, "", disk.calls().saturating_sub(before));
            Some(disk)
        }
        Err(fault) => {
            drop(fault);
            say(out, "it isn't opened");
            None
        }
    }
}

fn say_calls(alloc: Global, disk: ModelDisk, out: &mut Vec<u8>) -> Option<ModelDisk> {
    let before = disk.calls();
    if before > 1000 {
        drop(disk);
        return None;
    }
    closed(Store::open(alloc, disk, ReplicaId::known(1)), before, out)
}

fn say_both(alloc: Global, disk: ModelDisk, out: &mut Vec<u8>) {
    if let Some(disk) = say_calls(alloc, disk, out) {
        say(out, " ");
        drop(say_calls(alloc, disk, out));
    }
}

fn say_openings(alloc: Global, sides: &str, out: &mut Vec<u8>) {
    let (a, b) = parts(sides, "|");
    let a = side(alloc, a);
    let b = side(alloc, b);
    if let Ok(disk) = disk_of(alloc, a.as_slice(), b.as_slice()) {
        say_both(alloc, disk, out);
    }
}

#[test]
fn openings_make_calls(rt: HostRuntime) {
    for line in CALLS.lines() {
        let (sides, expected) = parts(line, " -> ");
        let mut out = Vec::new(rt.alloc());
        say_openings(rt.alloc(), sides, &mut out);
        is(&rt, out.as_slice(), expected, line);
    }
}

fn torn(
    opened: Result<(Store<ModelDisk>, Core), OpenErr<ModelDisk>>,
    fill: &[u8],
) -> Option<ModelDisk> {
    match opened {
        Ok((store, core)) => {
            drop(store);
            drop(core);
            None
        }
        Err(OpenErr::Lost(disk)) => disk.image(fill).ok(),
        Err(fault) => {
            drop(fault);
            None
        }
    }
}

// the disk behind a stop in one of the calls of its opening
fn stopped(alloc: Global, disk: ModelDisk, call: u64, fill: &[u8]) -> Option<ModelDisk> {
    let mut disk = disk;
    if disk.calls() > 1000 || call == 0 {
        drop(disk);
        return None;
    }
    disk.stop_at(call);
    torn(Store::open(alloc, disk, ReplicaId::known(1)), fill)
}

fn say_same(core: &Core, out: &mut Vec<u8>) {
    let mut seen = Vec::new(core.alloc());
    say_core(core, &mut seen);
    let same = seen.as_slice() == OLDER_CORE.as_bytes();
    say(out, if same { " same" } else { " other" });
}

fn say_again(
    opened: Result<(Store<ModelDisk>, Core), OpenErr<ModelDisk>>,
    before: u64,
    out: &mut Vec<u8>,
) {
    match opened {
        Ok((store, core)) => {
            say_with(out, "", store.calls().saturating_sub(before));
            drop(store);
            say_same(&core, out);
            drop(core);
        }
        Err(fault) => {
            drop(fault);
            say(out, "it isn't opened");
        }
    }
}

fn say_behind(alloc: Global, torn: Option<ModelDisk>, out: &mut Vec<u8>) {
    let Some(disk) = torn else {
        say(out, "it isn't torn");
        return;
    };
    let before = disk.calls();
    if before > 1000 {
        drop(disk);
        return;
    }
    say_again(Store::open(alloc, disk, ReplicaId::known(1)), before, out);
}

fn say_torn(alloc: Global, strike: &str, out: &mut Vec<u8>) {
    let (a, b) = parts(OLDER_SIDES, "|");
    let a = side(alloc, a);
    let b = side(alloc, b);
    let (call, fill) = parts(strike, " ");
    let fill = bytes_of(alloc, fill, true);
    if let Ok(disk) = disk_of(alloc, a.as_slice(), b.as_slice()) {
        let torn = stopped(alloc, disk, number(call), fill.as_slice());
        say_behind(alloc, torn, out);
    }
}

#[test]
fn openings_go_on_where_one_was_torn(rt: HostRuntime) {
    for line in TORN.lines() {
        let (strike, expected) = parts(line, " -> ");
        let mut out = Vec::new(rt.alloc());
        say_torn(rt.alloc(), strike, &mut out);
        is(&rt, out.as_slice(), expected, line);
    }
}

#[test]
fn disks_are_opened(rt: HostRuntime) {
    opens(&rt, OPENED, ReplicaId::known(1));
    opens(&rt, OLDER, ReplicaId::known(1));
    opens(&rt, REFUSED, ReplicaId::known(1));
    opens(&rt, OTHERS, ReplicaId::known(2));
}
