//! Summaries as lines.
//!
//! A summary is its member with what it tells: its primary component as index, configuration and members; the attempt
//! index; the record as attempt, from, members and bits; the yellow list, which is valid but for `invalid`; how many
//! actions are green, how far those of creators are (`cut`), and how far the known ones (`red`); who left. What isn't
//! written is 0 or empty.

use crate::table::{id, name, number, parts, set};
use cg_base::{Cut, IdList, IdSet, ReplicaId, WeightSet};
use cg_knowledge::Summary;
use cg_records::{Primary, Vulnerable, Yellow};
use std::alloc::Global;

/// The names of a list as `1:1,2:2`.
pub(crate) fn names(alloc: Global, text: &str) -> IdList {
    let mut list = IdList::new(alloc);
    for part in text.split(',') {
        if part != "" {
            let _done = list.push(name(part));
        }
    }
    list
}

/// A primary component as `1/2/1,2`.
pub(crate) fn primary(text: &str) -> Primary {
    let (index, rest) = parts(text, "/");
    let (conf, members) = parts(rest, "/");
    Primary {
        index: number(index),
        conf: number(conf),
        set: WeightSet::of(&set(members)),
    }
}

/// A record as `2/1/1,2/1`.
pub(crate) fn record(text: &str) -> Vulnerable {
    let (attempt, rest) = parts(text, "/");
    let (from, sets) = parts(rest, "/");
    let (members, bits) = parts(sets, "/");
    Vulnerable {
        attempt: number(attempt),
        from: number(from),
        set: set(members),
        bits: set(bits),
    }
}

fn cut(text: &str) -> Cut {
    let mut cut = Cut::zero();
    for part in text.split(',') {
        let last = name(part);
        cut.raise(last.creator, last.index);
    }
    cut
}

fn blank(alloc: Global, id: ReplicaId) -> Summary {
    Summary {
        id,
        conf: 9,
        prim: Primary {
            index: 0,
            conf: 0,
            set: WeightSet::empty(),
        },
        attempt_index: 0,
        vulnerable: None,
        yellow: Yellow {
            valid: false,
            list: IdList::new(alloc),
        },
        green_count: 0,
        green_cut: Cut::zero(),
        red_cut: Cut::zero(),
        left: IdSet::empty(),
    }
}

fn tell(alloc: Global, s: &mut Summary, part: &str) {
    let (what, text) = parts(part, "=");
    match what {
        "prim" => s.prim = primary(text),
        "attempt" => s.attempt_index = number(text),
        "record" => s.vulnerable = Some(record(text)),
        "green" => s.green_count = number(text),
        "cut" => s.green_cut = cut(text),
        "red" => s.red_cut = cut(text),
        "left" => s.left = set(text),
        _ => {
            s.yellow = Yellow {
                valid: what == "yellow",
                list: names(alloc, text),
            }
        }
    }
}

fn summary(alloc: Global, line: &str) -> Summary {
    let (member, told) = parts(line, " ");
    let mut summary = blank(alloc, id(member));
    for part in told.split(' ') {
        tell(alloc, &mut summary, part);
    }
    summary
}

/// Takes a line: one more summary, or a title, behind which there are none yet.
pub(crate) fn take(alloc: Global, summaries: &mut Vec<Summary>, line: &str) {
    if line.starts_with('#') {
        summaries.clear();
    } else {
        let _done = summaries.push(summary(alloc, line));
    }
}
