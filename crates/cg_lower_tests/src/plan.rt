//! Plans worked by hand: what a case shows, a line for each summary, and the parts of the plan, each with its sender. Each
//! item of a part is accepted in its turn.

use crate::summaries::take;
use crate::table::{follows, say, say_name, say_shown, say_truth, say_with};
use cg_base::{ActionId, ReplicaId};
use cg_knowledge::Summary;
use cg_plan::{Item, Other, Part, Plan};
use std::alloc::Global;

const CASES: &str = "# two reds that others lack
1 red=1:1,3:1
2 red=1:1,2:1
3 red=1:1,3:1
plan -> 2 reds of 2 from 1 to 1;1 reds of 3 from 1 to 1;done
# nothing is lacking
1 green=2 cut=1:1 red=1:2
2 green=2 cut=1:1 red=1:2
plan -> done
# greens above the least count, from the lowest of the most updated
1 green=2
2 green=5
3 green=5
plan -> 2 greens 3 to 5;done
# a member that left lacks nothing
1
2 green=5 left=1
3 green=5
plan -> done
# a member that left sends
1 green=5 left=1
2 green=3
plan -> 1 greens 4 to 5;done
# nobody remains
1 green=5 red=1:2 left=1,2
2 green=3
plan -> done
# reds above the green cut of the most updated
1 green=2 cut=1:2 red=1:4
2 green=2 red=1:1
plan -> 1 reds of 1 from 3 to 4;done
# the lowest that has them sends reds
1
2 red=1:3
3 red=1:3
plan -> 2 reds of 1 from 1 to 3;done
# a member that left lacks no reds
1
2 green=1 red=1:2 left=1
3 green=1 red=1:2
plan -> done
# a member that left sends reds
1 red=1:3
2 green=1 red=1:1 left=1
3 green=1 red=1:1
plan -> 1 reds of 1 from 2 to 3;done
# greens first, then reds by creator
1 green=1 red=2:1,3:1
2 green=2 red=1:1
plan -> 2 greens 2 to 2;2 reds of 1 from 1 to 1;1 reds of 2 from 1 to 1;1 reds of 3 from 1 to 1;done
# the same in another order
2 green=2 red=1:1
1 green=1 red=2:1,3:1
plan -> 2 greens 2 to 2;2 reds of 1 from 1 to 1;1 reds of 2 from 1 to 1;1 reds of 3 from 1 to 1;done
# another item is refused with the wanted one, and whose turn it isn't has no part
1 red=1:1,3:1
2 red=1:1,2:1
3 red=1:1,3:1
other -> another item was wanted, or from another sender: 2:1, 1 has a part: no";

fn send_greens(plan: &mut Plan, sender: ReplicaId, from: u64, to: u64) -> bool {
    let mut as_wanted = true;
    for at in from..=to {
        as_wanted = plan.accept(sender, &Item::Green { at }).is_ok() && as_wanted;
    }
    as_wanted
}

fn send_reds(plan: &mut Plan, sender: ReplicaId, creator: ReplicaId, from: u64, to: u64) -> bool {
    let mut as_wanted = true;
    for index in from..=to {
        let id = ActionId { creator, index };
        as_wanted = plan.accept(sender, &Item::Red { id }).is_ok() && as_wanted;
    }
    as_wanted
}

fn say_part(out: &mut Vec<u8>, plan: &mut Plan, sender: ReplicaId, part: Part) {
    say_with(out, "", u64::from(sender.get()));
    let as_wanted = match part {
        Part::Greens { from, to } => {
            say_with(out, " greens ", from);
            say_with(out, " to ", to);
            send_greens(plan, sender, from, to)
        }
        Part::Reds { creator, from, to } => {
            say_with(out, " reds of ", u64::from(creator.get()));
            say_with(out, " from ", from);
            say_with(out, " to ", to);
            send_reds(plan, sender, creator, from, to)
        }
    };
    say(out, if as_wanted { ";" } else { ", refused;" });
}

// in each of four rounds each of three members sends a part, where it has the turn
fn say_plan(out: &mut Vec<u8>, plan: &mut Plan) {
    for _ in 0..4 {
        for n in 1..4u8 {
            let sender = ReplicaId::known(n);
            if let Some(part) = plan.turn(sender) {
                say_part(out, plan, sender, part);
            }
        }
    }
    say(out, if plan.done() { "done" } else { "more" });
}

// the words of a refusal, and the red that was wanted
fn say_refused(out: &mut Vec<u8>, other: Other) {
    say_shown(out, &other);
    if let Some(Item::Red { id }) = other.want {
        say(out, ": ");
        say_name(out, id);
    }
}

// where 3 sends its part first
fn say_other(out: &mut Vec<u8>, plan: &mut Plan) {
    let three = ReplicaId::known(3);
    let id = ActionId {
        creator: three,
        index: 1,
    };
    if let Err(other) = plan.accept(three, &Item::Red { id }) {
        say_refused(out, other);
    }
    say(out, ", 1 has a part: ");
    say_truth(out, plan.turn(ReplicaId::known(1)).is_some());
}

fn perform(alloc: Global, summaries: &mut Vec<Summary>, line: &str, out: &mut Vec<u8>) {
    if line != "plan" && line != "other" {
        take(alloc, summaries, line);
    } else if let Ok(made) = Plan::make(alloc, summaries) {
        let mut plan = made;
        if line == "plan" {
            say_plan(out, &mut plan);
        } else {
            say_other(out, &mut plan);
        }
    }
}

#[test]
fn plans_worked_by_hand(rt: HostRuntime) {
    let mut summaries = Vec::new(rt.alloc());
    follows(&rt, &mut summaries, CASES, perform);
    drop(summaries);
}
