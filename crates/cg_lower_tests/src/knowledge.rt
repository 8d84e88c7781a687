//! Verdicts worked by hand: what a case shows, a line for each summary, and the verdict. Behind the arrow stands each
//! summary's record, where it stays, as the line of a replica shows one.

use crate::summaries::take;
use crate::table::{follows, say, say_set, say_shown, say_with};
use cg_knowledge::{Summary, Verdict, decide};
use cg_records::Vulnerable;
use std::alloc::Global;

const CASES: &str = "# two records that stay get the bits of both
2 prim=1/1/1,2,3 record=2/1/1,2,4/2
3 prim=1/1/1,2,3
4 prim=1/1/1,2,3 record=2/1/1,2,4/4
decide -> 1/1 {1,2,3}, attempt 0, no yellow [], gone {}, no quorum, records v2/1{1,2,4}{2,4} none v2/1{1,2,4}{2,4}
# a replica alone in its set
1 prim=0/0/1
decide -> 0/0 {1}, attempt 0, no yellow [], gone {}, quorum, records none
# more than half
1 prim=1/1/1,2,3
2 prim=1/1/1,2,3
decide -> 1/1 {1,2,3}, attempt 0, no yellow [], gone {}, quorum, records none none
# less than half
3 prim=1/1/1,2,3
decide -> 1/1 {1,2,3}, attempt 0, no yellow [], gone {}, no quorum, records none
# half with the least member
1 prim=1/1/1,2,3,4
2 prim=1/1/1,2,3,4
decide -> 1/1 {1,2,3,4}, attempt 0, no yellow [], gone {}, quorum, records none none
# half without it
3 prim=1/1/1,2,3,4
4 prim=1/1/1,2,3,4
decide -> 1/1 {1,2,3,4}, attempt 0, no yellow [], gone {}, no quorum, records none none
# the lowest member of the newest has the primary component, and the greatest attempt index counts
1 prim=1/1/1,2,3 attempt=9
2 prim=2/5/2,3 attempt=3
3 prim=2/6/2,3 attempt=7
decide -> 2/5 {2,3}, attempt 7, no yellow [], gone {}, quorum, records none none none
# the same in another order
3 prim=2/6/2,3 attempt=7
2 prim=2/5/2,3 attempt=3
1 prim=1/1/1,2,3 attempt=9
decide -> 2/5 {2,3}, attempt 7, no yellow [], gone {}, quorum, records none none none
# of two with as many greens the lower one says who left
1 prim=1/1/1,2 green=5
2 prim=1/1/1,2 green=5 left=1
decide -> 1/1 {1,2}, attempt 0, no yellow [], gone {}, quorum, records none none
# one with more greens says who left
1 prim=1/1/1,2 green=5
2 prim=1/1/1,2 green=6 left=1
decide -> 1/1 {1,2}, attempt 0, no yellow [], gone {1}, no quorum, records none none
# those who left and are no members are passed over
1 prim=1/1/1,2 green=3 left=3,4
2 prim=1/1/1,2
decide -> 1/1 {1,2}, attempt 0, no yellow [], gone {}, quorum, records none none
# the only member has left
1 prim=1/1/1,2 left=1
decide -> 1/1 {1,2}, attempt 0, no yellow [], gone {1}, no quorum, records none
# all members have left
1 prim=1/1/1,2 green=2 left=1,2
2 prim=1/1/1,2
decide -> 1/1 {1,2}, attempt 0, no yellow [], gone {1,2}, no quorum, records none none
# two later primary components clear a record
1 prim=3/9/1,2 record=2/1/1,2,3/1
2 prim=3/9/1,2 record=2/1/1,2,3/2
decide -> 3/9 {1,2}, attempt 0, no yellow [], gone {}, quorum, records none none
# its own primary component clears none
1 prim=2/2/1,2 record=2/1/1,2,3/1
2 prim=2/2/1,2 record=2/1/1,2,3/2
decide -> 2/2 {1,2}, attempt 0, no yellow [], gone {}, no quorum, records v2/1{1,2,3}{1,2} v2/1{1,2,3}{1,2}
# that of another attempt clears it
1 prim=2/7/1,2 record=2/1/1,2,3/1
2 prim=2/7/1,2 record=2/1/1,2,3/2
decide -> 2/7 {1,2}, attempt 0, no yellow [], gone {}, quorum, records none none
# a member of the attempt without a record clears it
1 prim=1/1/1,2 record=2/1/1,2/1
2 prim=1/1/1,2
decide -> 1/1 {1,2}, attempt 0, no yellow [], gone {}, quorum, records none none
# and so does one with a record of another attempt
1 prim=1/1/1,2 record=2/1/1,2/1
2 prim=1/1/1,2 record=3/1/1,2/2
decide -> 1/1 {1,2}, attempt 0, no yellow [], gone {}, quorum, records none none
# one that was no member of the attempt does not
1 prim=1/1/1,2 record=2/1/1,3/1
2 prim=1/1/1,2
decide -> 1/1 {1,2}, attempt 0, no yellow [], gone {}, no quorum, records v2/1{1,3}{1} none
# the bits of all members of the attempt clear it
1 prim=1/1/1,2 record=2/1/1,2/1
2 prim=1/1/1,2 record=2/1/1,2/2
decide -> 1/1 {1,2}, attempt 0, no yellow [], gone {}, quorum, records none none
# also where they are of absent ones
1 prim=1/1/1,2 record=2/1/1,2,3/1,3
2 prim=1/1/1,2 record=2/1/1,2,3/2
decide -> 1/1 {1,2}, attempt 0, no yellow [], gone {}, quorum, records none none
# bits of another attempt do not count
1 prim=1/1/1,4 record=2/1/1,2,3/1,2
4 prim=1/1/1,4 record=5/1/4,5/3
decide -> 1/1 {1,4}, attempt 0, no yellow [], gone {}, no quorum, records v2/1{1,2,3}{1,2} v5/1{4,5}{3}
# a member that left counts as present
1 prim=1/1/1,2 record=2/1/1,2/1 left=2
2 prim=1/1/1,2
decide -> 1/1 {1,2}, attempt 0, no yellow [], gone {2}, quorum, records none none
# the record of one that left stays too
1 prim=1/1/1,2 left=2
2 prim=1/1/1,2 record=3/1/2,5/2
decide -> 1/1 {1,2}, attempt 0, no yellow [], gone {2}, no quorum, records none v3/1{2,5}{2}
# a record outside of the last primary component stays
1 prim=1/1/1,2,3
2 prim=1/1/1,2,3
4 prim=1/1/1,2,3 record=2/1/4,5/4
decide -> 1/1 {1,2,3}, attempt 0, no yellow [], gone {}, no quorum, records none none v2/1{4,5}{4}
# one yellow list
1 prim=1/1/1,2 yellow=1:1,2:1
2 prim=1/1/1,2
decide -> 1/1 {1,2}, attempt 0, yellow [1:1,2:1], gone {}, quorum, records none none
# two yellow lists, in the order of the lower member
1 prim=1/1/1,2 yellow=1:1,2:1,3:1
2 prim=1/1/1,2 yellow=3:1,1:1
decide -> 1/1 {1,2}, attempt 0, yellow [1:1,3:1], gone {}, quorum, records none none
# the same in another order
2 prim=1/1/1,2 yellow=3:1,1:1
1 prim=1/1/1,2 yellow=1:1,2:1,3:1
decide -> 1/1 {1,2}, attempt 0, yellow [1:1,3:1], gone {}, quorum, records none none
# three yellow lists
1 prim=1/1/1,2,3 yellow=1:1,2:1,3:1
2 prim=1/1/1,2,3 yellow=2:1,3:1
3 prim=1/1/1,2,3 yellow=3:1,2:1
decide -> 1/1 {1,2,3}, attempt 0, yellow [2:1,3:1], gone {}, quorum, records none none none
# nothing in common
1 prim=1/1/1,2 yellow=1:1
2 prim=1/1/1,2 yellow=2:1
decide -> 1/1 {1,2}, attempt 0, yellow [], gone {}, quorum, records none none
# what the most updated member has green is left out
1 prim=1/1/1,2 yellow=1:1,2:1
2 prim=1/1/1,2 green=4 cut=1:1
decide -> 1/1 {1,2}, attempt 0, yellow [2:1], gone {}, quorum, records none none
# what another one has green is not
1 prim=1/1/1,2 yellow=2:1 green=3
2 prim=1/1/1,2 green=1 cut=2:1
decide -> 1/1 {1,2}, attempt 0, yellow [2:1], gone {}, quorum, records none none
# an older valid list does not count
1 prim=1/1/1,2 yellow=1:1
2 prim=2/2/1,2
decide -> 2/2 {1,2}, attempt 0, no yellow [], gone {}, quorum, records none none
# an empty valid list
1 prim=1/1/1,2 yellow=
2 prim=1/1/1,2
decide -> 1/1 {1,2}, attempt 0, yellow [], gone {}, quorum, records none none
# an invalid list does not count
1 prim=1/1/1,2 invalid=1:1
2 prim=1/1/1,2
decide -> 1/1 {1,2}, attempt 0, no yellow [], gone {}, quorum, records none none
# a later action of a creator is not green
1 prim=1/1/1,2 yellow=1:2 green=1 cut=1:1
decide -> 1/1 {1,2}, attempt 0, yellow [1:2], gone {}, quorum, records none";

fn say_record(out: &mut Vec<u8>, record: &Vulnerable) {
    say_with(out, "v", record.attempt);
    say_with(out, "/", record.from);
    say_set(out, record.set);
    say_set(out, record.bits);
}

fn say_records(out: &mut Vec<u8>, verdict: &Verdict) {
    say(out, ", records");
    for record in verdict.vulnerable.as_slice() {
        say(out, " ");
        match record {
            None => say(out, "none"),
            Some(record) => say_record(out, record),
        }
    }
}

fn say_verdict(out: &mut Vec<u8>, verdict: &Verdict) {
    let yellow = &verdict.yellow;
    say_with(out, "", verdict.prim.index);
    say_with(out, "/", verdict.prim.conf);
    say(out, " ");
    say_shown(out, &verdict.prim.set);
    say_with(out, ", attempt ", verdict.attempt_index);
    say(
        out,
        if yellow.valid {
            ", yellow "
        } else {
            ", no yellow "
        },
    );
    say_shown(out, &yellow.list);
    say(out, ", gone ");
    say_set(out, verdict.gone);
    say(
        out,
        if verdict.quorum {
            ", quorum"
        } else {
            ", no quorum"
        },
    );
    say_records(out, verdict);
}

fn perform(alloc: Global, summaries: &mut Vec<Summary>, line: &str, out: &mut Vec<u8>) {
    if line != "decide" {
        take(alloc, summaries, line);
    } else if let Ok(verdict) = decide(alloc, summaries) {
        say_verdict(out, &verdict);
        drop(verdict);
    }
}

#[test]
fn verdicts_worked_by_hand(rt: HostRuntime) {
    let mut summaries = Vec::new(rt.alloc());
    follows(&rt, &mut summaries, CASES, perform);
    drop(summaries);
}
