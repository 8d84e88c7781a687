//! What a replica's line shows of primary components.

ghost use Rattle.cg_base.specs.Lists.{Each};
ghost use Rattle.cg_short.specs.Short.{IfAny, IsShortId, IsShortPrimary, IsShortVulnerable};

use crate::names::{ids_are_short, number_is_short, set_is_short, weights_are_short};
use cg_records::{Primary, Vulnerable, Yellow};

pub fn prim_is_short(prim: Primary)
    ensures { IsShortPrimary prim }
{
    number_is_short(prim.index);
    number_is_short(prim.conf);
    weights_are_short(prim.set);
}

fn attempt_is_short(attempt: Vulnerable)
    ensures { IsShortVulnerable attempt }
{
    number_is_short(attempt.attempt);
    number_is_short(attempt.from);
    set_is_short(attempt.set);
    set_is_short(attempt.bits);
}

pub fn vulnerable_is_short(vulnerable: Option<Vulnerable>)
    ensures { IfAny IsShortVulnerable vulnerable }
{
    if let Some(attempt) = vulnerable {
        attempt_is_short(attempt);
    }
}

pub fn yellow_is_short(yellow: &Yellow)
    ensures { Each IsShortId yellow.now.list }
{
    ids_are_short(yellow.list.as_slice());
}
