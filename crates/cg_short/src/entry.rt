ghost use Rattle.cg_base.specs.Lists.{Each};
ghost use Rattle.cg_short.specs.Short.{IsShortMade, IsShortPlaced, IsShortReply, IsShortShown, IsShortEntry};

use crate::actions::kind_is_short;
use crate::answers::{answer_is_short, effect_is_short, entries_are_short, told_is_short};
use crate::lines::lines_are_short;
use crate::names::{id_is_short, ids_are_short, number_is_short, replica_is_short};
use cg_report::{Entry, Made, Placed, Reply, Shown};

fn one_made_is_short(one: &Made)
    ensures { IsShortMade one.now }
{
    id_is_short(one.id);
    kind_is_short(one.kind.get());
}

fn made_is_short(made: &[Made])
    ensures { Each IsShortMade made.now }
{
    for one in made {
        one_made_is_short(one);
    }
}

fn placed_is_short(placed: Placed)
    ensures { IsShortPlaced placed }
{
    number_is_short(placed.place);
    id_is_short(placed.id);
}

fn orders_are_short(orders: &[Placed])
    ensures { Each IsShortPlaced orders.now }
{
    for one in orders {
        placed_is_short(*one);
    }
}

fn reply_is_short(reply: &Reply)
    ensures { IsShortReply reply.now }
{
    id_is_short(reply.id);
    effect_is_short(reply.effect);
    told_is_short(&reply.answer);
}

fn replies_are_short(replies: &[Reply])
    ensures { Each IsShortReply replies.now }
{
    for reply in replies {
        reply_is_short(reply);
    }
}

fn one_shown_is_short(one: &Shown)
    ensures { IsShortShown one.now }
{
    match one {
        Shown::Weak { p, answer } => {
            replica_is_short(*p);
            answer_is_short(answer);
        }
        Shown::Dirty { p, answer } => {
            replica_is_short(*p);
            answer_is_short(answer);
        }
        Shown::Pieces { joiner, taken, all } => {
            replica_is_short(*joiner);
            number_is_short(*taken);
            number_is_short(*all);
        }
        Shown::Greens { p, list } => {
            replica_is_short(*p);
            ids_are_short(list.as_slice());
        }
        Shown::Database { p, entries } => {
            replica_is_short(*p);
            entries_are_short(entries.as_slice());
        }
        Shown::All(list) => ids_are_short(list.as_slice()),
    }
}

fn shown_is_short(shown: &[Shown])
    ensures { Each IsShortShown shown.now }
{
    for one in shown {
        one_shown_is_short(one);
    }
}

/// No number in an entry has more digits than are printed: what always holds of one.
pub fn entry_is_short(entry: &Entry)
    ensures { IsShortEntry entry.now }
{
    made_is_short(entry.made.as_slice());
    orders_are_short(entry.orders.as_slice());
    lines_are_short(entry.lines.as_slice());
    replies_are_short(entry.replies.as_slice());
    shown_is_short(entry.shown.as_slice());
}
