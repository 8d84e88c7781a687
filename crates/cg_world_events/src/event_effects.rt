ghost use Rattle.std.specs.Prelude.{◌≡◌, IfOk};
ghost use Rattle.cg_model.specs.Show.{news_of_recovery, unshown};

use cg_action::ActionList;
use cg_base::{Cut, IdList, NoMemory, Row};
use cg_client::Core;
use cg_report::Reply;
use std::marker::Model;

/// What came of an event at a replica: the actions that are made, the names that became green at it, the number of its
/// greens with these, and the replies that it gives, in the order of their actions.
#[derive(Drop)]
pub struct EventEffects {
    pub(crate) made: ActionList,
    pub(crate) green: IdList,
    pub(crate) count: u64,
    pub(crate) replies: Row<Reply>,
}

impl Model for EventEffects {
    ghost use Rattle.cg_model.specs.Show.{EventEffects};

    ghost Value = { EventEffects };

    ghost view = { λ n. record { made = n.made; green = n.green; count = n.count; replies = n.replies } };
}

impl EventEffects {
    pub fn new(made: ActionList, green: IdList, count: u64, replies: Row<Reply>) -> EventEffects
        ensures { result ≡ record { made = made; green = green; count = count; replies = replies } }
    {
        EventEffects {
            made,
            green,
            count,
            replies,
        }
    }

    /// Of a recovery: the replica's own red actions that weren't shown as made, and the names that its struck event had
    /// newly made green.
    pub fn of_recovery(made: &Cut, core: &Core, green: IdList) -> Result<EventEffects, NoMemory>
        ensures { IfOk result (λ n. n ≡ news_of_recovery made.now core.now green) }
    {
        let alloc = core.alloc();
        let unshown = unshown(made, core)?;
        Ok(EventEffects {
            made: unshown,
            green,
            count: core.green_count(),
            replies: Row::new(alloc),
        })
    }
}

// the replica's own red actions that weren't shown as made
fn unshown(made: &Cut, core: &Core) -> Result<ActionList, NoMemory>
    ensures { IfOk result (λ list. list ≡ unshown made.now core.now) }
{
    let id = core.id();
    core.queue().reds_above(id, made.get(id))
}
