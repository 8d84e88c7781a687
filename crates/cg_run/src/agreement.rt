ghost use Rattle.cg_items.specs.SessionsAgree.{SessionsAgree};
ghost use Rattle.cg_items.specs.FollowersAgree.{FollowersAgree};
ghost use Rattle.cg_items.specs.RelaxedAgree.{RelaxedAgree};
ghost use Rattle.cg_items.specs.LogsShown.{LogsAgree};
ghost use Rattle.cg_outcome.specs.Taking.{OfItems, OfSteps};

use cg_items_agree::{followers_agree, relaxed_agree, sessions_agree, shown_logs_agree};
use cg_outcome::{ArgText, outcomes_agree};

/// Whatever a command takes, each session reads prefixes of the one order, each follower is one, relaxed queries show what
/// the known actions make, and the logs that are shown agree. Where a command has none of these, there is nothing to agree.
pub fn items_agree(words: &[ArgText])
    ensures sessions { OfItems words.now SessionsAgree }
    ensures followers { OfItems words.now FollowersAgree }
    ensures relaxed { OfItems words.now RelaxedAgree }
    ensures logs_agree { OfSteps words.now LogsAgree }
{
    outcomes_agree(words);
    sessions_agree();
    followers_agree();
    relaxed_agree();
    shown_logs_agree();
}
