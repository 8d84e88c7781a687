ghost use Rattle.cg_items_agree.specs.FollowersLaw.{FollowersOfEveryRunAgree};

use cg_agree::{facts_stand_beside_each_world, runs_agree, runs_tell_of_their_worlds};

/// The followers of every run agree: each is a prefix of the one order and its fold, which never gets shorter; the
/// lines come exactly as they are due, and an event of followers is refused exactly where a test gives a reason.
pub fn followers_agree()
    ensures { FollowersOfEveryRunAgree }
{
    runs_agree();
    facts_stand_beside_each_world();
    runs_tell_of_their_worlds();
}
