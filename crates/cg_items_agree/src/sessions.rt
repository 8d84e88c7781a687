ghost use Rattle.cg_items_agree.specs.SessionsLaw.{SessionsOfEveryRunAgree};

use cg_agree::{
    facts_stand_beside_each_world, made_actions_stand_in_the_book, runs_agree,
    runs_tell_of_their_worlds,
};
use cg_terms::agreement_gives_guarantees;

/// What is read in a session is a prefix of the one order, never a shorter one than before, with all that the session
/// wrote and was told of. Its lines come exactly as they are due, and its events are refused exactly where a test
/// gives a reason.
pub fn sessions_agree()
    ensures { SessionsOfEveryRunAgree }
{
    runs_agree();
    agreement_gives_guarantees();
    facts_stand_beside_each_world();
    runs_tell_of_their_worlds();
    made_actions_stand_in_the_book();
}
