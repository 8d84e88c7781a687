ghost use Rattle.cg_items_agree.specs.EveryRelaxed.{RelaxedOfEveryRunAgree};

use cg_agree::{
    facts_stand_beside_each_world, made_actions_stand_in_the_book, runs_tell_of_their_worlds,
};
use cg_relaxed::relaxed_values_agree;

/// Whatever a run shows of the relaxed database, it shows what the actions make that the lines of its replicas tell.
pub fn relaxed_agree()
    ensures { RelaxedOfEveryRunAgree }
{
    facts_stand_beside_each_world();
    runs_tell_of_their_worlds();
    made_actions_stand_in_the_book();
    relaxed_values_agree();
}
