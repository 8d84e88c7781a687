ghost use Rattle.std.specs.Prelude.{◌≡◌, List};
ghost use Rattle.cg_base.specs.declared.action_id.ActionId.{ActionId};
ghost use Rattle.cg_compare.specs.declared.log.Log.{Log};
ghost use Rattle.cg_compare.specs.declared.log.Joined.TheVariants.{Agree};
ghost use Rattle.cg_compare.specs.Join.{covered, join_logs};
ghost use Rattle.cg_compare.specs.Orders.{IsOrderOf, IsTold};
ghost use Rattle.cg_compare.specs.Places.{last_place};

/// What is told of logs is so, whichever logs they are.
pub fn joins_are_told()
    ensures { (logs : List Log) → IsTold logs (join_logs logs) }
{}

/// Logs that are parts of one order are told to agree, as those are whose names stand in it at their places.
pub fn logs_of_one_order_agree()
    ensures { (logs : List Log) (order : List ActionId) → IsOrderOf logs order →
        join_logs logs ≡ Agree (last_place logs) (covered logs) }
{}
