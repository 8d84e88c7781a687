ghost use Rattle.std.specs.Prelude.{List, All};
ghost use Rattle.cg_action.specs.declared.action.Action.{Action};
ghost use Rattle.cg_action.specs.ActionLimits.{IsAction};
ghost use Rattle.cg_action.specs.declared.entry.DbEntry.{DbEntry};
ghost use Rattle.cg_db.specs.Limits.{AreEntries};
ghost use Rattle.cg_db.specs.Apply.{apply, fold_actions};

/// Actions within the limits leave every key and value of a database within them.
pub fn entries_stay_within_limits()
    ensures apply { (db : List DbEntry) (action : Action) → AreEntries db → IsAction action →
        AreEntries (apply db action).db }
    ensures fold { (actions : List Action) → All IsAction actions → AreEntries (fold_actions actions) }
{}
