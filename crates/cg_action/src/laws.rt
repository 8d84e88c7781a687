ghost use Rattle.cg_codec.specs.Laws.{IsField, IsWhole, IsFrontOfNoOther};
ghost use Rattle.cg_action.specs.Limits.{IsQuery};
ghost use Rattle.cg_action.specs.ActionLimits.{IsActionId, IsValue, IsCommand, IsAction};
ghost use Rattle.cg_codec.specs.Fields.{spelled_id};
ghost use Rattle.cg_action.specs.Bytes.{spelled_value, spelled_command, spelled_query, spelled_action};
ghost use Rattle.cg_action.specs.Reading.{id_reading, value_reading, command_reading, query_reading, action_reading};

/// Actions are exactly their spellings: each one within the limits is read again as it was spelled, whatever
/// follows it, and what is read is an action within the limits, spelled so.
pub fn actions_are_exact()
    ensures id { IsField IsActionId spelled_id id_reading }
    ensures value { IsField IsValue spelled_value value_reading }
    ensures command { IsField IsCommand spelled_command command_reading }
    ensures query { IsField IsQuery spelled_query query_reading }
    ensures action { IsField IsAction spelled_action action_reading }
    ensures whole { IsWhole IsAction spelled_action action_reading }
{}

/// No spelling is the front of another of its kind.
pub fn spellings_stand_apart()
    ensures id { IsFrontOfNoOther IsActionId spelled_id }
    ensures value { IsFrontOfNoOther IsValue spelled_value }
    ensures command { IsFrontOfNoOther IsCommand spelled_command }
    ensures query { IsFrontOfNoOther IsQuery spelled_query }
    ensures action { IsFrontOfNoOther IsAction spelled_action }
{}
