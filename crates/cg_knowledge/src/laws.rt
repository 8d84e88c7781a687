ghost use Rattle.cg_knowledge.specs.Laws.{HasMostUpdated, DecidersMeet, CommonStandsInEach};

/// The most updated member has the most greens, and the lowest identifier among those that have as many.
pub fn most_updated_leads()
    ensures { HasMostUpdated }
{}

/// Two sets of members that may both go on from one primary component share a member of it, which is in both.
pub fn deciders_meet()
    ensures { DecidersMeet }
{}

/// Each common yellow action stands in the yellow list of each member of the group.
pub fn common_yellow_stands_in_each()
    ensures { CommonStandsInEach }
{}
