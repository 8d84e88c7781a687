ghost use Rattle.cg_laws.specs.Reordered.{KnowledgeTakesAnyOrder, PlanTakesAnyOrder};

/// Where each member's summary stands once, what `decide` and `Plan::make` give doesn't depend on the order of the summaries.
pub fn order_does_not_matter()
    ensures knowledge { KnowledgeTakesAnyOrder }
    ensures plan { PlanTakesAnyOrder }
{}
