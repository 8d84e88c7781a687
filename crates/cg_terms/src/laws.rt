ghost use Rattle.cg_terms.specs.Terms.{AgreementGuarantees};

/// What the steps of a run agree on makes the run linearizable and its replies durable; each action counts once, weak answers are
/// read from prefixes, and no two parts of the network go ways of their own.
pub fn agreement_gives_guarantees()
    ensures { AgreementGuarantees }
{}
