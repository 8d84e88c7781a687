ghost use Rattle.cg_relaxed.specs.Laws.{OrderDoesNotMatter, StaysOfOneMap, KnownDecides, JoinLaws};

/// What is read is a function of the actions that are known, in whatever order they came; and what two values know together
/// is the same from either side, in any order, and with itself.
pub fn relaxed_values_agree()
    ensures order { OrderDoesNotMatter }
    ensures one_map { StaysOfOneMap }
    ensures known { KnownDecides }
    ensures joins { JoinLaws }
{}
