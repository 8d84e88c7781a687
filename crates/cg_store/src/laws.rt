ghost use Rattle.cg_store.specs.Defined.{EndsAsDefined};

/// A commit, a checkpoint and a crash in each of their device calls leave what the definitions of a step say.
pub fn strikes_end_as_defined()
    ensures { EndsAsDefined }
{}
