ghost use Rattle.cg_group.specs.Synchrony.{AlwaysSynchronous};

/// Whatever any list of admitted calls hands out, from the empty group on, is virtually synchronous: a law over the
/// definitions alone.
pub fn virtually_synchronous<M>()
    ensures { AlwaysSynchronous M }
{}
