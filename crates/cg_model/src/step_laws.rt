ghost use Rattle.cg_model.specs.Recorded.{AlwaysKept, AlwaysRecorded, AlwaysAhead};
ghost use Rattle.cg_model.specs.Following.{AlwaysFollows};

/// What holds of what a replica holds is kept by each event, whatever comes to it.
pub fn each_event_keeps_what_holds()
    ensures { AlwaysKept }
{}

/// The record of each commit leads from what stands on the disk to what the commit leaves, and behind an event without a
/// commit the replica holds what stands on the disk and red marks: laws over the definitions alone.
pub fn each_commit_is_recorded()
    ensures recorded { AlwaysRecorded }
    ensures ahead { AlwaysAhead }
{}

/// A replica follows its disk from a new disk on, through each event and each recovery; a crash leaves what stood there
/// before the event or what the event's commit leaves.
pub fn each_replica_follows_its_disk()
    ensures { AlwaysFollows }
{}
