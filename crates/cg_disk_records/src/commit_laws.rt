ghost use Rattle.cg_disk_records.specs.Always.{AlwaysHolds, AlwaysCounts, AlwaysAgrees, AlwaysSettled};

/// What holds of a new replica holds behind each commit, on its disk, and where it comes up again; what a commit leaves has
/// a checkpoint.
pub fn what_is_held_agrees()
    ensures holds { AlwaysHolds }
    ensures counts { AlwaysCounts }
    ensures agrees { AlwaysAgrees }
    ensures settled { AlwaysSettled }
{}
