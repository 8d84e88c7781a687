use cg_base::IdSet;

/// Where a replica stands in the group. A configuration goes by its number, from 1.
#[derive(Clone, Copy, Debug, PartialEq, Eq)]
pub enum Phase {
    /// It isn't up.
    Down,
    /// It is up, and in no configuration since.
    Alone,
    /// It is a member of a configuration, and is handed places that all members have received.
    Regular { conf: u64 },
    /// It has left the configuration together with the set, and waits for the next one.
    Transitional { conf: u64, set: IdSet },
}
