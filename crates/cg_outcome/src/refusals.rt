use cg_group::Reason;

/// The words before the value of a reason, or before its advice where it has none.
pub(crate) fn subject(reason: Reason) -> &'static str {
    match reason {
        Reason::NoSuchPlace(_) | Reason::AlreadyReceived(_) | Reason::EarlierMissing(_) => "place",
        Reason::NotReady(_) => "the places that are ready number",
        Reason::EmptySet => "no replica",
        Reason::Discarded(_) => "the replica's first actions, so many:",
        Reason::WouldGoBack(_) => "the follower was shown at place",
        Reason::UnknownFollower(_) | Reason::FollowerDown(_) | Reason::FollowerUp(_) => "follower",
        Reason::UnknownSession(_) | Reason::SessionUsed(_) => "session",
        _ => "replica",
    }
}

/// What is found of it, and what to do.
pub(crate) fn advice(reason: Reason) -> &'static str {
    match reason {
        Reason::NotUp(_) => " is down; recover it first",
        Reason::NotRegular(_) => " is alone, or was split from its configuration; merge it first",
        Reason::NothingToOrder(_) => " has no message that waits for a place; leave this line out",
        Reason::NoSuchPlace(_) => " isn't in the configuration yet; order a message first",
        Reason::AlreadyReceived(_) => " was received by the replica before; leave this line out",
        Reason::NotReady(_) => "; deliver no more, or let all members receive more first",
        Reason::NotOneConfiguration(_) =>
            " isn't in the configuration of the lowest replica named; split each configuration by a line of its own",
        Reason::NotTogether(_) => " was split together with a replica that is named; name it too",
        Reason::EmptySet => " is named; name one",
        Reason::AlreadyUp(_) =>
            " is up, or has begun already; recover or downgrade only one that is down, and transfer only to a new one",
        Reason::UnknownReplica(_) =>
            " hasn't begun; name it at start, or let it join and transfer a snapshot to it",
        Reason::IdUsed(_) => " was named before, by start or by a join; take another identifier",
        Reason::JoinNotGreen(_) =>
            " is no server yet to the replica that gives the snapshot; let the join become green there first",
        Reason::HasLeft(_) => " has left for good; leave it out, or name another replica",
        Reason::EarlierMissing(_) => " of the same sender must be received first",
        Reason::StillRegular(_) => " is still in a configuration; split it first",
        Reason::Weighted(_) =>
            " has a weight above 1 on its disk, and the older format has no weights; leave this line out",
        Reason::Discarded(_) =>
            ", are discarded there, and the follower lacks some of them; make it anew, or feed it from a replica that has them",
        Reason::WouldGoBack(_) => ", and the replica isn't so far; make it from another one",
        Reason::UnknownFollower(_) => " wasn't made; make it by a line `follower`",
        Reason::FollowerDown(_) => " is down; recover it first",
        Reason::FollowerUp(_) => " is up; recover only one that is down",
        Reason::UnknownSession(_) => " isn't open; open it by a line `session`",
        Reason::SessionUsed(_) => " is open already; take another number",
        Reason::NotCreating(_) =>
            " would keep the request for later; write at one in RegPrim, or in NonPrim of a regular configuration",
    }
}
