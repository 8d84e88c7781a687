ghost use Rattle.std.specs.Prelude.{◌≡◌};
ghost use Rattle.cg_group.specs.Reasons.{reason_numbers};

use cg_base::ReplicaId;
use thiserror::Error;

/// Why an event isn't admitted. Whoever asks for the event tests some of them, and the group the others.
#[derive(Clone, Copy, Debug, PartialEq, Eq, Error)]
pub enum Reason {
    /// The replica isn't up.
    #[error("replica {0} isn't up")]
    NotUp(ReplicaId),
    /// The replica isn't regular in a configuration.
    #[error("replica {0} isn't regular in a configuration")]
    NotRegular(ReplicaId),
    /// The replica has no message without a place.
    #[error("replica {0} has no message without a place")]
    NothingToOrder(ReplicaId),
    /// The configuration has no such place.
    #[error("the configuration has no place {0}")]
    NoSuchPlace(u64),
    /// The replica has received the place before.
    #[error("the replica has received place {0} before")]
    AlreadyReceived(u64),
    /// Fewer places are ready than are to be delivered: so many.
    #[error("of the places to be delivered {0} are ready")]
    NotReady(u64),
    /// The lowest replica that isn't in the configuration of the lowest one named.
    #[error("replica {0} isn't in the configuration of the lowest one named")]
    NotOneConfiguration(ReplicaId),
    /// The lowest replica that must be named and isn't.
    #[error("replica {0} must be named too")]
    NotTogether(ReplicaId),
    /// No replica is named.
    #[error("no replica is named")]
    EmptySet,
    /// The replica is up, or has begun, already.
    #[error("replica {0} is up, or has begun, already")]
    AlreadyUp(ReplicaId),
    /// The replica hasn't begun, or no event has named it.
    #[error("replica {0} hasn't begun, or no event has named it")]
    UnknownReplica(ReplicaId),
    /// An event has named the identifier before.
    #[error("an event has named {0} before")]
    IdUsed(ReplicaId),
    /// The joiner is no server yet.
    #[error("replica {0} is no server yet")]
    JoinNotGreen(ReplicaId),
    /// The replica has left for good.
    #[error("replica {0} has left for good")]
    HasLeft(ReplicaId),
    /// The replica lacks an earlier place of the same sender: the earliest.
    #[error("the replica lacks place {0} of the same sender")]
    EarlierMissing(u64),
    /// The replica is regular in a configuration.
    #[error("replica {0} is regular in a configuration")]
    StillRegular(ReplicaId),
    /// The disk of the replica stands for a state with a weight above 1.
    #[error("the disk of replica {0} has a weight above 1")]
    Weighted(ReplicaId),
    /// The replica has discarded actions that the follower hasn't taken: so many were discarded.
    #[error("the replica has discarded {0} actions, and the follower has taken fewer")]
    Discarded(u64),
    /// The follower was shown at a cursor that the replica's greens don't reach.
    #[error("the follower was shown at {0}, further than the replica is")]
    WouldGoBack(u64),
    /// The follower wasn't made.
    #[error("follower {0} wasn't made")]
    UnknownFollower(u8),
    /// The follower is down.
    #[error("follower {0} is down")]
    FollowerDown(u8),
    /// The follower is up.
    #[error("follower {0} is up")]
    FollowerUp(u8),
    /// The session isn't open.
    #[error("session {0} isn't open")]
    UnknownSession(u8),
    /// The session is open already.
    #[error("session {0} is open already")]
    SessionUsed(u8),
    /// The replica would keep a request, and not create it at once.
    #[error("replica {0} creates no request at once")]
    NotCreating(ReplicaId),
}

impl Reason {
    /// The number that is printed for the reason.
    pub fn number(&self) -> u8
        ensures { result ≡ (reason_numbers self.now).0 }
    {
        match self {
            Reason::NotUp(_) => 1,
            Reason::NotRegular(_) => 2,
            Reason::NothingToOrder(_) => 3,
            Reason::NoSuchPlace(_) => 4,
            Reason::AlreadyReceived(_) => 5,
            Reason::NotReady(_) => 6,
            Reason::NotOneConfiguration(_) => 7,
            Reason::NotTogether(_) => 8,
            Reason::EmptySet => 9,
            Reason::AlreadyUp(_) => 10,
            Reason::UnknownReplica(_) => 11,
            Reason::IdUsed(_) => 12,
            Reason::JoinNotGreen(_) => 13,
            Reason::HasLeft(_) => 14,
            Reason::EarlierMissing(_) => 15,
            Reason::StillRegular(_) => 16,
            Reason::Weighted(_) => 17,
            Reason::Discarded(_) => 18,
            Reason::WouldGoBack(_) => 19,
            Reason::UnknownFollower(_) => 20,
            Reason::FollowerDown(_) => 21,
            Reason::FollowerUp(_) => 22,
            Reason::UnknownSession(_) => 23,
            Reason::SessionUsed(_) => 24,
            Reason::NotCreating(_) => 25,
        }
    }

    /// The value that is printed behind the number, where there is one.
    pub fn value(&self) -> Option<u64>
        ensures { result ≡ (reason_numbers self.now).1 }
    {
        match self {
            Reason::NotUp(id)
            | Reason::NotRegular(id)
            | Reason::NothingToOrder(id)
            | Reason::NotOneConfiguration(id)
            | Reason::NotTogether(id)
            | Reason::AlreadyUp(id)
            | Reason::UnknownReplica(id)
            | Reason::IdUsed(id)
            | Reason::JoinNotGreen(id)
            | Reason::HasLeft(id)
            | Reason::StillRegular(id)
            | Reason::Weighted(id)
            | Reason::NotCreating(id) => Some(u64::from(id.get())),
            Reason::UnknownFollower(n)
            | Reason::FollowerDown(n)
            | Reason::FollowerUp(n)
            | Reason::UnknownSession(n)
            | Reason::SessionUsed(n) => Some(u64::from(*n)),
            Reason::NoSuchPlace(n)
            | Reason::AlreadyReceived(n)
            | Reason::NotReady(n)
            | Reason::EarlierMissing(n)
            | Reason::Discarded(n)
            | Reason::WouldGoBack(n) => Some(*n),
            Reason::EmptySet => None,
        }
    }
}
