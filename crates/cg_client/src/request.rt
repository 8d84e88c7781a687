ghost use Rattle.std.specs.Prelude.{◌≡◌};

use cg_action::{CmdList, Kind, Query};
use cg_base::ReplicaId;

/// What a client asks of a replica.
#[derive(Drop)]
pub enum Request {
    /// Commands, and a query behind them.
    Update { cmds: CmdList, query: Option<Query> },
    /// The replica is to become a server with this weight, from 1.
    Join(ReplicaId, u8),
    /// The server is to leave.
    Leave(ReplicaId),
}

impl Request {
    ghost use Rattle.cg_client.specs.Calls.{kind_of};

    /// What the action of the request does. It takes no memory.
    pub fn into_kind(self) -> Kind
        ensures { result ≡ kind_of self }
    {
        match self {
            Request::Update { cmds, query } => Kind::Update { cmds, query },
            Request::Join(joiner, weight) => Kind::Join(joiner, weight),
            Request::Leave(server) => Kind::Leave(server),
        }
    }
}
