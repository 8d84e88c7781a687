use crate::{Construct, No, Un};
use cg_action::Action;
use cg_base::IdSet;
use cg_client::{Core, Installed};

/// What comes of a delivery in an attempt.
#[derive(Drop)]
pub enum ConstructStep {
    Construct(Construct),
    No(No),
    Un(Un),
    /// All members have announced the attempt, and it is installed.
    Installed(Installed),
    /// The action of another member shows that it has installed the attempt. It is installed here too, and the action is
    /// still to be marked.
    InstalledBy {
        installed: Installed,
        action: Action,
    },
    /// An exchange is to be entered in the configuration with this number and these members.
    Exchange {
        core: Core,
        conf: u64,
        set: IdSet,
    },
}
