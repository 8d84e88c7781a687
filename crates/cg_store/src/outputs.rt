ghost use Rattle.std.specs.Prelude.{◌≡◌};

use cg_action::ActionList;
use cg_base::{IdList, Row};
use cg_encoded::EncodedMsg;
use cg_report::Reply;

/// What an event gives out behind its commit. Clauses see the messages that are sent, and not their bytes.
pub struct Outputs {
    pub(crate) made: ActionList,
    pub(crate) sent: Row<EncodedMsg>,
    pub(crate) replies: Row<Reply>,
    pub(crate) green: IdList,
    pub(crate) written: bool,
}

impl Drop for Outputs {
    fn drop(self) {
        let Outputs {
            made: _,
            sent: _,
            replies: _,
            green: _,
            written: _,
        } = self;
    }
}

impl Outputs {
    /// The actions made. It takes no memory.
    pub fn made(&self) -> &ActionList
        ensures { result.now ≡ self.now.made }
    {
        &self.made
    }

    /// The messages to be sent, in their order. It takes no memory.
    pub fn send(&self) -> &Row<EncodedMsg>
        ensures { result.now ≡ self.now.sent }
    {
        &self.sent
    }

    /// The replies to be given. It takes no memory.
    pub fn replies(&self) -> &Row<Reply>
        ensures { result.now ≡ self.now.replies }
    {
        &self.replies
    }

    /// The names newly green, in order. It takes no memory.
    pub fn green(&self) -> &IdList
        ensures { result.now ≡ self.now.green }
    {
        &self.green
    }

    /// The event was written: its commit made device calls. It takes no memory.
    pub fn written(&self) -> bool
        ensures { result ≡ self.now.written }
    {
        self.written
    }

    /// The actions made, the messages to be sent, the replies and the names newly green. It takes no memory.
    pub fn into_parts(self) -> (ActionList, Row<EncodedMsg>, Row<Reply>, IdList)
        ensures { result ≡ (self.made, self.sent, self.replies, self.green) }
    {
        let Outputs {
            made,
            sent,
            replies,
            green,
            written: _,
        } = self;
        (made, sent, replies, green)
    }
}
