ghost use Rattle.std.specs.Prelude.{◌≡◌};

use crate::EventEffects;
use cg_base::Row;
use cg_encoded::EncodedMsg;
use std::marker::Model;

/// What a replica has to say behind an event: what is to be shown of it, and its messages, in their order.
pub struct NodeOutput {
    news: EventEffects,
    sent: Row<EncodedMsg>,
}

impl Drop for NodeOutput {
    fn drop(self) {
        let NodeOutput { news: _, sent: _ } = self;
    }
}

impl Model for NodeOutput {
    ghost use Rattle.cg_world_events.specs.Nodes.{NodeOutput};

    ghost Value = { NodeOutput };

    ghost view = { λ s. (s.news, s.sent) };
}

impl NodeOutput {
    pub fn new(news: EventEffects, sent: Row<EncodedMsg>) -> NodeOutput
        ensures { result ≡ (news, sent) }
    {
        NodeOutput { news, sent }
    }

    /// What is to be shown, and the messages. It takes no memory.
    pub fn into_parts(self) -> (EventEffects, Row<EncodedMsg>)
        ensures { result ≡ self }
    {
        let NodeOutput { news, sent } = self;
        (news, sent)
    }
}
