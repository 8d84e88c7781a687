use cg_action::ActionList;
use cg_base::{IdList, Row};
use cg_encoded::EncodedMsg;
use cg_report::Reply;

/// What an event has brought about: the actions newly known, in the order of their marks; the names newly green, in
/// order; the actions made; the messages to be sent; the replies to be given; and whether own actions that weren't
/// delivered became red.
#[derive(Drop)]
pub struct DraftParts {
    pub known: ActionList,
    pub green: IdList,
    pub made: ActionList,
    pub sent: Row<EncodedMsg>,
    pub replies: Row<Reply>,
    pub marked_own: bool,
}
