use cg_client::Request;
use cg_encoded::DeliveredList;

/// What comes to a replica in one event.
#[derive(Drop)]
pub enum Input {
    /// What the group hands over, in order. Of bytes that spell no message nothing comes.
    Deliver(DeliveredList),
    /// What a client asks for.
    Request(Request),
}
