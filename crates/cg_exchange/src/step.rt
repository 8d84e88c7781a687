use crate::{ExchangeActions, ExchangeStates, NonPrim};
use cg_client::Core;

/// What comes of a delivery in an exchange, or outside of a primary component.
#[derive(Drop)]
pub enum ExchangeStep {
    Non(NonPrim),
    States(ExchangeStates),
    Actions(ExchangeActions),
    /// An attempt of the configuration is recorded in the core, and announced.
    Attempt { core: Core, conf: u64 },
    /// The replica has left.
    Gone(Core),
}
