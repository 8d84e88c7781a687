use crate::{RegPrim, TransPrim};
use cg_base::IdSet;
use cg_client::Core;

/// What comes of a delivery in a primary component.
#[derive(Drop)]
pub enum PrimStep {
    Reg(RegPrim),
    Trans(TransPrim),
    /// An exchange is to be entered in the configuration with this number and these members.
    Exchange { core: Core, conf: u64, set: IdSet },
}
