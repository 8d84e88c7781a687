use crate::BoxedSummary;
use cg_action::Action;
use cg_base::ReplicaId;

/// A message between replicas.
#[derive(Drop)]
pub enum Msg {
    /// An action that is to be ordered.
    Action(Action),
    /// What a member tells as it enters an exchange.
    State(BoxedSummary),
    /// The green action at a place, sent again.
    GreenItem { at: u64, action: Action },
    /// A red action, sent again.
    RedItem(Action),
    /// The member is ready to install a primary component in the configuration.
    Cpc { id: ReplicaId, conf: u64 },
}
