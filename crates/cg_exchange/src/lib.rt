//! The states of a member outside of a primary component and of one in an exchange: `NonPrim`, `ExchangeStates` while the
//! members tell one another what they hold, `ExchangeActions` while they send one another what some of them lack.
//!
//! The one contract: a delivery makes of a state and a draft what the table's rows of the state say (`cg_states`); what
//! the table leaves out is ignored. The plan and what its end decides are those of `cg_plan` and `cg_knowledge`.
//! An attempt that begins is left to `cg_construct`.
#![tactic(auto)]

mod exchange_actions;
mod exchange_states;
mod non_prim;
mod plan_end;
mod sending;
mod step;

pub use exchange_actions::ExchangeActions;
pub use exchange_states::ExchangeStates;
pub use non_prim::NonPrim;
pub use step::ExchangeStep;
