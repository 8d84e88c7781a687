//! The states of a member that forms a primary component: `Construct` while the members announce the attempt, `No` where
//! it was cut short before all had, `Un` where another member may have installed it.
//!
//! The one contract: a delivery makes of a state and a draft what the table's rows of the state say (`cg_states`); what
//! the table leaves out is ignored. In each of these states the replica keeps a record of its own attempt. What
//! comes of an installation is left to `cg_prim`, and of the step `Exchange` to `cg_exchange`.
#![tactic(auto)]

mod attempt;
mod construct;
mod no;
mod step;
mod un;

pub use construct::Construct;
pub use no::No;
pub use step::ConstructStep;
pub use un::Un;
