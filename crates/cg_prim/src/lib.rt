//! The states of a member of a primary component: `RegPrim` in its regular configuration, `TransPrim` in its transitional
//! one.
//!
//! The one contract: a delivery makes of a state and a draft what the table's rows of the state say (`cg_states`); what
//! the table leaves out is ignored. How a component comes about is left to `cg_construct`, and what comes of the
//! step `Exchange` to `cg_exchange`.
#![tactic(auto)]

mod reg_prim;
mod step;
mod trans_prim;

pub use reg_prim::RegPrim;
pub use step::PrimStep;
pub use trans_prim::TransPrim;
