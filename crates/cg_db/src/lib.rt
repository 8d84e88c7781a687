//! The database: what actions make of it, and what queries find in it.
//!
//! A database is a finite map from keys to values; clauses see its entries, ascending by key. `specs/Apply.antt` says
//! what an action makes of one, and `specs/Find.antt` what a query finds. A put or an addition alone, as most actions
//! have, is written in place once nothing can fail any more, and all else is worked out before anything is written: so
//! an action which fails, or for which there is no memory, changes nothing. Which actions are applied, and in which
//! order, is left to the layers above.
#![tactic(auto)]

mod changes;
mod db;
mod laws;
mod plan;

pub use db::Db;
pub use laws::entries_stay_within_limits;
