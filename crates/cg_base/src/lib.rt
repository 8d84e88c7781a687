//! The plain values that every layer speaks of: identifiers of replicas and actions, sets of replicas, weights, cuts,
//! lists, and their text.
//!
//! Each call is algebra on ascending lists, and its contract says which list comes out. Sets, weights and cuts are
//! copied as they are and take no memory; lists and text take some where they grow, and say what stands if it is refused.
//! What the values are used for is left to the layers above.
#![tactic(auto)]

mod action_id;
mod cut;
mod display;
mod id_runs;
mod id_set;
mod least;
mod limits;
mod no_memory;
mod pieces;
mod replica_id;
mod row;
mod sink;
mod text;
mod weight_set;
mod weighted;

pub use action_id::ActionId;
pub use cut::{Cut, Tops};
pub use id_runs::IdRuns;
pub use id_set::{IdSet, SetIter};
pub use least::lesser;
pub use limits::{COUNT_LIMIT, LIST_LIMIT, NUMBER_LIMIT};
pub use no_memory::NoMemory;
pub use pieces::{Pieces, cut_at};
pub use replica_id::ReplicaId;
pub use row::{Bytes, BytesList, IdList, Row};
pub use sink::put_shown;
pub use text::{put, put_number};
pub use weight_set::{WeightIter, WeightSet};
pub use weighted::Weighted;
