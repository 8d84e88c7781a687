//! The world of replicas with disks: whether an event is admitted, the step that the world takes with it, what the step
//! shows, the runs of such steps, and what their steps agree on; and what holds of each event at one replica.
//!
//! Definitions, which contracts of the code above cite, with their laws. The table of states is below, in `cg_states`.
//! An event keeps what holds of all that a replica holds, and the record of its commit leads from what stands on the disk
//! to what the commit leaves (`specs/Recorded.antt`); so a replica follows its disk through events, crashes and recoveries
//! (`specs/Following.antt`).
//!
//! That the steps of every run agree is proved in `cg_agree`. The chronicle beside a world and the facts that hold of both
//! (`specs/Chronicle.antt`, `specs/Facts.antt`) are what that proof is about.
#![tactic(auto)]

mod step_laws;

pub use step_laws::{
    each_commit_is_recorded, each_event_keeps_what_holds, each_replica_follows_its_disk,
};
