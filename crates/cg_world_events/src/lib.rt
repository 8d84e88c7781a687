//! What each event does to the group and to the replicas with their disks, and what of it is to be shown.
//!
//! A `WorldState` is the world of `cg_model`'s definitions; an event on the way is its `StepInProgress`, which is changed
//! in place. The one contract: `happen` makes of it what `happens` says, or tells the first refusal.
//!
//! A replica with its disk is a `Node`: up, with its engine, or down, with what a crash left. Each call on it gives back
//! the node with what the definition of the same matter (Step of `cg_model`) makes of its life (`specs/Nodes.antt`). An
//! `EntryBuilder` is told replica by replica what the step shows: the actions made, the places of the global order that
//! were reached first, the replies by place, and the lines that differ from the last printed ones.
#![tactic(auto)]

mod admission;
mod answered;
mod asking;
mod beginning;
mod crashed_disk;
mod entry_builder;
mod event;
mod event_effects;
mod grouping;
mod handing;
mod limits;
mod lines;
mod looks;
mod made;
mod node;
mod node_output;
mod node_state;
mod nodes;
mod position;
mod querying;
mod recovering;
mod rising;
mod snapshot_counts;
mod state;
mod step_in_progress;
mod striking;
mod taking;
mod touching;
mod transfers;

pub use entry_builder::EntryBuilder;
pub use event::happen;
pub use event_effects::EventEffects;
pub use lines::Lines;
pub use node::Node;
pub use node_output::NodeOutput;
pub use state::WorldState;
pub use step_in_progress::StepInProgress;
pub use touching::touched;
