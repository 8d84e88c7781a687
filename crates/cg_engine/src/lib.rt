//! The engine: one replica with its disk. One event is one step of the replica, and at most one commit.
//!
//! A `Replica` is what it is in memory, in whichever state; `Replica::step` is the table of states as one function,
//! `replica_step` of `cg_states`, on the deliveries that are read in the bytes, or on a request; of a delivery whose bytes
//! spell no message nothing comes.
//!
//! The one contract: `Engine::handle` is `replica_step` on what comes, and ends as the event's commit ends at the store
//! (`specs/Answers.antt`). Whatever strikes, at each moment every image of the disk stands for the state before the event
//! or for the one behind it, and `Engine::recover` brings up what the disk stands for. What an event gives out is had
//! behind its commit alone.
//!
//! What a disk in memory stands for is read from a copy of it (`Wreck::standing`), so that it stays as it is;
//! `Wreck::downgraded` puts one of the older format in its place (`specs/Standing.antt`).
//!
//! A replica is started, crashes, and comes up again, as in `crates/cg_replica_tests/src/engine.rt`:
//!
//! ```rust
//! fn a_replica_comes_up_again_behind_a_crash(rt: HostRuntime) -> Result<(), Fail> {
//!     let one = ReplicaId::known(1);
//!     let mut set = IdSet::empty();
//!     set.add(one);
//!     let servers = WeightSet::of(&set);
//!     let disk = ModelDisk::new(rt.alloc());
//!     let Started::Running { engine } = Engine::start(rt.alloc(), disk, one, &servers) else {
//!         return Err("no engine")?;
//!     };
//!
//!     // its disk is all that is left of it
//!     let left = engine.stop().image(b"")?;
//!     let Recovered::Running { engine, green } = Engine::recover(rt.alloc(), left) else {
//!         return Err("not up again")?;
//!     };
//!     assert!(rt; engine.calls() == 12 && green.as_slice().is_empty());
//!     assert!(rt; engine.state() == StateName::NonPrim);
//!     drop(engine);
//!     drop(green);
//!     Ok(())
//! }
//! ```
#![tactic(auto)]

mod answers;
mod attempt;
mod engine;
mod input;
mod laws;
mod looks;
mod member_state;
mod out_of_prim;
mod prim;
mod replica;
mod wreck;

pub use answers::{Handled, Recovered, Started};
pub use cg_store::Outputs;
pub use engine::Engine;
pub use input::Input;
pub use laws::events_end_as_defined;
pub use replica::Replica;
pub use wreck::Wreck;
