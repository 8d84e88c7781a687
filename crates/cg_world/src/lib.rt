//! The world that a schedule steps: its replicas, each with its disk, and what each step shows.
//!
//! The world takes a step with an event of the schedule (`World::step`), which is `world_step` of `cg_model`'s
//! definitions, or tells why the event isn't admitted; what the step shows is an entry of `cg_report`. Which actions were
//! made so far is a part of its value. Where the events come from, how steps are counted and where the text goes is left
//! to the program above.
//!
//! One step, as in `crates/cg_run_tests/src/worlds.rt`:
//!
//! ```rust
//! fn take_step(alloc: Global, world: World, event: &Event) -> Result<World, Fail>
//!     requires stands { MayStand world.world event.now }
//!     requires counted { IsCounted event.now }
//!     ensures { IfOk result (λ w. IsHosted w.world) }
//! {
//!     match world.step(alloc, event) {
//!         Stepped::Done { world, entry } => {
//!             drop(entry);
//!             Ok(world)
//!         }
//!         Stepped::Refused { world, .. } => {
//!             drop(world);
//!             Err("the event isn't admitted")?
//!         }
//!         Stepped::NoMemory => Err("no memory")?,
//!     }
//! }
//! ```
#![tactic(auto)]

mod all_made;
mod made_actions;
mod place;
mod standing;
mod state;
mod world;

pub use standing::Standing;
pub use state::World;
pub use world::Stepped;
