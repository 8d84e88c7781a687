//! A replica's store: its disk, on which a checkpoint and the changes behind it stand for what the replica held at its last
//! commit.
//!
//! The one contract: what a disk stands for is a function of its bytes (`specs/Stands.antt`); at each moment of a commit
//! every image stands for the state before it or after it, after Ok for the latter, and after a fault the byte at the
//! record's gate decides. A checkpoint changes no state. What an event gives out (`Outputs`) is had from its commit alone.
//! When to commit what, and what comes of a crash, is left to the engine above.
//!
//! A disk of the older format goes over to the newer one as it is opened (`specs/Formats.antt`, `specs/Migrating.antt`): at
//! each moment every image stands for the same state, so all behind an opening knows the newer format alone.
//!
//! A store is made, and its replica comes up with what the disk stands for, as in
//! `crates/cg_replica_tests/src/store.rt`:
//!
//! ```rust
//! fn a_replica_comes_up_with_what_its_disk_stands_for(rt: HostRuntime) -> Result<(), Fail> {
//!     let one = ReplicaId::known(1);
//!     let mut set = IdSet::empty();
//!     set.add(one);
//!     let servers = WeightSet::of(&set);
//!     what_is_held_agrees();
//!     let core = Core::fresh(rt.alloc(), one, &servers)?;
//!     let created = Store::create(ModelDisk::new(rt.alloc()), &core);
//!     drop(core);
//!
//!     // what was written is synced, so a crash leaves it
//!     let left = created.ok().ok_or("no store")?.into_disk().image(b"")?;
//!     assert!(rt; left.calls() == 7);
//!     let (store, core) = Store::open(rt.alloc(), left, one).ok().ok_or("no store")?;
//!     drop(store);
//!     assert!(rt; core.prim().set == servers);
//!     drop(core);
//!     Ok(())
//! }
//! ```
#![tactic(auto)]

mod errors;
mod finding;
mod last_values;
mod laws;
mod older;
mod outputs;
mod pending_record;
mod rebuild;
mod records;
mod replay;
mod resuming;
mod settling;
mod store;
mod values;

pub use errors::{CommitErr, OpenErr};
pub use laws::strikes_end_as_defined;
pub use outputs::Outputs;
pub use resuming::{GreenState, resume};
pub use store::Store;
