//! What the facts of agreement say of worked schedules, as theorems that compute.
//!
//! Whoever believes the proof of agreement has to believe that its facts are the right ones. Here each fact is said once more, as
//! a test (`specs/Tests*.antt`), and `specs/Audit.antt` plays a schedule by small steps, tries all facts after each of them, and
//! says which fail. Each file `proofs/Audit*.antt` has a schedule, and the theorem that none fails. `proofs/OneWorld.antt` shows
//! what a world doesn't tell: which actions were made. No code stands on this.
#![tactic(auto)]
