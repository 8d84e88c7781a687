//! The image of a replica's disk in bytes, and what is seen in one.
//!
//! An image is the number of the replica, and each side of its disk behind its length (`specs/Images.antt`). `image_bytes`
//! writes one, `take_image` makes the disk of one, and `images_are_read` says that the first is undone by the second. What
//! `inspect` tells of an image is what a recovery brings up from its disk (`specs/Inspecting.antt`): by
//! `images_show_their_replica` that of the replica whose disk it is. Whose image is taken, and when, is left to the layers
//! above.
//!
//! What is seen in an image is put as text, as in `crates/cg_image_tests/src/images.rt`:
//!
//! ```rust
//! fn seen(alloc: Global, bytes: &[u8]) -> Result<Vec<u8>, NoMemory> {
//!     let mut text = Vec::new(alloc);
//!     match inspect(alloc, bytes)? {
//!         Inspected::NotAnImage => text.extend_from_slice(b"not an image")?,
//!         Inspected::NotAStore => text.extend_from_slice(b"not a store")?,
//!         Inspected::Holds(entry) => {
//!             let put = put_shown(&mut text, &entry);
//!             drop(entry);
//!             put?;
//!         }
//!     }
//!     Ok(text)
//! }
//! ```
#![tactic(auto)]

mod calls;
mod inspecting;
mod laws;
mod parts;
mod taking;
mod writing;

pub use inspecting::{Inspected, inspect};
pub use laws::{entries_tell_their_replica, images_are_read, images_show_their_replica};
pub use taking::{ImagedDisk, take_image};
pub use writing::image_bytes;
