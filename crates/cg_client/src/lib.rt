//! What a replica holds in every state, and what marks, requests, an exchange, an installation and queries make of it.
//!
//! A `Core` is what a replica holds, and a `Draft` what the event under way has brought about. Each call is a function of
//! `specs/` on the two of them together, as a `Turn`; for which state it is called, and what goes to the disk, is left to
//! the layers above. After `NoMemory` nothing is said of the two: they are to be let go.
//!
//! A core is made of parts: the actions that it knows, its own ones that weren't delivered yet, the requests that it
//! keeps, the servers, what it knows of primary components. Each part, and each list of actions, names or messages, is
//! seen as what it holds; that its values have bytes is an invariant of its type, so who has the part knows it.
#![tactic(auto)]

mod checked_queue;
mod checked_servers;
mod chosen;
mod components;
mod draft;
mod entries;
mod fifo;
mod held;
mod install;
mod kept_request;
mod lent;
mod marking;
mod marks;
mod overlay;
mod own;
mod parts;
mod queries;
mod reads;
mod request;
mod requests;
mod stored;
mod telling;
mod weights;

pub use checked_queue::CheckedQueue;
pub use checked_servers::CheckedServers;
pub use chosen::{actions_named, add_plain_reds, names_of, plain_names};
pub use components::{Components, is_number};
pub use draft::Draft;
pub use fifo::Fifo;
pub use held::Core;
pub use install::Installed;
pub use kept_request::KeptRequest;
pub use marking::{drop_own, last_index, name_of, note_unknown, put_green, put_red};
pub use own::Own;
pub use parts::DraftParts;
pub use request::Request;
pub use stored::WhiteState;
pub use weights::weigh;
