use thiserror::Error;

/// What a mark found.
#[derive(Clone, Copy, Debug, PartialEq, Eq)]
pub enum Mark {
    /// The action was new here, and is marked.
    Placed,
    /// The action, or the place, was known before.
    Known,
}

/// Why an action wasn't marked; nothing is changed.
#[derive(Clone, Copy, Debug, PartialEq, Eq, Error)]
pub enum QueueFault {
    /// The creator's action before this one isn't known. Its last known one has this index.
    #[error("the creator's action before this one isn't known: its last known one has index {cut}")]
    Gap { cut: u64 },
    /// Memory was refused.
    #[error("memory was refused")]
    NoMemory,
}
