use cg_action::Value;

/// What is read of a key.
#[derive(Drop)]
pub struct Cell {
    /// Its register; `None` where it was never written, or was last removed.
    pub value: Option<Value>,
    /// All that was added to it.
    pub sum: i128,
}
