/// How a replica stands in a world.
#[derive(Clone, Copy, Debug, PartialEq, Eq)]
pub enum Standing {
    /// It hasn't begun.
    Unbegun,
    /// It is down.
    Down,
    /// It has left for good.
    Left,
    /// It is up, and takes part; where it is creating, it creates a request at once and keeps none.
    Up { creating: bool },
}
