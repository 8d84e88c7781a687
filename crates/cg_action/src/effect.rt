/// What an action did. Its commands are numbered from 1.
#[derive(Clone, Copy, Debug, PartialEq, Eq)]
pub enum Effect {
    /// All its commands ran.
    Done,
    /// The command of this number failed, and nothing was changed.
    Aborted(u8),
    /// The command of this number made a number that 64 bits don't hold, and nothing was changed.
    Range(u8),
}
