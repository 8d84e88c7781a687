use cg_base::{IdSet, Row};
use cg_records::{Primary, Vulnerable, Yellow};

/// Records, one place for each summary and in the order of these.
pub type VulnerableList = Row<Option<Vulnerable>>;

/// What follows from the summaries of all members.
pub struct Verdict {
    /// The last primary component that any of them knows of.
    pub prim: Primary,
    pub attempt_index: u64,
    pub yellow: Yellow,
    /// What becomes of each member's record.
    pub vulnerable: VulnerableList,
    /// The members that have left.
    pub gone: IdSet,
    /// The members that remain may form the next primary component.
    pub quorum: bool,
}

impl Drop for Verdict {
    fn drop(self) {
        let Verdict {
            prim: _,
            attempt_index: _,
            yellow: _,
            vulnerable: _,
            gone: _,
            quorum: _,
        } = self;
    }
}
