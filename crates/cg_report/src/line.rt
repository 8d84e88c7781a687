use cg_base::{IdRuns, IdSet, ReplicaId};
use cg_records::{Primary, Vulnerable, Yellow};

/// The state of a replica.
#[derive(Clone, Copy, Debug, PartialEq, Eq)]
pub enum StateName {
    RegPrim,
    TransPrim,
    ExchangeStates,
    ExchangeActions,
    Construct,
    No,
    Un,
    NonPrim,
    Left,
}

/// Where a replica stands in the group: alone, or in a configuration's regular or transitional phase.
#[derive(Clone, Copy, Debug, PartialEq, Eq)]
pub enum ShownPhase {
    Alone,
    Regular(u64),
    Transitional(u64),
}

/// What a replica's line shows of what it holds.
#[derive(PartialEq, Eq)]
pub struct View {
    pub green_count: u64,
    pub white_count: u64,
    pub prim: Primary,
    pub attempt_index: u64,
    pub vulnerable: Option<Vulnerable>,
    pub yellow: Yellow,
    pub reds: IdRuns,
    pub own: IdRuns,
    pub left: IdSet,
    pub buffered: u64,
}

impl Drop for View {
    fn drop(self) {
        let View {
            green_count: _,
            white_count: _,
            prim: _,
            attempt_index: _,
            vulnerable: _,
            yellow: _,
            reds: _,
            own: _,
            left: _,
            buffered: _,
        } = self;
    }
}

/// The line of a replica that is up, but for its identifier.
#[derive(PartialEq, Eq)]
pub struct UpLine {
    pub state: StateName,
    pub phase: ShownPhase,
    pub view: View,
}

impl Drop for UpLine {
    fn drop(self) {
        let UpLine {
            state: _,
            phase: _,
            view: _,
        } = self;
    }
}

/// The line of a replica; None says that it is down.
#[derive(PartialEq, Eq)]
pub struct Line {
    pub id: ReplicaId,
    pub up: Option<UpLine>,
}

impl Drop for Line {
    fn drop(self) {
        let Line { id: _, up: _ } = self;
    }
}
