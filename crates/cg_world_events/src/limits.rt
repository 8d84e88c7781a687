//! How many device calls a disk may have made before what comes next: their number stays within 2^62.

use cg_base::COUNT_LIMIT;

/// The device calls of a recovery, at the most.
pub(crate) const RECOVERY_CALLS: u64 = 16;

/// The device calls of an event, at the most.
pub(crate) const EVENT_CALLS: u64 = 10;

/// The most of them before a crash, which a recovery follows.
pub(crate) const CALLS_BEFORE_CRASH: u64 = COUNT_LIMIT - RECOVERY_CALLS;

/// The most of them before an event, which may end in a crash.
pub(crate) const CALLS_BEFORE_EVENT: u64 = CALLS_BEFORE_CRASH - EVENT_CALLS;
