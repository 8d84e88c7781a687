ghost use Rattle.std.specs.Prelude.{◌<◌, length, OnOk, IsErrOf};
ghost use Rattle.cg_base.specs.declared.limits.TheConstants.{COUNT_LIMIT};
ghost use Rattle.cg_io.specs.Calls.{Takes, TakeCause, PutsNothing, PutCause};
ghost use Rattle.cg_io.specs.Outside.{SourceView, SinkView, PutsAll, PutsFront};

use std::alloc::Global;
use thiserror::Error;

/// A take failed, and took nothing.
#[derive(Clone, Copy, Debug, PartialEq, Eq, Error)]
#[error("a take failed")]
pub struct Failed;

/// Why a put didn't put its whole part.
#[derive(Clone, Copy, Debug, PartialEq, Eq, Error)]
pub enum IoFault {
    /// The outside failed. Some front of the part was put.
    #[error("a put failed")]
    Failed,
    /// Memory was refused. Nothing of the part was put.
    #[error("memory was refused")]
    NoMemory,
}

/// Where bytes come from.
pub trait Source {
    /// The bytes that are still to come, where the source tells them, and how often a take has failed. That count never
    /// falls, and stands still where a take succeeds.
    ghost view: { Self → SourceView };

    /// Moves the next bytes into the front of the buffer, and answers how many; 0 says that none is left.
    fn take(&mut self, buf: &mut [u8]) -> Result<usize, Failed>
        requires room { 0 < length buf.old }
        requires few_faults { (view self.old).faults < COUNT_LIMIT }
        ensures bytes { Takes (view self.old) (view self.new) result buf.new }
        ensures cause { TakeCause (view self.old) (view self.new) result };
}

/// Where bytes go.
pub trait Sink {
    /// The bytes that were put, where the sink tells them, and how often a put has failed. That count never falls, and
    /// stands still where a put succeeds.
    ghost view: { Self → SinkView };

    /// Puts the whole part, or tells why not.
    fn put(&mut self, alloc: Global, part: &[u8]) -> Result<(), IoFault>
        requires few_faults { (view self.old).faults < COUNT_LIMIT }
        ensures ok { OnOk result (PutsAll (view self.old) (view self.new) part.now) }
        ensures failed { IsErrOf result IoFault.Failed → PutsFront (view self.old) (view self.new) part.now }
        ensures no_memory { IsErrOf result IoFault.NoMemory → PutsNothing (view self.old) (view self.new) }
        ensures cause { PutCause (view self.old) (view self.new) result };
}
