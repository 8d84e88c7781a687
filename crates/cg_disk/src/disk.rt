//! A disk as the layers above see it.
ghost use Rattle.std.specs.Prelude.{◌≡◌, ◌+◌, ◌<◌, ◌≤◌, length, take, drop, IfOk, OnOk, IsErrOf};
ghost use Rattle.cg_base.specs.declared.limits.TheConstants.{COUNT_LIMIT, NUMBER_LIMIT};
ghost use Rattle.cg_disk.specs.Sides.{bytes_of, with_bytes};
ghost use Rattle.cg_disk.specs.Writes.{Only, Follows, TornSide, overwritten};
ghost use Rattle.cg_disk.specs.State.{looked, synced, wrote};
ghost use Rattle.cg_disk.specs.View.{DiskView, IsView};
ghost use Rattle.cg_disk.specs.Calls.{Ends, Elapses, HasImages, Looks, Begins};

use thiserror::Error;

/// A side of a disk.
#[derive(Clone, Copy, Debug, PartialEq, Eq)]
pub enum Side {
    A,
    B,
}

/// Why a device call didn't do what it was asked to.
#[derive(Clone, Copy, Debug, PartialEq, Eq, Error)]
pub enum DiskFault {
    /// The device failed, or a stop struck the call. The disk's count of faults rises.
    #[error("a device call failed")]
    Failed,
    /// The disk is as it was, and the call doesn't count.
    #[error("memory was refused")]
    NoMemory,
}

/// A disk of two sides, each a row of bytes. Clauses see what a read gives, which bytes a crash at each moment may leave, and
/// the time, which is the number of device calls made. A disk makes at most 2^62 of them.
pub trait Disk {
    ghost view: { Self → DiskView };

    /// The number of bytes on a side.
    fn size(&mut self, side: Side) -> Result<u64, DiskFault>
        requires { (view self.old).time < COUNT_LIMIT }
        ensures size { IfOk result (λ n. (n ≡ length (bytes_of side (view self.old).reads)) × (n < NUMBER_LIMIT)) }
        ensures looks { Looks (view self.old) (view self.new) }
        ensures ends { Ends looked looked (view self.old) (view self.new) result }
        ensures images { HasImages (view self.new) }
        ensures no_memory { IsErrOf result DiskFault.NoMemory → ⊥ };

    /// The bytes of a side from an offset on, as many as the buffer has.
    fn read(&mut self, side: Side, place: u64, buf: &mut [u8]) -> Result<(), DiskFault>
        requires calls { (view self.old).time < COUNT_LIMIT }
        requires inside { place + length buf.old ≤ length (bytes_of side (view self.old).reads) }
        ensures bytes { OnOk result (buf.new ≡
            take (length buf.old) (drop place (bytes_of side (view self.old).reads))) }
        ensures looks { Looks (view self.old) (view self.new) }
        ensures ends { Ends looked looked (view self.old) (view self.new) result }
        ensures images { HasImages (view self.new) }
        ensures no_memory { IsErrOf result DiskFault.NoMemory → ⊥ };

    /// Writes over what is there, and past the end. Until a sync a crash may leave any bytes in the range.
    fn write_at(&mut self, side: Side, place: u64, bytes: &[u8]) -> Result<(), DiskFault>
        requires calls { (view self.old).time < COUNT_LIMIT }
        requires inside { place ≤ length (bytes_of side (view self.old).reads) }
        ensures written { OnOk result ((view self.new).reads ≡
            with_bytes side (overwritten (bytes_of side (view self.old).reads) place bytes.now) (view self.old).reads) }
        ensures short { OnOk result (place + length bytes.now < NUMBER_LIMIT) }
        ensures crash { Follows (TornSide side place (length bytes.now)) (view self.old).may_leave
            (view self.new).may_leave }
        ensures elapses { Elapses (view self.old) (view self.new) }
        ensures ends { Ends (wrote side place bytes.now) (wrote side place bytes.now) (view self.old)
            (view self.new) result }
        ensures images { HasImages (view self.new) };

    /// After it a crash leaves what a read gives.
    fn sync(&mut self) -> Result<(), DiskFault>
        requires { (view self.old).time < COUNT_LIMIT }
        ensures durable { OnOk result (Only (view self.old).reads (view self.new).may_leave) }
        ensures looks { Looks (view self.old) (view self.new) }
        ensures ends { Ends synced looked (view self.old) (view self.new) result }
        ensures images { HasImages (view self.new) }
        ensures no_memory { IsErrOf result DiskFault.NoMemory → ⊥ };

    /// From now on the disk answers for the moments since each time that isn't before this one. It is no device call.
    fn begin(&mut self)
        ensures { Begins (view self.old) (view self.new) };

    ghost is_view: { (disk : Self) → IsView (view disk) };
}
