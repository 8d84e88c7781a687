ghost use Rattle.std.specs.Prelude.{◌≡◌, ◌≤◌, None};

use crate::{Failed, IoFault, Sink, Source};
use std::alloc::Global;
use std::io::{Read, Write};

/// A source over a reader of the system. What it gives is not told.
#[derive(Drop)]
pub struct StdSource<R: Read> {
    inner: R,
    faults: u64,
}

impl<R: Read> StdSource<R> {
    pub fn new(inner: R) -> StdSource<R>
        ensures { ⟦<StdSource<R> as Source>⟧.view result ≡ record { left = None; faults = 0 } }
    {
        StdSource { inner, faults: 0 }
    }
}

impl<R: Read> Source for StdSource<R> {
    ghost view = { λ s. record { left = None; faults = s.faults } };

    /// One read.
    fn take(&mut self, buf: &mut [u8]) -> Result<usize, Failed> {
        match self.inner.read(buf) {
            Ok(count) => Ok(count),
            Err(_) => {
                self.faults += 1;
                Err(Failed)
            }
        }
    }
}

/// A sink over a writer of the system. What it holds is not told.
#[derive(Drop)]
pub struct StdSink<W: Write> {
    inner: W,
    faults: u64,
}

impl<W: Write> StdSink<W> {
    pub fn new(inner: W) -> StdSink<W>
        ensures { ⟦<StdSink<W> as Sink>⟧.view result ≡ record { held = None; faults = 0 } }
    {
        StdSink { inner, faults: 0 }
    }

    /// The writer that the bytes were written to.
    pub fn into_inner(self) -> W
    where
        W: Drop,
        ensures { result ≡ self.inner }
    {
        let StdSink { inner, .. } = self;
        inner
    }
}

impl<W: Write> Sink for StdSink<W> {
    ghost view = { λ s. record { held = None; faults = s.faults } };

    /// Repeats write until the part is out.
    fn put(&mut self, _alloc: Global, part: &[u8]) -> Result<(), IoFault> {
        let mut rest = part;
        while !rest.is_empty() {
            match self.inner.write(rest) {
                Ok(count) if count > 0 => rest = &rest[count..],
                _ => {
                    self.faults += 1;
                    return Err(IoFault::Failed);
                }
            }
        }
        Ok(())
    }
}
