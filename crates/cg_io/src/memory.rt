ghost use Rattle.std.specs.Prelude.{◌≡◌, ◌≤◌, ◌<◌, ◌+◌, Some, vec_len, length, [], OnOk, IsErrOf, IsErr, ◌↔◌, Contains};
ghost use Rattle.cg_base.specs.declared.limits.TheConstants.{COUNT_LIMIT};
ghost use Rattle.cg_io.specs.Outside.{PutsAll};
ghost use Rattle.cg_io.specs.Memory.{from_offset, kept};
ghost use Rattle.cg_io.specs.Calls.{Takes, TakeCause, PutsNothing, PutCause};

use crate::front::copy_front;
use crate::{Failed, IoFault, Sink, Source};
use std::alloc::Global;

/// A source over bytes in memory, of which chosen takes fail.
#[derive(Drop)]
pub struct MemSource {
    bytes: Vec<u8>,
    offset: usize,
    fail: Vec<u64>,
    calls: u64,
    faults: u64,
    ghost within: { offset ≤ vec_len bytes },
}

impl MemSource {
    /// The takes named by `fail`, counted from 1, fail.
    pub fn new(bytes: Vec<u8>, fail: Vec<u64>) -> MemSource
        ensures view { ⟦<MemSource as Source>⟧.view result ≡ from_offset 0 bytes.items 0 }
        ensures fail { result.fail.items ≡ fail.items }
        ensures calls { result.calls ≡ 0 }
    {
        MemSource {
            bytes,
            offset: 0,
            fail,
            calls: 0,
            faults: 0,
        }
    }
}

impl Source for MemSource {
    ghost view = { λ s. from_offset s.offset s.bytes.items s.faults };

    fn take(&mut self, buf: &mut [u8]) -> Result<usize, Failed>
        requires room { 0 < length buf.old }
        requires few_faults { self.old.faults < COUNT_LIMIT }
        ensures bytes { Takes (from_offset self.old.offset self.old.bytes.items self.old.faults) (from_offset
            self.new.offset self.new.bytes.items self.new.faults) result buf.new }
        ensures cause { TakeCause (from_offset self.old.offset self.old.bytes.items self.old.faults) (from_offset
            self.new.offset self.new.bytes.items self.new.faults) result }
        ensures chosen { self.old.calls < COUNT_LIMIT → IsErr result ↔ Contains self.old.fail.items (self.old.calls + 1) }
        ensures counted { self.old.calls < COUNT_LIMIT → self.new.calls ≡ self.old.calls + 1 }
        ensures kept { self.new.fail ≡ self.old.fail }
    {
        self.calls = self.calls.saturating_add(1);
        if self.fail.contains(&self.calls) {
            self.faults += 1;
            return Err(Failed);
        }
        let count = copy_front(&self.bytes[self.offset..], buf);
        self.offset += count;
        Ok(count)
    }
}

/// A sink that keeps its bytes, of which chosen puts fail.
#[derive(Drop)]
pub struct MemSink {
    bytes: Vec<u8>,
    fail: Vec<u64>,
    calls: u64,
    faults: u64,
}

impl MemSink {
    /// The puts named by `fail`, counted from 1, fail, and put nothing.
    pub fn new(alloc: Global, fail: Vec<u64>) -> MemSink
        ensures view { ⟦<MemSink as Sink>⟧.view result ≡ kept [] 0 }
        ensures fail { result.fail.items ≡ fail.items }
        ensures calls { result.calls ≡ 0 }
    {
        MemSink {
            bytes: Vec::new(alloc),
            fail,
            calls: 0,
            faults: 0,
        }
    }

    /// The bytes put so far.
    pub fn bytes(&self) -> &[u8]
        ensures { (⟦<MemSink as Sink>⟧.view self.now).held ≡ Some result.now }
    {
        self.bytes.as_slice()
    }
}

impl Sink for MemSink {
    ghost view = { λ s. kept s.bytes.items s.faults };

    fn put(&mut self, _alloc: Global, part: &[u8]) -> Result<(), IoFault>
        requires few_faults { self.old.faults < COUNT_LIMIT }
        ensures ok { OnOk
            result (PutsAll (kept self.old.bytes.items self.old.faults) (kept self.new.bytes.items
            self.new.faults) part.now) }
        ensures failed { IsErrOf result IoFault.Failed →
            PutsNothing (kept self.old.bytes.items self.old.faults) (kept self.new.bytes.items self.new.faults) }
        ensures no_memory { IsErrOf result IoFault.NoMemory →
            PutsNothing (kept self.old.bytes.items self.old.faults) (kept self.new.bytes.items self.new.faults) }
        ensures cause { PutCause (kept self.old.bytes.items self.old.faults) (kept self.new.bytes.items
            self.new.faults) result }
        ensures chosen { self.old.calls < COUNT_LIMIT →
            IsErrOf result IoFault.Failed ↔ Contains self.old.fail.items (self.old.calls + 1) }
        ensures counted { self.old.calls < COUNT_LIMIT → self.new.calls ≡ self.old.calls + 1 }
        ensures kept { self.new.fail ≡ self.old.fail }
    {
        self.calls = self.calls.saturating_add(1);
        if self.fail.contains(&self.calls) {
            self.faults += 1;
            return Err(IoFault::Failed);
        }
        match self.bytes.extend_from_slice(part) {
            Ok(()) => Ok(()),
            Err(_) => Err(IoFault::NoMemory),
        }
    }
}
