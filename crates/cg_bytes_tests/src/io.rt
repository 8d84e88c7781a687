//! Sources and sinks that the program has no report of: what each take and each put answers, and what was taken and put.

use crate::table::{is, say, say_number};
use cg_base::put;
use cg_io::{CleanSink, CleanSource, Failed, IoFault, Sink, Source, StdSink, StdSource};
use std::io;

fn say_taken(out: &mut Vec<u8>, taken: Result<usize, Failed>) {
    match taken {
        Ok(count) => say_number(out, count as u64),
        Err(Failed) => say(out, "failed"),
    }
    say(out, ";");
}

fn say_put(out: &mut Vec<u8>, done: Result<(), IoFault>) {
    match done {
        Ok(()) => say(out, "done;"),
        Err(IoFault::Failed) => say(out, "failed;"),
        Err(IoFault::NoMemory) => say(out, "no memory;"),
    }
}

fn say_bytes(out: &mut Vec<u8>, bytes: &[u8]) {
    let _done = put(out, bytes);
    say(out, ";");
}

#[test]
fn clean_ones_pass_all_on(rt: HostRuntime) {
    let mut bytes = Vec::new(rt.alloc());
    say(&mut bytes, "xyz");
    let mut source = CleanSource::new(bytes);
    let mut buf = [0u8; 2];
    let mut out = Vec::new(rt.alloc());
    say_taken(&mut out, source.take(&mut buf));
    say_taken(&mut out, source.take(&mut buf));
    let mut sink = CleanSink::new(rt.alloc());
    say_put(&mut out, sink.put(rt.alloc(), b"xy"));
    say_put(&mut out, sink.put(rt.alloc(), b"z"));
    say_bytes(&mut out, sink.bytes());
    is(&rt, out.as_slice(), "2;1;done;done;xyz;");
}

// Reads one byte at a time, is interrupted once at the third call, and then goes on.
#[derive(Drop)]
struct Interrupted {
    calls: u8,
}

impl io::Read for Interrupted {
    fn read(&mut self, buf: &mut [u8]) -> io::Result<usize> {
        self.calls = self.calls.saturating_add(1);
        if self.calls == 3 {
            return Err(io::Error::from(io::ErrorKind::Interrupted));
        }
        if buf.is_empty() || self.calls > 4 {
            return Ok(0);
        }
        buf[0] = self.calls;
        Ok(1)
    }
}

#[test]
fn a_take_is_one_read_and_an_interrupted_one_is_a_fault(rt: HostRuntime) {
    let mut source = StdSource::new(Interrupted { calls: 0 });
    let mut buf = [0u8; 8];
    let mut out = Vec::new(rt.alloc());
    say_taken(&mut out, source.take(&mut buf));
    say_taken(&mut out, source.take(&mut buf));
    say_number(&mut out, u64::from(buf[0]));
    say(&mut out, ";");
    say_taken(&mut out, source.take(&mut buf));
    say_taken(&mut out, source.take(&mut buf));
    say_taken(&mut out, source.take(&mut buf));
    is(&rt, out.as_slice(), "1;1;2;failed;1;0;");
}

// Takes two bytes at a call, and none from the fourth call on.
#[derive(Drop)]
struct Narrow {
    bytes: Vec<u8>,
    calls: u8,
}

impl io::Write for Narrow {
    fn write(&mut self, buf: &[u8]) -> io::Result<usize> {
        self.calls = self.calls.saturating_add(1);
        if self.calls > 3 {
            return Ok(0);
        }
        let count = buf.len().min(2);
        self.bytes.extend_from_slice(&buf[..count])?;
        Ok(count)
    }

    fn flush(&mut self) -> io::Result<()> {
        Ok(())
    }
}

#[test]
fn a_put_repeats_writes_and_a_write_of_nothing_is_a_fault(rt: HostRuntime) {
    let narrow = Narrow {
        bytes: Vec::new(rt.alloc()),
        calls: 0,
    };
    let mut sink = StdSink::new(narrow);
    let mut out = Vec::new(rt.alloc());
    say_put(&mut out, sink.put(rt.alloc(), b"abcde"));
    say_put(&mut out, sink.put(rt.alloc(), b""));
    say_put(&mut out, sink.put(rt.alloc(), b"f"));
    say_bytes(&mut out, sink.into_inner().bytes.as_slice());
    is(&rt, out.as_slice(), "done;done;failed;abcde;");
}
