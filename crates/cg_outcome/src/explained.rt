use crate::bounds::bound;
use crate::refusals::{advice, subject};
use crate::status::Status;
use crate::syntax::misreading;
use cg_group::Reason;
use std::fmt;
use std::fmt::{Display, Formatter, Write};

/// A status, in words for people.
#[derive(Clone, Copy, Debug)]
pub struct Explained(pub Status);

impl Display for Explained {
    fn fmt<W: Write>(&self, f: &mut Formatter<W>) -> fmt::Result {
        match self.0 {
            Status::Done => f.write_str("the command was carried out to its end"),
            Status::Usage => f.write_str(
                "the words are no command; give `replay`, `check`, `follow`, `relaxed`, `sessions`, `image` P (a replica, \
                 1 to 32) or `json` a schedule by < FILE, or `compare` logs, or `inspect` an image, or give `generate` or \
                 `trial` SEED (a number of 64 bits), REPLICAS (1 to 32) and LINES (3 to 200000)",
            ),
            Status::Syntax { line, reason } => {
                let words = misreading(reason);
                write!(f, "line {line} can't be read: {words} (reason {reason})")
            }
            Status::Refused { line, reason } => {
                write!(f, "line {line} isn't admitted: {}", RefusalText(reason))
            }
            Status::ReadFault => f.write_str(
                "reading the input failed; give a file that can be read, by < FILE",
            ),
            Status::WriteFault => f.write_str(
                "writing the output failed, so it isn't whole; see whether the disk is full or a pipe was closed",
            ),
            Status::Limit { line: 0, .. } => f.write_str(
                "the image passes a limit: it has more than 8388608 bytes, and longer ones aren't looked at",
            ),
            Status::Limit { line, what } => {
                write!(f, "line {line} passes a limit: {}", bound(what))
            }
            Status::NoMemory => f.write_str(
                "memory was refused, so the output isn't whole; give more memory, or a shorter schedule",
            ),
            Status::NoEnd { lines } => write!(
                f,
                "the input has no last line `end` (its lines: {lines}); add it"
            ),
            Status::NotAnImage => f.write_str(
                "the input isn't the image of a replica's disk: a byte with the replica's number, and each side behind its \
                 length in 8 bytes",
            ),
            Status::NotAStore => f.write_str(
                "on the disk in the image stands no state of the replica; see whether the image is that replica's, and whole",
            ),
        }
    }
}

// the reason, its value where it has one, and its number
#[derive(Clone, Copy, Debug)]
struct RefusalText(Reason);

impl Display for RefusalText {
    fn fmt<W: Write>(&self, f: &mut Formatter<W>) -> fmt::Result {
        let number = self.0.number();
        f.write_str(subject(self.0))?;
        if let Some(value) = self.0.value() {
            write!(f, " {value}")?;
        }
        write!(f, "{} (reason {number})", advice(self.0))
    }
}
