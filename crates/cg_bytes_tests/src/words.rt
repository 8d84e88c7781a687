//! What faults say: no clause does.

use crate::table::{is, say, say_shown};
use cg_base::NoMemory;
use cg_codec::CodecFault;
use cg_io::{Failed, IoFault};
use cg_schedule::{LineFault, SyntaxReason};
use cg_text::TextFault;
use std::fmt::Display;

const WORDS: &str = "memory was refused
a take failed
a put failed
memory was refused
the text is too long
the bytes end in the field at 9
the line ends where a part must stand
";

fn say_fault(out: &mut Vec<u8>, fault: &impl Display) {
    say_shown(out, fault);
    say(out, "\n");
}

#[test]
fn faults_have_words(rt: HostRuntime) {
    let mut out = Vec::new(rt.alloc());
    say_fault(&mut out, &NoMemory);
    say_fault(&mut out, &Failed);
    say_fault(&mut out, &IoFault::Failed);
    say_fault(&mut out, &IoFault::NoMemory);
    say_fault(&mut out, &TextFault::TooLong);
    say_fault(&mut out, &CodecFault::Short { at: 9 });
    say_fault(&mut out, &LineFault::Syntax(SyntaxReason::MissingPart));
    is(&rt, out.as_slice(), WORDS);
}
