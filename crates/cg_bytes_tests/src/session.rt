//! Lines of sessions as they are read, and a token's writes: that with ample memory they succeed, no clause says.

use crate::table::{is, say, say_shown};
use cg_base::{ActionId, ReplicaId};
use cg_session::{Token, read_session};
use std::alloc::Global;

const SEEN: &str = r#"session 7
swrite 7 2 inc "x" 1; put "y" "z" ? get "x"
sweak 7 2 keys ""
the line ends where a part must stand
none
raised
"#;

fn say_line(alloc: Global, out: &mut Vec<u8>, line: &str) {
    match read_session(alloc, line.as_bytes()) {
        Ok(Some(event)) => say_shown(out, &event),
        Ok(None) => say(out, "none"),
        Err(fault) => say_shown(out, &fault),
    }
    say(out, "\n");
}

fn own_name() -> ActionId {
    ActionId {
        creator: ReplicaId::known(1),
        index: 2,
    }
}

fn say_raised(alloc: Global, out: &mut Vec<u8>) {
    let mut token = Token::new(alloc);
    let _done = token.wrote(own_name());
    if token.replied(own_name(), 1) {
        say(out, "raised\n");
    }
}

#[test]
fn sessions_read_and_write(rt: HostRuntime) {
    let mut out = Vec::new(rt.alloc());
    say_line(rt.alloc(), &mut out, " session  7");
    say_line(
        rt.alloc(),
        &mut out,
        r#"swrite 7 2 inc "x" 1;put "y" "z"? get "x""#,
    );
    say_line(rt.alloc(), &mut out, r#"sweak 7 2 keys """#);
    say_line(rt.alloc(), &mut out, "swrite 7");
    say_line(rt.alloc(), &mut out, "show order");
    say_raised(rt.alloc(), &mut out);
    is(&rt, out.as_slice(), SEEN);
}
