//! A text between quotes.

use crate::table::is;
use cg_text::{Txt, put_quoted};

#[test]
fn a_text_is_put_between_quotes(rt: HostRuntime) {
    let mut out = Vec::new(rt.alloc());
    if let Ok(text) = Txt::new(rt.alloc(), r#"a"b\c"#) {
        let _done = put_quoted(&mut out, &text);
    }
    is(&rt, out.as_slice(), r#""a\"b\\c""#);
}
