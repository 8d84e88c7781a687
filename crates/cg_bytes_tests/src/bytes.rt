//! Bytes as texts: digits of base 16, and letters between single quotes, as in `01 00000001'x'`. Blanks are passed over,
//! but between quotes.

use cg_base::put;
use std::alloc::Global;

fn digit(byte: u8) -> u8 {
    match byte {
        b'0'..=b'9' => byte - b'0',
        b'a'..=b'f' => byte - b'a' + 10,
        _ => 0,
    }
}

// one more digit, behind the first one of its byte where there is one
fn add_digit(out: &mut Vec<u8>, first: Option<u8>, digit: u8) -> Option<u8> {
    match first {
        Some(first) => {
            let _done = put(out, &[first << 4 | digit]);
            None
        }
        None => Some(digit),
    }
}

pub(crate) fn bytes_of(alloc: Global, text: &str) -> Vec<u8> {
    let mut out = Vec::new(alloc);
    let mut is_quoted = false;
    let mut first = None;
    for byte in text.as_bytes() {
        if *byte == b'\'' {
            is_quoted = !is_quoted;
        } else if is_quoted {
            let _done = put(&mut out, &[*byte]);
        } else if *byte != b' ' {
            first = add_digit(&mut out, first, digit(*byte));
        }
    }
    out
}
