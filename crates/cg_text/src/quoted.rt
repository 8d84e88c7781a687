//! Texts between quotes.

ghost use Rattle.std.specs.Prelude.{◌≡◌, ◌+◌, ◌<◌, ◌++◌, flat_map, length, drop, false, OnOk, OnErr, Some, Ok, Err, if◌then◌else◌};
ghost use Rattle.std.specs.Option.{ok_or};
ghost use Rattle.std.specs.Str.{is_utf8};
ghost use Rattle.std.specs.Char.{encode_utf8};
ghost use Rattle.std.specs.Fmt.{WritesOnOk};
ghost use Rattle.cg_text.specs.Fault.{Reads};
ghost use Rattle.cg_text.specs.Quoted.{is_special, is_control, ends_text, escapes, is_refused, onto, kept, closed, escaped, quoted, read_quoted, text_between, text_up_to_quote};

use crate::{TextFault, Txt};
use cg_base::{NoMemory, put_shown};
use std::alloc::Global;
use std::fmt;
use std::fmt::{Display, Formatter, Write};

/// The text of at most `max` bytes that the bytes spell between quotes. There `"` is written `\"` and
/// `\` is written `\\`; no other escape exists, and a byte below 0x20 or 0x7F doesn't stand.
pub fn read_quoted(alloc: Global, t: &[u8], max: u64) -> Result<Txt, TextFault>
    ensures { Reads (λ text. text) (read_quoted max t.now) result }
{
    let text = text_of(unquoted(alloc, t)?)?;
    if text.len() as u64 > max {
        return Err(TextFault::TooLong);
    }
    Ok(text)
}

// the text that the bytes are
fn text_of(bytes: Vec<u8>) -> Result<Txt, TextFault>
    ensures { result ≡ (if is_utf8 bytes.items then Ok bytes.items else Err TextFault.BadQuote) }
{
    match String::from_utf8(bytes) {
        Ok(text) => Ok(Txt::from_string(text)),
        Err(_) => Err(TextFault::BadQuote),
    }
}

// the bytes that stand between the quotes
fn unquoted(alloc: Global, t: &[u8]) -> Result<Vec<u8>, TextFault>
    ensures { Reads (λ v. v.items) (ok_or (text_between t.now) TextFault.BadQuote) result }
{
    match t {
        [b'"', inner @ ..] => unescaped(alloc, inner),
        _ => Err(TextFault::BadQuote),
    }
}

// the bytes up to the closing quote
fn unescaped(alloc: Global, inner: &[u8]) -> Result<Vec<u8>, TextFault>
    ensures { Reads (λ v. v.items) (ok_or (text_up_to_quote false inner.now) TextFault.BadQuote) result }
{
    let mut text = Vec::new(alloc);
    let mut is_escaped = false;
    for (i, byte) in inner.iter().enumerate() {
        if ends_text(is_escaped, *byte) {
            return if_last(i, inner, text);
        }
        if is_refused(is_escaped, *byte) {
            return Err(TextFault::BadQuote);
        }
        is_escaped = escapes(is_escaped, *byte);
        keep(&mut text, is_escaped, *byte)?;
    }
    Err(TextFault::BadQuote)
}

// the text, if nothing stands behind the place where it was closed
fn if_last(i: usize, inner: &[u8], text: Vec<u8>) -> Result<Vec<u8>, TextFault>
    requires { i < length inner.now }
    ensures { Reads (λ v. v.items) (ok_or (onto text.items (closed (drop (i + 1) inner.now)))
        TextFault.BadQuote) result }
{
    if i + 1 == inner.len() {
        Ok(text)
    } else {
        Err(TextFault::BadQuote)
    }
}

// a byte of the text, unless it is a backslash before another
fn keep(text: &mut Vec<u8>, is_backslash: bool, byte: u8) -> Result<(), NoMemory>
    ensures { OnOk result (text.new.items ≡ text.old.items ++ kept is_backslash byte) }
{
    if !is_backslash {
        text.push(byte)?;
    }
    Ok(())
}

// The byte ends a quoted text. It may stand behind a backslash.
pub(crate) fn ends_text(is_escaped: bool, byte: u8) -> bool
    ensures { result ≡ ends_text is_escaped byte }
{
    !is_escaped && byte == b'"'
}

// The byte is a backslash before another byte.
pub(crate) fn escapes(is_escaped: bool, byte: u8) -> bool
    ensures { result ≡ escapes is_escaped byte }
{
    !is_escaped && byte == b'\\'
}

// The byte must not stand there.
fn is_refused(is_escaped: bool, byte: u8) -> bool
    ensures { result ≡ is_refused is_escaped byte }
{
    if is_escaped {
        !is_special(byte)
    } else {
        is_control(byte)
    }
}

fn is_special(byte: u8) -> bool
    ensures { result ≡ is_special byte }
{
    byte == b'"' || byte == b'\\'
}

fn is_control(byte: u8) -> bool
    ensures { result ≡ is_control byte }
{
    byte < 0x20 || byte == 0x7f
}

/// A text as it stands between quotes. A byte that no quoted text has stands as it is: such a text is shown, and
/// not read again.
#[derive(Clone, Copy)]
pub struct Quoted<'a>(pub &'a Txt);

impl Display for Quoted<'_> {
    ghost output = { λ text. Some (quoted text.0.now) };

    fn fmt<W: Write>(&self, f: &mut Formatter<W>) -> fmt::Result {
        f.write_str("\"")?;
        write_escaped(f, self.0.as_str())?;
        f.write_str("\"")
    }
}

fn write_escaped<W: Write>(f: &mut Formatter<W>, text: &str) -> fmt::Result
    ensures { WritesOnOk W.write_str_gives f.old result (flat_map escaped text.now) f.new }
{
    for c in text.chars() {
        write_char(f, c)?;
    }
    Ok(())
}

#[tactic(auto, using(crate::proofs::QuotedChars::plain_char))]
fn write_char<W: Write>(f: &mut Formatter<W>, c: char) -> fmt::Result
    ensures { WritesOnOk W.write_str_gives f.old result (flat_map escaped (encode_utf8 c)) f.new }
{
    match c {
        '"' => f.write_str("\\\""),
        '\\' => f.write_str("\\\\"),
        _ => f.write_char(c),
    }
}

/// Puts the text at the end, between quotes.
pub fn put_quoted(out: &mut Vec<u8>, t: &Txt) -> Result<(), NoMemory>
    ensures ok { OnOk result (out.new.items ≡ out.old.items ++ quoted t.now) }
    ensures err { OnErr result (out.new.items ≡ out.old.items) }
{
    put_shown(out, &Quoted(t))
}
