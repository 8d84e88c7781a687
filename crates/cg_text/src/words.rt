//! The tokens of a line.

ghost use Rattle.std.specs.Prelude.{◌≡◌, ◌∷◌, [], ◌≤◌, ◌<◌, length, take, drop, slice_index, MatchOption, false};
ghost use Rattle.cg_text.specs.Tokens.{is_blank, is_separator, is_mark, is_passed_over, tokens, tokens_from, InWord, InText};

use crate::quoted::{ends_text, escapes};
use std::marker::Model;

/// A reader of the tokens of a line, each as its bytes stand there: a bare word, `;`, `?`, or a text
/// with its quotes, which lacks the last one where the line ends in it. Clauses see the tokens left.
#[derive(Drop)]
pub struct Words<'a> {
    rest: &'a [u8],
}

impl<'a> Model for Words<'a> {
    ghost use Rattle.std.specs.Prelude.{ℕ, List};
    ghost use Rattle.cg_text.specs.Tokens.{tokens};

    ghost Value = { List (List ℕ) };

    ghost view = { λ w. tokens w.rest.now };
}

impl<'a> Words<'a> {
    /// The tokens of the line.
    pub fn new(line: &'a [u8]) -> Words<'a>
        ensures { result ≡ tokens line.now }
    {
        Words { rest: line }
    }

    /// The next token, or None at the end.
    pub fn next(&mut self) -> Option<&'a [u8]>
        ensures { MatchOption result ((self.old ≡ []) × (self.new ≡ [])) (λ token. self.old ≡ token.now ∷ self.new) }
    {
        match first_token(self.rest) {
            Some((token, rest)) => {
                self.rest = rest;
                Some(token)
            }
            None => None,
        }
    }
}

/// Says that the line holds blanks alone, or a `#` comes first past the blanks.
pub fn is_passed_over(line: &[u8]) -> bool
    ensures { result ≡ is_passed_over line.now }
{
    for byte in line {
        if !is_blank(*byte) {
            return *byte == b'#';
        }
    }
    true
}

// the first token, and what stands behind it
fn first_token(line: &[u8]) -> Option<(&[u8], &[u8])>
    ensures { MatchOption result (tokens line.now ≡ []) (λ parts. tokens line.now ≡ parts.0.now ∷ tokens parts.1.now) }
{
    for (i, byte) in line.iter().enumerate() {
        if !is_blank(*byte) {
            let line = &line[i..];
            return Some(line.split_at(token_len(line)));
        }
    }
    None
}

// how many bytes the token has that the line begins with
fn token_len(line: &[u8]) -> usize
    requires some { 0 < length line.now }
    requires token { is_blank (slice_index line.now 0) ≡ false }
    ensures within { result ≤ length line.now }
    ensures token { tokens line.now ≡ take result line.now ∷ tokens (drop result line.now) }
{
    if is_separator(line[0]) {
        1
    } else if line[0] == b'"' {
        text_len(line)
    } else {
        word_len(line)
    }
}

fn word_len(line: &[u8]) -> usize
    ensures within { result ≤ length line.now }
    ensures word { tokens_from (InWord []) line.now ≡ take result line.now ∷ tokens (drop result line.now) }
{
    for (i, byte) in line.iter().enumerate() {
        if is_mark(*byte) {
            return i;
        }
    }
    line.len()
}

// how many bytes a text has whose quote the line begins with
fn text_len(line: &[u8]) -> usize
    requires some { 0 < length line.now }
    ensures within { result ≤ length line.now }
    ensures text { tokens_from (InText (take 1 line.now) false) (drop 1 line.now) ≡
        take result line.now ∷ tokens (drop result line.now) }
{
    let mut is_escaped = false;
    for i in 1..line.len() {
        if ends_text(is_escaped, line[i]) {
            return i + 1;
        }
        is_escaped = escapes(is_escaped, line[i]);
    }
    line.len()
}

fn is_blank(byte: u8) -> bool
    ensures { result ≡ is_blank byte }
{
    byte == b' ' || byte == b'\t'
}

fn is_separator(byte: u8) -> bool
    ensures { result ≡ is_separator byte }
{
    byte == b';' || byte == b'?'
}

fn is_mark(byte: u8) -> bool
    ensures { result ≡ is_mark byte }
{
    is_blank(byte) || is_separator(byte) || byte == b'"'
}
