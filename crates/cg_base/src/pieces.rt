ghost use Rattle.std.specs.Prelude.{◌≡◌, ◌∷◌, [], MatchOption};
ghost use Rattle.cg_base.specs.Text.{pieces_of, is_nil};

use std::marker::Model;

/// The pieces of a text between separators. Clauses see those that are left.
#[derive(Drop)]
pub struct Pieces<'a> {
    rest: &'a [u8],
    separator: u8,
    is_done: bool,
}

impl<'a> Model for Pieces<'a> {
    ghost use Rattle.std.specs.Prelude.{ℕ, List, [], if◌then◌else◌};
    ghost use Rattle.cg_base.specs.Text.{pieces_of};

    ghost Value = { List (List ℕ) };

    ghost view = { λ a. if a.is_done then [] else pieces_of a.separator a.rest.now };
}

impl<'a> Pieces<'a> {
    pub fn new(text: &'a [u8], separator: u8) -> Pieces<'a>
        ensures { result ≡ pieces_of separator text.now }
    {
        Pieces {
            rest: text,
            separator,
            is_done: false,
        }
    }

    /// No piece is left.
    pub fn is_empty(&self) -> bool
        ensures { result ≡ is_nil self.now }
    {
        self.is_done
    }

    pub fn next(&mut self) -> Option<&'a [u8]>
        ensures { MatchOption result ((self.old ≡ []) × (self.new ≡ [])) (λ piece. self.old ≡ piece.now ∷ self.new) }
    {
        if self.is_done {
            return None;
        }
        match cut_at(self.rest, self.separator) {
            Some((piece, rest)) => {
                self.rest = rest;
                Some(piece)
            }
            None => {
                self.is_done = true;
                Some(self.rest)
            }
        }
    }
}

/// Cuts the bytes at the first separator. None says that there is none.
pub fn cut_at(bytes: &[u8], separator: u8) -> Option<(&[u8], &[u8])>
    ensures { MatchOption result (pieces_of separator bytes.now ≡ bytes.now ∷ [])
        (λ cut. pieces_of separator bytes.now ≡ cut.0.now ∷ pieces_of separator cut.1.now) }
{
    for (i, b) in bytes.iter().enumerate() {
        if *b == separator {
            return Some((&bytes[..i], &bytes[i + 1..]));
        }
    }
    None
}
