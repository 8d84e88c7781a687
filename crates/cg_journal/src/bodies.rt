//! The bodies of a side's records, where they stand.
ghost use Rattle.std.specs.Prelude.{◌≡◌, ◌+◌, ◌≤◌, length, [], ◌∷◌, ◌++◌, OnOk};
ghost use Rattle.cg_journal.specs.Bodies.{body_at, bodies_at, AreWithin};

use cg_base::NoMemory;
use std::alloc::Global;
use std::marker::Model;

/// Where a body stands among the bytes of its side.
#[derive(Clone, Copy)]
pub(crate) struct Span {
    pub(crate) start: usize,
    pub(crate) size: usize,
}

/// The bodies of a side's records, in the bytes that were read of it: none is copied. Clauses see the list of them.
pub struct Bodies {
    side: Vec<u8>,
    spans: Vec<Span>,
}

impl Drop for Bodies {
    fn drop(self) {
        let Bodies { side: _, spans: _ } = self;
    }
}

impl Model for Bodies {
    ghost use Rattle.std.specs.Prelude.{ℕ, List};
    ghost use Rattle.cg_journal.specs.Bodies.{bodies_at, AreWithin};

    ghost Value = { List (List ℕ) };

    ghost view = { λ b. bodies_at b.side.items b.spans.items };

    ghost invariant = { λ b. AreWithin b.side.items b.spans.items };
}

impl Bodies {
    ghost use Rattle.std.specs.Prelude.{slice_get};
    ghost use Rattle.std.specs.Option.{option_map};

    /// The bodies that stand there.
    pub(crate) fn new(side: Vec<u8>, spans: Vec<Span>) -> Bodies
        requires { AreWithin side.items spans.items }
        ensures { result ≡ bodies_at side.items spans.items }
    {
        Bodies { side, spans }
    }

    /// No bodies.
    pub fn empty(alloc: Global) -> Bodies
        ensures { result ≡ [] }
    {
        Bodies {
            side: Vec::new(alloc),
            spans: Vec::new(alloc),
        }
    }

    /// A body behind the others. After an error there may be any bodies.
    pub fn push(&mut self, body: &[u8]) -> Result<(), NoMemory>
        ensures { OnOk result (self.new ≡ self.old ++ body.now ∷ []) }
    {
        let start = self.side.len();
        self.side.extend_from_slice(body)?;
        self.spans.push(Span {
            start,
            size: body.len(),
        })?;
        Ok(())
    }

    pub fn len(&self) -> usize
        ensures { result ≡ length self.now }
    {
        self.spans.len()
    }

    /// The body at an index, counted from 0.
    pub fn get(&self, i: usize) -> Option<&[u8]>
        ensures { option_map (λ body. body.now) result ≡ slice_get self.now i }
    {
        match self.spans.get(i) {
            Some(span) => Some(body_at(&self.side, *span)),
            None => None,
        }
    }
}

fn body_at(side: &[u8], span: Span) -> &[u8]
    requires { span.start + span.size ≤ length side.now }
    ensures { result.now ≡ body_at side.now span }
{
    &side[span.start..span.start + span.size]
}
