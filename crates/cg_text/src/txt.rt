//! Texts.

ghost use Rattle.std.specs.Prelude.{◌≡◌, ◌==◌, [], length, IfOk, string_bytes};
ghost use Rattle.std.specs.Str.{IsUtf8};

use cg_base::NoMemory;
use smallvec::SmallVec;
use std::alloc::Global;
use std::cmp::Ordering;
use std::fmt;
use std::fmt::{Debug, Formatter, Write};
use std::hash::{Hash, Hasher};
use std::marker::Model;
use std::str::from_utf8_unchecked;

/// A text in UTF-8. Clauses see its bytes, by which it is compared. One of at most 16 bytes, as most keys are, lies in the value
/// itself and takes no memory.
pub struct Txt {
    bytes: SmallVec<u8, 16>,
}

impl Drop for Txt {
    fn drop(self) {
        let Txt { bytes: _ } = self;
    }
}

impl Model for Txt {
    ghost use Rattle.std.specs.Prelude.{ℕ, List};
    ghost use Rattle.std.specs.Str.{IsUtf8};

    ghost Value = { List ℕ };

    ghost view = { λ t. t.bytes.items };

    ghost invariant = { λ t. IsUtf8 t.bytes.items };
}

impl Txt {
    /// A text without bytes.
    pub fn empty(alloc: Global) -> Txt
        ensures { result ≡ [] }
    {
        Txt {
            bytes: SmallVec::new(alloc),
        }
    }

    /// A copy of the text.
    pub fn new(alloc: Global, t: &str) -> Result<Txt, NoMemory>
        ensures { IfOk result (λ text. text ≡ t.now) }
    {
        let bytes = SmallVec::from_slice(alloc, t.as_bytes())?;
        Ok(Txt { bytes })
    }

    /// The text itself. It takes no memory.
    pub fn from_string(text: String) -> Txt
        ensures { result ≡ string_bytes text }
    {
        Txt {
            bytes: SmallVec::from_vec(text.into_bytes()),
        }
    }

    pub fn copy(&self, alloc: Global) -> Result<Txt, NoMemory>
        ensures { IfOk result (λ text. text ≡ self.now) }
    {
        Txt::new(alloc, self.as_str())
    }

    pub fn as_str(&self) -> &str
        ensures value { result.now ≡ self.now }
        ensures utf8 { IsUtf8 self.now }
    {
        unsafe { from_utf8_unchecked(self.bytes.as_slice()) }
    }

    /// How many bytes the text has.
    pub fn len(&self) -> usize
        ensures { result ≡ length self.now }
    {
        self.as_str().len()
    }

    pub fn is_empty(&self) -> bool
        ensures { result ≡ (length self.now == 0) }
    {
        self.as_str().is_empty()
    }
}

impl PartialEq for Txt {
    ghost use Rattle.cg_text.specs.Order.{same_text};
    ghost use Rattle.std.specs.Cmp.{partial_equiv_from_equiv};
    ghost use Rattle.std.specs.Cmp.Lexicographic.{nat_list_eq_equiv};

    ghost eq = { same_text };

    ghost laws = { partial_equiv_from_equiv nat_list_eq_equiv };

    fn eq(&self, other: &Txt) -> bool {
        self.as_str() == other.as_str()
    }
}

impl Eq for Txt {
    ghost use Rattle.std.specs.Cmp.Lexicographic.{nat_list_eq_equiv};

    ghost laws = { nat_list_eq_equiv };
}

impl PartialOrd for Txt {
    ghost use Rattle.std.specs.Prelude.{Some};
    ghost use Rattle.std.specs.Ordering.{nat_cmp};
    ghost use Rattle.std.specs.Cmp.Lexicographic.{slice_cmp, texts_po};

    ghost partial_cmp = { λ x y. Some (slice_cmp nat_cmp x y) };

    ghost laws = { texts_po };

    fn partial_cmp(&self, other: &Txt) -> Option<Ordering> {
        Some(self.cmp(other))
    }
}

impl Ord for Txt {
    ghost use Rattle.std.specs.Prelude.{refl};
    ghost use Rattle.std.specs.Ordering.{nat_cmp};
    ghost use Rattle.std.specs.Cmp.Lexicographic.{slice_cmp, nat_list_cmp_total, texts_ties};

    ghost cmp = { slice_cmp nat_cmp };

    ghost total = { nat_list_cmp_total };

    ghost matches_partial_cmp = { λ x y. refl };

    ghost matches_eq = { texts_ties };

    fn cmp(&self, other: &Txt) -> Ordering {
        self.as_str().cmp(other.as_str())
    }
}

impl Hash for Txt {
    ghost use Rattle.std.specs.Hash as fed;
    ghost use Rattle.std.proofs.Common.{ap};
    ghost use Rattle.std.specs.Cmp.Lexicographic.{bytes_decides};

    ghost hash_input = { λ t. fed.str t };

    ghost respects_eq = { λ x y h. ap fed.str ((bytes_decides x y).0 h) };

    fn hash<H: Hasher>(&self, state: &mut H) {
        self.as_str().hash(state);
    }
}

impl Debug for Txt {
    fn fmt<W: Write>(&self, f: &mut Formatter<W>) -> fmt::Result {
        Debug::fmt(self.as_str(), f)
    }
}
