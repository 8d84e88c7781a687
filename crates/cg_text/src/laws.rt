ghost use Rattle.std.specs.Prelude.{◌≡◌, ◌<◌, ◌≤◌, ◌^◌, ℕ, true, List, [], ◌∷◌, ◌++◌, length, decimal};
ghost use Rattle.std.specs.Fmt.{signed_decimal};
ghost use Rattle.std.specs.Int.{w64};
ghost use Rattle.std.specs.Int.RustNames.{FitsSigned};
ghost use Rattle.std.specs.Str.{IsUtf8};
ghost use Rattle.cg_text.specs.Quoted.{quoted, read_quoted};
ghost use Rattle.cg_text.specs.Printable.{is_printable};
ghost use Rattle.cg_text.specs.Fault.{IsSpelling};
ghost use Rattle.cg_text.specs.Tokens.{ends_word, is_blank, is_separator, is_word, tokens};
ghost use Rattle.cg_text.specs.Numbers.{read_u64, read_i64};

/// Each number has one spelling: what is printed is read, and what is read is printed so.
pub fn numbers_are_exact()
    ensures unsigned { IsSpelling (λ n. n < 2 ^ 64) decimal read_u64 }
    ensures signed { IsSpelling (FitsSigned w64) signed_decimal read_i64 }
{}

/// Each text without control bytes has one spelling between quotes: what is printed is read, and what is
/// read is printed so.
pub fn quoted_texts_are_exact()
    ensures { (max : ℕ) → IsSpelling (λ text. IsUtf8 text × (is_printable text ≡ true) × (length text ≤ max))
        quoted (read_quoted max) }
{}

/// The tokens of a line come as they stand: blanks are passed over, a separator stands by itself, a word
/// goes up to a mark or the end, and a text goes up to its closing quote.
pub fn tokens_are_exact()
    ensures none { tokens [] ≡ [] }
    ensures blank { (byte : ℕ) (rest : List ℕ) → is_blank byte ≡ true → tokens (byte ∷ rest) ≡ tokens rest }
    ensures separator { (byte : ℕ) (rest : List ℕ) → is_separator byte ≡ true →
        tokens (byte ∷ rest) ≡ (byte ∷ []) ∷ tokens rest }
    ensures word { (word rest : List ℕ) → is_word word ≡ true → ends_word rest ≡ true →
        tokens (word ++ rest) ≡ word ∷ tokens rest }
    ensures text { (text rest : List ℕ) → tokens (quoted text ++ rest) ≡ quoted text ∷ tokens rest }
{}
