ghost use Rattle.std.specs.Prelude.{◌<◌, ◌≤◌, ◌^◌, ℕ, Bool, List, [], length};
ghost use Rattle.std.specs.Int.RustNames.{FitsSigned};
ghost use Rattle.std.specs.Int.{w64};
ghost use Rattle.std.specs.Str.{IsUtf8};
ghost use Rattle.cg_codec.specs.Fields.{byte, number32, number64, signed64, truth, text, optional, list};
ghost use Rattle.cg_codec.specs.Reading.{take_u8, take_u32, take_u64, take_i64, take_truth, take_count, take_text, take_optional, take_list};
ghost use Rattle.cg_codec.specs.Laws.{IsField, IsWhole, HasOptional, EachBehind};

/// Each field is exactly its spelling: what is spelled is read, whatever follows it, and what is read
/// is spelled so. The clauses say which values the field has.
pub fn fields_are_exact()
    ensures u8 { IsField (λ n. n < 256) byte take_u8 }
    ensures u32 { IsField (λ n. n < 2 ^ 32) number32 take_u32 }
    ensures u64 { IsField (λ n. n < 2 ^ 64) number64 take_u64 }
    ensures i64 { IsField (FitsSigned w64) signed64 take_i64 }
    ensures truth { IsField (λ (b : Bool). Unit {0}) truth take_truth }
    ensures count { (max : ℕ) → max < 2 ^ 32 → IsField (λ n. n ≤ max) number32 (take_count max) }
    ensures text { (max : ℕ) → max < 2 ^ 32 → IsField (λ t. IsUtf8 t × (length t ≤ max)) text (take_text max) }
{}

/// Values that may be absent, lists of values, and all of the bytes are fields where the values are:
/// here, of numbers.
pub fn fields_compose()
    ensures optional { IsField (HasOptional (λ n. n < 2 ^ 64)) (optional number64) (take_optional take_u64) }
    ensures list { (max : ℕ) → max < 2 ^ 32 →
        IsField (λ (ns : List ℕ). (length ns ≤ max)
        × EachBehind (λ _ n. n < 2 ^ 64) [] ns) (list number64) (take_list max (λ _. take_u64)) }
    ensures whole { IsWhole (λ n. n < 2 ^ 64) number64 take_u64 }
{}
