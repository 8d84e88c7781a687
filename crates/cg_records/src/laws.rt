ghost use Rattle.cg_base.specs.Sets.{IsSet, IsId};
ghost use Rattle.cg_base.specs.Weights.{IsWeightSet};
ghost use Rattle.cg_codec.specs.Fields.{byte, number64, optional};
ghost use Rattle.cg_codec.specs.Laws.{IsField, IsWhole, IsFrontOfNoOther};
ghost use Rattle.cg_records.specs.Limits.{IsNumber, IsSmallCut, IsPrimary, IsVulnerable, IsMaybeVulnerable, IsYellow, IsStable};
ghost use Rattle.cg_records.specs.Bytes.{spelled_set, spelled_weight_set, spelled_cut, spelled_prim, spelled_vulnerable, spelled_yellow, spelled_stable};
ghost use Rattle.cg_records.specs.Reading.{take_number, take_id_above, take_set, take_weight_set, take_cut, take_prim, take_vulnerable, take_maybe_vulnerable, take_yellow, take_stable};

/// Each record is exactly its spelling: what is spelled is read, whatever follows it, and what is read is spelled so. The
/// clauses say which values a record may have.
pub fn records_are_exact()
    ensures number { IsField IsNumber number64 take_number }
    ensures id { IsField IsId byte (take_id_above 0) }
    ensures set { IsField IsSet spelled_set take_set }
    ensures weight_set { IsField IsWeightSet spelled_weight_set take_weight_set }
    ensures cut { IsField IsSmallCut spelled_cut take_cut }
    ensures prim { IsField IsPrimary spelled_prim take_prim }
    ensures vulnerable { IsField IsVulnerable spelled_vulnerable take_vulnerable }
    ensures maybe_vulnerable { IsField IsMaybeVulnerable (optional spelled_vulnerable) take_maybe_vulnerable }
    ensures yellow { IsField IsYellow spelled_yellow take_yellow }
    ensures stable { IsField IsStable spelled_stable take_stable }
{}

/// The same of bytes that are all of a record: those that spell it are read as it, and no others are.
pub fn all_bytes_are_stable()
    ensures { IsWhole IsStable spelled_stable take_stable }
{}

/// No spelling is the front of another of its kind.
pub fn records_stand_apart()
    ensures set { IsFrontOfNoOther IsSet spelled_set }
    ensures weight_set { IsFrontOfNoOther IsWeightSet spelled_weight_set }
    ensures cut { IsFrontOfNoOther IsSmallCut spelled_cut }
    ensures prim { IsFrontOfNoOther IsPrimary spelled_prim }
    ensures vulnerable { IsFrontOfNoOther IsVulnerable spelled_vulnerable }
    ensures yellow { IsFrontOfNoOther IsYellow spelled_yellow }
    ensures stable { IsFrontOfNoOther IsStable spelled_stable }
{}
