//! Sums, each of one creator and one key.

ghost use Rattle.std.specs.Prelude.{◌≡◌, ℕ, suc, ◌==◌, ◌<◌, ◌≤◌, ◌^◌, ◌*◌, ◌+◌, List, ◌∷◌, [], drop, length, fold, Some, OnOk, IfOk, FitsSigned, ℤ, pos, ◌+ℤ◌, if◌then◌else◌};
ghost use Rattle.std.specs.Int.{w128};
ghost use Rattle.std.specs.Map.{lookup};
ghost use Rattle.indexmap.specs.IndexMap.{spare};
ghost use Rattle.cg_base.specs.Cuts.{index_in};
ghost use Rattle.cg_base.specs.Replicas.{every_replica};
ghost use Rattle.cg_relaxed.specs.declared.sum_key.SumKey.{SumKey as PartOf};
ghost use Rattle.cg_relaxed.specs.RelaxedState.{same_part, sum_at, sum_of_both, knows_less, is_wanted, taken_over, IsWithin};

use crate::sum_key::SumKey;
use cg_base::{Cut, NoMemory, ReplicaId};
use cg_text::Txt;
use indexmap::IndexMap;
use std::alloc::Global;

pub(crate) type Sums = IndexMap<SumKey, i128>;

/// Adds to a sum, where there is room for one more.
pub(crate) fn add_to(sums: &mut Sums, part: SumKey, by: i64)
    requires room { 0 < spare sums.old }
    requires fits { FitsSigned w128 (sum_at sums.old.entries part.key part.creator +ℤ by) }
    ensures added { (key : List ℕ) (p : ℕ) → sum_at sums.new.entries key p ≡
        (if same_part (record { creator = p; key = key }) part then sum_at sums.old.entries key p +ℤ by
        else sum_at sums.old.entries key p) }
    ensures room { spare sums.old ≤ spare sums.new + 1 }
{
    let sum = sum_of(sums, &part) + i128::from(by);
    let _ = sums.insert(part, sum);
}

/// What is added to a key, whoever did.
pub(crate) fn total(sums: &Sums, key: Txt) -> i128
    requires { (p : ℕ) → IsWithin (2 ^ 107) (sum_at sums.now.entries key p) }
    ensures { result ≡ fold (λ n p. n +ℤ sum_at sums.now.entries key p) (pos 0) every_replica }
{
    let mut part = SumKey { creator: 1, key };
    let mut total = 0;
    for creator in 1..33 {
        part.creator = creator;
        total += sum_of(sums, &part);
    }
    total
}

/// What is added to a key in what two know together, whoever did.
pub(crate) fn total_of_both(
    sums: &Sums,
    known: &Cut,
    other_sums: &Sums,
    other_known: &Cut,
    key: Txt,
) -> i128
    requires { (p : ℕ) → IsWithin (2 ^ 107) (sum_of_both sums.now.entries known.now other_sums.now.entries other_known.now key p) }
    ensures { result ≡ fold (λ n p. n +ℤ sum_of_both sums.now.entries known.now other_sums.now.entries other_known.now key p)
        (pos 0) every_replica }
{
    let mut part = SumKey { creator: 1, key };
    let mut total = 0;
    for creator in 1..33 {
        part.creator = creator;
        total += sum_of_both(sums, known, other_sums, other_known, &part);
    }
    total
}

// the sum of the one that knows more of its creator
fn sum_of_both(
    sums: &Sums,
    known: &Cut,
    other_sums: &Sums,
    other_known: &Cut,
    part: &SumKey,
) -> i128
    ensures { result ≡ sum_of_both sums.now.entries known.now other_sums.now.entries other_known.now part.now.key part.now.creator }
{
    if knows_less(known, other_known, part.creator) {
        sum_of(other_sums, part)
    } else {
        sum_of(sums, part)
    }
}

fn sum_of(sums: &Sums, part: &SumKey) -> i128
    ensures { result ≡ sum_at sums.now.entries part.now.key part.now.creator }
{
    match sums.get(part) {
        Some(sum) => *sum,
        None => 0,
    }
}

/// Takes over the sums of the creators of whom the first cut knows less than the other; or, where `less` is false, those
/// of all other creators.
pub(crate) fn take_over(
    alloc: Global,
    from: &Sums,
    known: &Cut,
    other: &Cut,
    less: bool,
    to: &mut Sums,
) -> Result<(), NoMemory>
    ensures { OnOk result ((q : PartOf) → lookup (same_part q) to.new.entries ≡
        taken_over (is_wanted less known.now other.now) from.now.entries to.old.entries q) }
{
    let mut left = from.len();
    while left > 0 {
        left -= 1;
        take_one(alloc, from, left, known, other, less, to)?;
    }
    Ok(())
}

// the sum at an index, before those that stand after it
fn take_one(
    alloc: Global,
    from: &Sums,
    index: usize,
    known: &Cut,
    other: &Cut,
    less: bool,
    to: &mut Sums,
) -> Result<(), NoMemory>
    requires { index < length from.now.entries }
    ensures { OnOk result ((base : List (PartOf × ℤ)) (q : PartOf) →
        lookup (same_part q) to.old.entries ≡
        taken_over (is_wanted less known.now other.now) (drop (index + 1) from.now.entries) base q →
        lookup (same_part q) to.new.entries ≡
        taken_over (is_wanted less known.now other.now) (drop index from.now.entries) base q) }
{
    let Some((part, sum)) = from.get_index(index) else {
        return Ok(());
    };
    if is_wanted(known, other, less, part.creator) {
        let part = part.copy(alloc)?;
        to.insert(part, *sum)?;
    }
    Ok(())
}

fn is_wanted(known: &Cut, other: &Cut, less: bool, creator: u8) -> bool
    ensures { result ≡ is_wanted less known.now other.now creator }
{
    if less {
        knows_less(known, other, creator)
    } else {
        !knows_less(known, other, creator)
    }
}

fn knows_less(known: &Cut, other: &Cut, creator: u8) -> bool
    ensures { result ≡ knows_less known.now other.now creator }
{
    known.holds();
    other.holds();
    match ReplicaId::new(creator) {
        Some(p) => known.get(p) < other.get(p),
        None => false,
    }
}
