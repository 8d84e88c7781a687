//! Plain values, as a line shows them.

ghost use Rattle.std.specs.Prelude.{◌≡◌, ◌++◌, OnOk, decimal};
ghost use Rattle.cg_base.specs.Text.{id_text, id_list_text, set_text, weighted_text, weight_set_text, with_commas};

use crate::page::{HasFront, Page};
use cg_base::{ActionId, IdRuns, IdSet, NoMemory, ReplicaId, WeightSet, Weighted};

pub(crate) fn put_replica<F: HasFront>(out: &mut Page<F>, id: ReplicaId) -> Result<(), NoMemory>
    ensures { OnOk result (out.new ≡ out.old ++ decimal id) }
{
    out.put_number(u64::from(id.get()))
}

/// As `1:4`.
pub(crate) fn put_name<F: HasFront>(out: &mut Page<F>, id: &ActionId) -> Result<(), NoMemory>
    ensures { OnOk result (out.new ≡ out.old ++ id_text id.now) }
{
    put_replica(out, id.creator)?;
    out.put_byte(b':')?;
    out.put_number(id.index)
}

/// As `[1:1,2:1]`.
pub(crate) fn put_names<F: HasFront>(out: &mut Page<F>, ids: &[ActionId]) -> Result<(), NoMemory>
    ensures { OnOk result (out.new ≡ out.old ++ id_list_text ids.now) }
{
    out.put_byte(b'[')?;
    put_each_name(out, ids)?;
    out.put_byte(b']')
}

fn put_each_name<F: HasFront>(out: &mut Page<F>, ids: &[ActionId]) -> Result<(), NoMemory>
    ensures { OnOk result (out.new ≡ out.old ++ with_commas id_text ids.now) }
{
    let Some((first, others)) = ids.split_first() else {
        return Ok(());
    };
    put_name(out, first)?;
    for id in others {
        out.put_byte(b',')?;
        put_name(out, id)?;
    }
    Ok(())
}

/// As `[1:1,2:1]`.
pub(crate) fn put_runs<F: HasFront>(out: &mut Page<F>, ids: &IdRuns) -> Result<(), NoMemory>
    ensures { OnOk result (out.new ≡ out.old ++ id_list_text ids.now) }
{
    if ids.is_empty() {
        return out.put(b"[]");
    }
    out.put_shown(ids)
}

/// As `{1,2}`.
pub(crate) fn put_set<F: HasFront>(out: &mut Page<F>, set: &IdSet) -> Result<(), NoMemory>
    ensures { OnOk result (out.new ≡ out.old ++ set_text set.now) }
{
    out.put_byte(b'{')?;
    put_members(out, set)?;
    out.put_byte(b'}')
}

fn put_members<F: HasFront>(out: &mut Page<F>, set: &IdSet) -> Result<(), NoMemory>
    ensures { OnOk result (out.new ≡ out.old ++ with_commas decimal set.now) }
{
    let mut ids = set.iter();
    let Some(first) = ids.next() else {
        return Ok(());
    };
    put_replica(out, first)?;
    for id in ids {
        out.put_byte(b',')?;
        put_replica(out, id)?;
    }
    Ok(())
}

/// As `{1*3,2}`.
pub(crate) fn put_weights<F: HasFront>(out: &mut Page<F>, set: &WeightSet) -> Result<(), NoMemory>
    ensures { OnOk result (out.new ≡ out.old ++ weight_set_text set.now) }
{
    out.put_byte(b'{')?;
    put_each_weight(out, set)?;
    out.put_byte(b'}')
}

fn put_each_weight<F: HasFront>(out: &mut Page<F>, set: &WeightSet) -> Result<(), NoMemory>
    ensures { OnOk result (out.new ≡ out.old ++ with_commas (λ m. weighted_text m.id m.weight) set.now) }
{
    let mut members = set.iter();
    let Some(first) = members.next() else {
        return Ok(());
    };
    put_weighted(out, &first)?;
    for m in members {
        out.put_byte(b',')?;
        put_weighted(out, &m)?;
    }
    Ok(())
}

// as `1*3`, and as `1` where the weight is 1
fn put_weighted<F: HasFront>(out: &mut Page<F>, m: &Weighted) -> Result<(), NoMemory>
    ensures { OnOk result (out.new ≡ out.old ++ weighted_text m.now.id m.now.weight) }
{
    put_replica(out, m.id)?;
    if m.weight == 1 {
        return Ok(());
    }
    out.put_byte(b'*')?;
    out.put_number(u64::from(m.weight))
}
