//! The values as text.

ghost use Rattle.std.specs.Prelude.{Some, ◌∷◌, decimal};
ghost use Rattle.std.specs.Fmt.{WritesOnOk};
ghost use Rattle.std.specs.List.{flat_map};
ghost use Rattle.cg_base.specs.IdRuns.{ids_of, names_above};
ghost use Rattle.cg_base.specs.Text.{id_text, id_list_text, set_text, weighted_text, weight_set_text, with_commas};

use crate::id_runs::IdRun;
use crate::{ActionId, IdList, IdRuns, IdSet, ReplicaId, WeightSet, Weighted};
use std::fmt;
use std::fmt::{Display, Formatter, Write};

/// The number.
impl Display for ReplicaId {
    ghost output = { λ id. Some (decimal id) };

    fn fmt<W: Write>(&self, f: &mut Formatter<W>) -> fmt::Result {
        write!(f, "{}", self.get())
    }
}

/// As `1:4`.
impl Display for ActionId {
    ghost output = { λ id. Some (id_text id) };

    fn fmt<W: Write>(&self, f: &mut Formatter<W>) -> fmt::Result {
        write!(f, "{}:{}", self.creator, self.index)
    }
}

/// As `[1:1,2:1]`.
impl Display for IdList {
    ghost output = { λ ids. Some (id_list_text ids) };

    fn fmt<W: Write>(&self, f: &mut Formatter<W>) -> fmt::Result {
        f.write_str("[")?;
        write_names(f, self.as_slice())?;
        f.write_str("]")
    }
}

fn write_names<W: Write>(f: &mut Formatter<W>, ids: &[ActionId]) -> fmt::Result
    ensures { WritesOnOk W.write_str_gives f.old result (with_commas id_text ids.now) f.new }
{
    let Some((first, others)) = ids.split_first() else {
        return Ok(());
    };
    write!(f, "{first}")?;
    for id in others {
        write!(f, ",{id}")?;
    }
    Ok(())
}

/// As `[1:1,2:1]`.
impl Display for IdRuns {
    ghost output = { λ ids. Some (id_list_text ids) };

    fn fmt<W: Write>(&self, f: &mut Formatter<W>) -> fmt::Result {
        f.write_str("[")?;
        write_runs(f, self.runs.as_slice())?;
        f.write_str("]")
    }
}

fn write_runs<W: Write>(f: &mut Formatter<W>, runs: &[IdRun]) -> fmt::Result
    ensures { WritesOnOk W.write_str_gives f.old
        result (with_commas (λ run. with_commas id_text (ids_of run)) runs.now) f.new }
{
    let Some((first, others)) = runs.split_first() else {
        return Ok(());
    };
    write!(f, "{first}")?;
    for run in others {
        write!(f, ",{run}")?;
    }
    Ok(())
}

// its names
impl Display for IdRun {
    ghost output = { λ run. Some (with_commas id_text (ids_of run)) };

    fn fmt<W: Write>(&self, f: &mut Formatter<W>) -> fmt::Result {
        let name = ActionId {
            creator: self.creator,
            index: self.first,
        };
        write!(f, "{name}")?;
        write_above(f, self.creator, self.first, self.last)
    }
}

// the creator's names above the first index and up to the last one
fn write_above<W: Write>(
    f: &mut Formatter<W>,
    creator: ReplicaId,
    first: u64,
    last: u64,
) -> fmt::Result
    ensures { WritesOnOk W.write_str_gives f.old
        result (flat_map (λ y. 44 ∷ id_text y) (names_above first last creator)) f.new }
{
    for before in first..last {
        let index = before + 1;
        write!(f, ",{}", ActionId { creator, index })?;
    }
    Ok(())
}

/// As `{1,2}`.
impl Display for IdSet {
    ghost output = { λ set. Some (set_text set) };

    fn fmt<W: Write>(&self, f: &mut Formatter<W>) -> fmt::Result {
        f.write_str("{")?;
        write_members(f, self)?;
        f.write_str("}")
    }
}

fn write_members<W: Write>(f: &mut Formatter<W>, set: &IdSet) -> fmt::Result
    ensures { WritesOnOk W.write_str_gives f.old result (with_commas decimal set.now) f.new }
{
    let mut ids = set.iter();
    let Some(first) = ids.next() else {
        return Ok(());
    };
    write!(f, "{first}")?;
    for id in ids {
        write!(f, ",{id}")?;
    }
    Ok(())
}

/// As `1*3`, and as `1` where the weight is 1.
impl Display for Weighted {
    ghost output = { λ m. Some (weighted_text m.id m.weight) };

    fn fmt<W: Write>(&self, f: &mut Formatter<W>) -> fmt::Result {
        if self.weight == 1 {
            return write!(f, "{}", self.id);
        }
        write!(f, "{}*{}", self.id, self.weight)
    }
}

/// As `{1*3,2}`.
impl Display for WeightSet {
    ghost output = { λ set. Some (weight_set_text set) };

    fn fmt<W: Write>(&self, f: &mut Formatter<W>) -> fmt::Result {
        f.write_str("{")?;
        write_weights(f, self)?;
        f.write_str("}")
    }
}

fn write_weights<W: Write>(f: &mut Formatter<W>, set: &WeightSet) -> fmt::Result
    ensures { WritesOnOk W.write_str_gives f.old result (with_commas (λ m. weighted_text m.id m.weight) set.now) f.new }
{
    let mut members = set.iter();
    let Some(first) = members.next() else {
        return Ok(());
    };
    write!(f, "{first}")?;
    for m in members {
        write!(f, ",{m}")?;
    }
    Ok(())
}
