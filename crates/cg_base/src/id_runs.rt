ghost use Rattle.std.specs.Prelude.{◌≡◌, ◌≤◌, ◌∷◌, [], ◌++◌, drop, OnOk, OnErr, IfOk};
ghost use Rattle.cg_base.specs.IdRuns.{ids_of, ids_in, goes_on, AreRuns, AreOfReplicas};

use crate::{ActionId, NoMemory, ReplicaId};
use std::alloc::Global;
use std::marker::Model;

/// A creator's names from the first index to the last one.
#[derive(Clone, Copy, PartialEq, Eq)]
pub(crate) struct IdRun {
    pub(crate) creator: ReplicaId,
    pub(crate) first: u64,
    pub(crate) last: u64,
}

/// Names of actions, in order, held as runs: names of one creator that count up. They take the memory of their runs, and
/// are copied, compared and let go in the time of these. Clauses see the list of the names.
#[derive(Drop)]
pub struct IdRuns {
    pub(crate) runs: Vec<IdRun>,
}

impl Model for IdRuns {
    ghost use Rattle.std.specs.Prelude.{List};
    ghost use Rattle.cg_base.specs.declared.action_id.ActionId.{ActionId};
    ghost use Rattle.cg_base.specs.IdRuns.{ids_in, AreRuns};

    ghost Value = { List ActionId };

    ghost view = { λ a. ids_in a.runs.items };

    ghost invariant = { λ a. AreRuns a.runs.items };
}

impl IdRuns {
    ghost use Rattle.std.specs.Prelude.{◌<◌, ◌^◌};
    ghost use Rattle.std.specs.List.{All};
    ghost use Rattle.cg_base.specs.IdRuns.{names_above};
    ghost use Rattle.cg_base.specs.Sets.{IsId};
    ghost use Rattle.cg_base.specs.Text.{is_nil};

    pub fn new(alloc: Global) -> IdRuns
        ensures { result ≡ [] }
    {
        IdRuns {
            runs: Vec::new(alloc),
        }
    }

    pub fn is_empty(&self) -> bool
        ensures { result ≡ is_nil self.now }
    {
        self.runs.as_slice().is_empty()
    }

    /// Puts a name at the end.
    pub fn push(&mut self, id: &ActionId) -> Result<(), NoMemory>
        ensures ok { OnOk result (self.new ≡ self.old ++ id.now ∷ []) }
        ensures err { OnErr result (self.new ≡ self.old) }
    {
        let run = IdRun {
            creator: id.creator,
            first: id.index,
            last: id.index,
        };
        add_run(&mut self.runs, run)
    }

    /// Puts the creator's names above the first index and up to the second at the end, in a time that doesn't depend on
    /// how many they are.
    pub fn push_run(&mut self, creator: ReplicaId, low: u64, high: u64) -> Result<(), NoMemory>
        ensures ok { OnOk result (self.new ≡ self.old ++ names_above low high creator) }
        ensures err { OnErr result (self.new ≡ self.old) }
    {
        if high <= low {
            return Ok(());
        }
        let run = IdRun {
            creator,
            first: low + 1,
            last: high,
        };
        add_run(&mut self.runs, run)
    }

    /// Takes the first name away, if there is one.
    pub fn drop_first(&mut self)
        ensures { self.new ≡ drop 1 self.old }
    {
        drop_name(&mut self.runs);
    }

    pub fn copy(&self, alloc: Global) -> Result<IdRuns, NoMemory>
        ensures { IfOk result (λ ids. ids ≡ self.now) }
    {
        let runs = Vec::from_slice(alloc, self.runs.as_slice())?;
        Ok(IdRuns { runs })
    }

    /// The indexes of the names are within 64 bits: what always holds of a value.
    pub fn indexes_fit(&self)
        ensures { All (λ id. id.index < 2 ^ 64) self.now }
    {
        let _runs = &self.runs;
    }

    /// The names are of replicas: what always holds of a value, too.
    pub fn creators_fit(&self)
        ensures { All (λ id. IsId id.creator) self.now }
    {
        creators_fit(self.runs.as_slice());
    }
}

impl PartialEq for IdRuns {
    ghost use Rattle.cg_base.specs.Ids.{same_id};
    ghost use Rattle.std.specs.Cmp.{partial_equiv_from_equiv, and_equiv, on_equiv, nat_eq_equiv};
    ghost use Rattle.std.specs.Cmp.Lexicographic.{pointwise, lists_equiv};

    ghost eq = { pointwise same_id };

    ghost laws = { partial_equiv_from_equiv
        (lists_equiv (and_equiv (on_equiv (λ a. a.creator) nat_eq_equiv) (on_equiv (λ a. a.index) nat_eq_equiv))) };

    // equal lists have equal runs
    fn eq(&self, other: &IdRuns) -> bool {
        self.runs.as_slice() == other.runs.as_slice()
    }
}

impl Eq for IdRuns {
    ghost use Rattle.std.specs.Cmp.{and_equiv, on_equiv, nat_eq_equiv};
    ghost use Rattle.std.specs.Cmp.Lexicographic.{lists_equiv};

    ghost laws = { lists_equiv (and_equiv (on_equiv (λ a. a.creator) nat_eq_equiv) (on_equiv (λ a. a.index) nat_eq_equiv)) };
}

// the names of a run behind others, in the last of their runs where they go on from it
fn add_run(runs: &mut Vec<IdRun>, run: IdRun) -> Result<(), NoMemory>
    requires runs { AreRuns runs.old.items }
    requires run { run.first ≤ run.last }
    ensures kept { AreRuns runs.new.items }
    ensures ok { OnOk result (ids_in runs.new.items ≡ ids_in runs.old.items ++ ids_of run) }
    ensures err { OnErr result (runs.new.items ≡ runs.old.items) }
{
    let count = runs.len();
    if count > 0 && goes_on(&runs[count - 1], &run) {
        runs[count - 1].last = run.last;
        return Ok(());
    }
    runs.push(run)?;
    Ok(())
}

fn creators_fit(runs: &[IdRun])
    ensures { AreOfReplicas runs.now }
{
    for run in runs {
        run.creator.holds();
    }
}

fn drop_name(runs: &mut Vec<IdRun>)
    requires { AreRuns runs.old.items }
    ensures kept { AreRuns runs.new.items }
    ensures names { ids_in runs.new.items ≡ drop 1 (ids_in runs.old.items) }
{
    if runs.is_empty() {
        return;
    }
    let first = runs[0].first;
    if first < runs[0].last {
        runs[0].first = first + 1;
        return;
    }
    let _ = runs.remove(0);
}

fn goes_on(a: &IdRun, b: &IdRun) -> bool
    ensures { result ≡ goes_on a.now b.now }
{
    a.creator == b.creator && a.last < b.first && b.first - a.last == 1
}
