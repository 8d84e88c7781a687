ghost use Rattle.std.specs.Prelude.{◌≡◌, suc, ◌<◌, ◌^◌, IfOk, OnOk, OnErr};
ghost use Rattle.cg_base.specs.Cuts.{index_in};
ghost use Rattle.cg_action.specs.ActionLimits.{IsAction};
ghost use Rattle.cg_relaxed.specs.RelaxedState.{seen};
ghost use Rattle.cg_relaxed.specs.Relaxed.{nothing_known, with_action, joined, cell_in};

use crate::Cell;
use crate::registers::{Registers, merge};
use crate::run::{copy_all, counted, first_stamp, run_each};
use crate::sums::{Sums, take_over, total, total_of_both};
use crate::write::{later, value_in};
use cg_action::Action;
use cg_base::{Cut, NoMemory};
use cg_text::Txt;
use indexmap::IndexMap;
use std::alloc::Global;
use std::marker::Model;

/// The relaxed database of some known actions. Clauses see what it keeps, and its calls speak of what is `seen` of that.
#[derive(Drop)]
pub struct Relaxed {
    known: Cut,
    sums: Sums,
    registers: Registers,
    alloc: Global,
}

impl Model for Relaxed {
    ghost use Rattle.cg_relaxed.specs.RelaxedState.{RelaxedState, AreSmall};

    ghost Value = { RelaxedState };

    ghost view = { λ r. record { known = r.known; sums = r.sums.entries; writes = r.registers.entries } };

    ghost invariant = { λ r. AreSmall r.known r.sums.entries };
}

impl Relaxed {
    /// The database of no actions.
    pub fn new(alloc: Global) -> Relaxed
        ensures { seen result ≡ nothing_known }
    {
        Relaxed {
            known: Cut::zero(),
            sums: IndexMap::new(alloc),
            registers: IndexMap::new(alloc),
            alloc,
        }
    }

    /// Takes an action in: the next one of its creator. Where memory is refused nothing is changed.
    pub fn add(&mut self, a: &Action) -> Result<(), NoMemory>
        requires next { a.now.id.index ≡ suc (index_in self.old.known a.now.id.creator) }
        requires small { a.now.id.index < 2 ^ 40 }
        requires action { IsAction a.now }
        ensures ok { OnOk result (seen self.new ≡ with_action (seen self.old) a.now) }
        ensures err { OnErr result (self.new ≡ self.old) }
    {
        let cmds = copy_all(self.alloc, counted(a.kind.get()))?;
        self.sums.reserve(cmds.len())?;
        self.registers.reserve(cmds.len())?;
        self.known.holds();
        run_each(&mut self.sums, &mut self.registers, first_stamp(a), cmds);
        self.known.raise(a.id.creator, a.id.index);
        Ok(())
    }

    /// How far each creator's actions are known.
    pub fn known(&self) -> Cut
        ensures { result ≡ self.now.known }
    {
        self.known
    }

    /// What the two know together.
    pub fn join(&self, o: &Relaxed) -> Result<Relaxed, NoMemory>
        ensures { IfOk result (λ r. seen r ≡ joined (seen self.now) (seen o.now)) }
    {
        self.known.holds();
        o.known.holds();
        let mut sums = IndexMap::new(self.alloc);
        take_over(
            self.alloc,
            &self.sums,
            &self.known,
            &o.known,
            false,
            &mut sums,
        )?;
        take_over(self.alloc, &o.sums, &self.known, &o.known, true, &mut sums)?;
        let none = IndexMap::new(self.alloc);
        let mut registers = IndexMap::new(self.alloc);
        merge(self.alloc, &self.registers, &none, &mut registers)?;
        merge(self.alloc, &o.registers, &self.registers, &mut registers)?;
        Ok(Relaxed {
            known: self.known.greatest(&o.known),
            sums,
            registers,
            alloc: self.alloc,
        })
    }

    /// What stands at a key.
    pub fn read(&self, key: &Txt) -> Result<Cell, NoMemory>
        ensures { IfOk result (λ cell. cell ≡ cell_in (seen self.now) key.now) }
    {
        let value = value_in(self.alloc, self.registers.get(key))?;
        let sum = total(&self.sums, key.copy(self.alloc)?);
        Ok(Cell { value, sum })
    }

    /// What stands at a key in what the two know together, without making that value.
    pub fn read_joined(&self, other: &Relaxed, key: &Txt) -> Result<Cell, NoMemory>
        ensures { IfOk result (λ cell. cell ≡ cell_in (joined (seen self.now) (seen other.now)) key.now) }
    {
        let last = later(self.registers.get(key), other.registers.get(key));
        let value = value_in(self.alloc, last)?;
        let sum = total_of_both(
            &self.sums,
            &self.known,
            &other.sums,
            &other.known,
            key.copy(self.alloc)?,
        );
        Ok(Cell { value, sum })
    }
}
