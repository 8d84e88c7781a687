ghost use Rattle.std.specs.Prelude.{◌≡◌, [], IfOk};
ghost use Rattle.cg_action.specs.ActionLimits.{IsAction};
ghost use Rattle.cg_db.specs.Apply.{apply};
ghost use Rattle.cg_db.specs.Find.{answer};
ghost use Rattle.cg_db.specs.Limits.{AreEntries};
ghost use Rattle.cg_db.specs.Ascending.{Ascends};

use cg_action::{Action, Answer, Effect, EntryList, Query};
use cg_base::NoMemory;
use cg_db::{Db, entries_stay_within_limits};
use std::alloc::Global;
use std::marker::Model;

/// A database whose entries are those of actions. Clauses see them, ascending by key.
pub(crate) struct Entries {
    db: Db,
}

impl Drop for Entries {
    fn drop(self) {
        let Entries { db: _ } = self;
    }
}

impl Model for Entries {
    ghost use Rattle.std.specs.Prelude.{List};
    ghost use Rattle.cg_action.specs.declared.entry.DbEntry.{DbEntry};
    ghost use Rattle.cg_db.specs.Limits.{AreEntries};

    ghost Value = { List DbEntry };

    ghost view = { λ e. e.db };

    ghost invariant = { λ e. AreEntries e.db };
}

impl Entries {
    pub(crate) fn new(alloc: Global) -> Entries
        ensures { result ≡ [] }
    {
        Entries { db: Db::new(alloc) }
    }

    pub(crate) fn of(db: Db) -> Entries
        requires { AreEntries db }
        ensures { result ≡ db }
    {
        Entries { db }
    }

    pub(crate) fn apply(&mut self, a: &Action) -> Result<Effect, NoMemory>
        requires { IsAction a.now }
        ensures { IfOk result (λ effect. apply self.old a.now ≡ record { db = self.new; effect = effect }) }
    {
        entries_stay_within_limits();
        self.db.apply(a)
    }

    pub(crate) fn answer(&self, q: &Query) -> Result<Answer, NoMemory>
        ensures { IfOk result (λ found. found ≡ answer self.now q.now) }
    {
        self.db.answer(q)
    }

    pub(crate) fn db(&self) -> &Db
        ensures value { result.now ≡ self.now }
        ensures limits { AreEntries self.now }
    {
        &self.db
    }

    /// What always holds of the entries.
    pub(crate) fn holds(&self)
        ensures limits { AreEntries self.now }
        ensures ascends { Ascends self.now }
    {
        self.db.holds();
    }

    pub(crate) fn list(&self) -> Result<EntryList, NoMemory>
        ensures value { IfOk result (λ list. list ≡ self.now) }
        ensures ascends { IfOk result Ascends }
        ensures limits { AreEntries self.now }
    {
        self.db.entries()
    }
}
