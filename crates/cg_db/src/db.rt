ghost use Rattle.std.specs.Prelude.{◌≡◌, ℕ, List, ◌≤◌, ◌<◌, ◌+◌, ◌++◌, [], ◌∷◌, length, drop, filter, All, Some, IfOk, OnOk, OnErr};
ghost use Rattle.std.specs.Option.{option_copied};
ghost use Rattle.indexmap.specs.IndexMap.{spare};
ghost use Rattle.cg_text.specs.Order.{begins_with};
ghost use Rattle.cg_db.specs.Find.{answer_of};
ghost use Rattle.cg_db.specs.Map.{put, value_of};
ghost use Rattle.cg_db.specs.Ascending.{Ascends};
ghost use Rattle.cg_db.specs.Apply.{Changed, run_commands};
ghost use Rattle.cg_db.specs.View.{of_entries, entry_at};
ghost use Rattle.cg_db.specs.Plan.{listed, changed, with_changes};
ghost use Rattle.cg_action.specs.declared.entry.DbEntry.{DbEntry};
ghost use Rattle.cg_action.specs.declared.command.Cmd.TheVariants.{Put, Inc};
ghost use Rattle.cg_action.specs.ActionLimits.{IsAction, IsCommand};

use crate::changes::{Changes, KeyChange};
use crate::plan::plan;
use cg_action::{Action, Answer, Cmd, DbEntry, Effect, EntryList, Kind, Query, TxtList, Value};
use cg_base::{NoMemory, Row};
use cg_text::Txt;
use indexmap::IndexMap;
use std::alloc::Global;
use std::marker::Model;

type Map = IndexMap<Txt, Value>;

/// A database. Clauses see its entries, ascending by key.
pub struct Db {
    map: Map,
    alloc: Global,
}

impl Drop for Db {
    fn drop(self) {
        let Db { map: _, alloc: _ } = self;
    }
}

impl Model for Db {
    ghost use Rattle.std.specs.Prelude.{List};
    ghost use Rattle.cg_action.specs.declared.entry.DbEntry.{DbEntry};
    ghost use Rattle.cg_db.specs.View.{of_entries};

    ghost Value = { List DbEntry };

    ghost view = { λ db. of_entries db.map.entries };
}

impl Db {
    ghost use Rattle.cg_db.specs.Map.{value_of, keys, put};
    ghost use Rattle.cg_db.specs.Ascending.{Ascends};
    ghost use Rattle.cg_db.specs.Apply.{Changed, apply, run_commands};
    ghost use Rattle.cg_db.specs.Find.{answer, keys_from};

    /// A database without entries.
    pub fn new(alloc: Global) -> Db
        ensures { result ≡ [] }
    {
        Db {
            map: IndexMap::new(alloc),
            alloc,
        }
    }

    /// Applies an action. Where one of its commands fails, or memory is refused, nothing is changed.
    pub fn apply(&mut self, a: &Action) -> Result<Effect, NoMemory>
        requires { IsAction a.now }
        ensures ok { IfOk result (λ effect. apply self.old a.now ≡ record { db = self.new; effect = effect }) }
        ensures err { OnErr result (self.new ≡ self.old) }
    {
        match a.kind.get() {
            Kind::Update { cmds, .. } => self.run(cmds.as_slice()),
            Kind::Join(..) => Ok(Effect::Done),
            Kind::Leave(_) => Ok(Effect::Done),
        }
    }

    fn run(&mut self, cmds: &[Cmd]) -> Result<Effect, NoMemory>
        requires few { length cmds.now ≤ 16 }
        requires each { All IsCommand cmds.now }
        ensures ok { IfOk result (λ effect. run_commands self.old 0 cmds.now (Changed self.old) ≡
            record { db = self.new; effect = effect }) }
        ensures err { OnErr result (self.new ≡ self.old) }
    {
        match cmds {
            [Cmd::Put { key, value }] => put_alone(self.alloc, &mut self.map, key, value),
            [Cmd::Inc { key, by }] => add_alone(self.alloc, &mut self.map, key, *by),
            _ => self.run_planned(cmds),
        }
    }

    fn run_planned(&mut self, cmds: &[Cmd]) -> Result<Effect, NoMemory>
        requires few { length cmds.now ≤ 16 }
        requires each { All IsCommand cmds.now }
        ensures ok { IfOk result (λ effect. run_commands self.old 0 cmds.now (Changed self.old) ≡
            record { db = self.new; effect = effect }) }
        ensures err { OnErr result (self.new ≡ self.old) }
    {
        let mut changes = Changes::new(self.alloc);
        let effect = plan(self, &mut changes, cmds)?;
        match effect {
            Effect::Done => {
                write(&mut self.map, changes)?;
                Ok(Effect::Done)
            }
            Effect::Aborted(number) => Ok(Effect::Aborted(number)),
            Effect::Range(number) => Ok(Effect::Range(number)),
        }
    }

    /// What a query finds.
    pub fn answer(&self, q: &Query) -> Result<Answer, NoMemory>
        ensures { IfOk result (λ found. found ≡ answer self.now q.now) }
    {
        match q {
            Query::Get(key) => match self.value(key) {
                None => Ok(Answer::Absent),
                Some(value) => answer_of(self.alloc, value),
            },
            Query::Keys(prefix) => {
                let keys = self.keys_from(prefix.as_str())?;
                Ok(Answer::Keys(Row::from_vec(keys)))
            }
            Query::Count => Ok(Answer::Count(self.count())),
        }
    }

    /// The entries, ascending by key.
    pub fn entries(&self) -> Result<EntryList, NoMemory>
        ensures value { IfOk result (λ entries. entries ≡ self.now) }
        ensures ascends { IfOk result Ascends }
    {
        let mut entries = Row::new(self.alloc);
        for key in self.keys_from("")? {
            self.push_entry(&mut entries, key)?;
        }
        Ok(entries)
    }

    /// Another database with the same entries.
    pub fn copy(&self) -> Result<Db, NoMemory>
        ensures { IfOk result (λ copy. copy ≡ self.now) }
    {
        let mut map = IndexMap::new(self.alloc);
        let mut left = self.map.len();
        while left > 0 {
            left -= 1;
            copy_entry(self.alloc, &self.map, left, &mut map)?;
        }
        Ok(Db {
            map,
            alloc: self.alloc,
        })
    }

    /// The keys, ascending.
    pub fn keys(&self) -> Result<TxtList, NoMemory>
        ensures { IfOk result (λ found. found ≡ keys self.now) }
    {
        let found = self.keys_from("")?;
        Ok(Row::from_vec(found))
    }

    /// Sets a key to a value. Where memory is refused nothing is changed.
    pub fn put(&mut self, key: Txt, value: Value) -> Result<(), NoMemory>
        ensures ok { OnOk result (self.new ≡ put self.old key value) }
        ensures err { OnErr result (self.new ≡ self.old) }
    {
        put_entry(&mut self.map, key, value)
    }

    // the key with its value, if it is there
    fn push_entry(&self, entries: &mut EntryList, key: Txt) -> Result<(), NoMemory>
        ensures { OnOk result (entries.new ≡ entries.old ++ entry_at key (value_of self.now key)) }
    {
        let Some(value) = self.value(&key) else {
            return Ok(());
        };
        let value = value.copy(self.alloc)?;
        entries.push(DbEntry { key, value })
    }

    // the keys that begin with the prefix, ascending
    fn keys_from(&self, prefix: &str) -> Result<Vec<Txt>, NoMemory>
        ensures { IfOk result (λ found. found.items ≡ keys_from self.now prefix.now) }
    {
        let mut found = Vec::new(self.alloc);
        for key in self.map.keys() {
            push_if(self.alloc, &mut found, key, prefix)?;
        }
        found.sort()?;
        Ok(found)
    }

    /// The number of entries.
    pub fn count(&self) -> u64
        ensures { result ≡ length self.now }
    {
        self.map.len() as u64
    }

    /// What always holds of a database.
    pub fn holds(&self)
        ensures { Ascends self.now }
    {
        let _ = &self.map;
    }

    pub(crate) fn alloc(&self) -> Global {
        self.alloc
    }

    /// The value of a key, if it is there.
    pub fn value(&self, key: &Txt) -> Option<&Value>
        ensures { option_copied result ≡ value_of self.now key.now }
    {
        self.map.get(key)
    }
}

fn answer_of(alloc: Global, value: &Value) -> Result<Answer, NoMemory>
    ensures { IfOk result (λ found. found ≡ answer_of (Some value.now)) }
{
    match value {
        Value::Text(text) => Ok(Answer::Text(text.copy(alloc)?)),
        Value::Int(number) => Ok(Answer::Int(*number)),
    }
}

// the key, if it begins with the prefix
fn push_if(alloc: Global, found: &mut Vec<Txt>, key: &Txt, prefix: &str) -> Result<(), NoMemory>
    ensures { OnOk result (found.new.items ≡ found.old.items ++ filter (λ k. begins_with k prefix.now) (key.now ∷ [])) }
{
    if !key.as_str().as_bytes().starts_with(prefix.as_bytes()) {
        return Ok(());
    }
    let key = key.copy(alloc)?;
    found.push(key)?;
    Ok(())
}

fn put_entry(map: &mut Map, key: Txt, value: Value) -> Result<(), NoMemory>
    ensures ok { OnOk result (of_entries map.new.entries ≡ put (of_entries map.old.entries) key value) }
    ensures err { OnErr result (of_entries map.new.entries ≡ of_entries map.old.entries) }
{
    map.insert(key, value)?;
    Ok(())
}

// a put that is an action's only command
fn put_alone(alloc: Global, map: &mut Map, key: &Txt, value: &Value) -> Result<Effect, NoMemory>
    ensures ok { IfOk result (λ effect. run_commands (of_entries map.old.entries)
        0 (Put key.now value.now ∷ []) (Changed (of_entries map.old.entries)) ≡
        record { db = of_entries map.new.entries; effect = effect }) }
    ensures err { OnErr result (of_entries map.new.entries ≡ of_entries map.old.entries) }
{
    let value = value.copy(alloc)?;
    if let Some(place) = map.get_mut(key) {
        *place = value;
        return Ok(Effect::Done);
    }
    let key = key.copy(alloc)?;
    put_entry(map, key, value)?;
    Ok(Effect::Done)
}

// an addition that is an action's only command
fn add_alone(alloc: Global, map: &mut Map, key: &Txt, by: i64) -> Result<Effect, NoMemory>
    ensures ok { IfOk result (λ effect. run_commands (of_entries map.old.entries)
        0 (Inc key.now by ∷ []) (Changed (of_entries map.old.entries)) ≡
        record { db = of_entries map.new.entries; effect = effect }) }
    ensures err { OnErr result (of_entries map.new.entries ≡ of_entries map.old.entries) }
{
    if let Some(place) = map.get_mut(key) {
        return Ok(add_in_place(place, by));
    }
    let key = key.copy(alloc)?;
    put_entry(map, key, Value::Int(by))?;
    Ok(Effect::Done)
}

// what it makes of the value of its key
fn add_in_place(place: &mut Value, by: i64) -> Effect
    ensures { (db : List DbEntry) (key : List ℕ) → Ascends db → value_of db key ≡ Some place.old
        → run_commands db 0 (Inc key by ∷ []) (Changed db) ≡ record { db = put db key place.new; effect = result } }
{
    let Value::Int(number) = place else {
        return Effect::Aborted(1);
    };
    let Some(sum) = number.checked_add(by) else {
        return Effect::Range(1);
    };
    *number = sum;
    Effect::Done
}

// a copy of the entry at an index, in front of those that stand behind it
fn copy_entry(alloc: Global, from: &Map, index: usize, to: &mut Map) -> Result<(), NoMemory>
    requires { index < length from.now.entries }
    ensures { OnOk result (of_entries to.old.entries ≡ of_entries (drop (index + 1) from.now.entries) →
        of_entries to.new.entries ≡ of_entries (drop index from.now.entries)) }
{
    let Some((key, value)) = from.get_index(index) else {
        return Ok(());
    };
    let key = key.copy(alloc)?;
    let value = value.copy(alloc)?;
    to.insert(key, value)?;
    Ok(())
}

// all of the changes, or none where memory is refused
fn write(map: &mut Map, changes: Changes) -> Result<(), NoMemory>
    ensures ok { OnOk result (of_entries map.new.entries ≡ with_changes (of_entries map.old.entries) (listed changes)) }
    ensures err { OnErr result (map.new.entries ≡ map.old.entries) }
{
    map.reserve(changes.len())?;
    let Changes { earlier, last } = changes;
    write_each(map, earlier);
    if let Some(change) = last {
        write_one(map, change);
    }
    Ok(())
}

fn write_each(map: &mut Map, changes: Vec<KeyChange>)
    requires { length changes.items ≤ spare map.old }
    ensures changed { of_entries map.new.entries ≡ with_changes (of_entries map.old.entries) changes.items }
    ensures room { spare map.old ≤ spare map.new + length changes.items }
{
    for change in changes {
        write_one(map, change);
    }
}

fn write_one(map: &mut Map, change: KeyChange)
    requires { 0 < spare map.old }
    ensures changed { of_entries map.new.entries ≡ changed (of_entries map.old.entries) change }
    ensures room { spare map.old ≤ spare map.new + 1 }
{
    let KeyChange { key, value } = change;
    match value {
        Some(value) => {
            let _ = map.insert(key, value);
        }
        None => {
            let _ = map.swap_remove(&key);
        }
    }
}
