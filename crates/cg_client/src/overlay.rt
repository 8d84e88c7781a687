//! Queries behind actions that aren't written: only a part of the database, at the keys that the actions name, is copied.
ghost use Rattle.std.specs.Prelude.{◌≡◌, ◌≤◌, ℕ, List, ◌∷◌, [], not, length, fold, filter, IfOk, OnOk};
ghost use Rattle.cg_action.specs.ActionLimits.{IsAction};
ghost use Rattle.cg_action.specs.declared.query.Query.TheVariants.{Keys as KeysOf};
ghost use Rattle.cg_db.specs.Find.{answer};
ghost use Rattle.cg_action.specs.declared.answer.Answer.TheVariants.{Keys};
ghost use Rattle.cg_base.specs.Lists.{Each};
ghost use Rattle.cg_db.specs.Apply.{fold_actions_from};
ghost use Rattle.cg_client.specs.Overlay.{with_key, with_command, with_commands, with_action, named_part, has_key, with_mark, merged_keys, answer_with};

use cg_action::{Action, ActionList, Answer, Cmd, Kind, Limited, Query, TxtList, Value};
use cg_base::NoMemory;
use cg_db::Db;
use cg_text::Txt;
use std::alloc::Global;

/// What a database answers behind these actions, none of which is written to it.
pub(crate) fn answer_behind(
    alloc: Global,
    db: &Db,
    actions: Limited<Action>,
    q: &Query,
) -> Result<Answer, NoMemory>
    ensures { IfOk result (λ found. found ≡ answer (fold_actions_from db.now actions) q.now) }
{
    db.holds();
    let list = actions.into_list();
    let before = named_part(alloc, db, list.as_slice())?;
    let mut after = before.copy()?;
    apply_all(&mut after, list)?;
    answer_with(alloc, db, &before, &after, q)
}

fn named_part(alloc: Global, db: &Db, actions: &[Action]) -> Result<Db, NoMemory>
    ensures { IfOk result (λ part. part ≡ named_part db.now actions.now) }
{
    let mut part = Db::new(alloc);
    for a in actions {
        take_action(alloc, db, &mut part, a)?;
    }
    Ok(part)
}

fn take_action(alloc: Global, db: &Db, part: &mut Db, a: &Action) -> Result<(), NoMemory>
    ensures { OnOk result (part.new ≡ with_action db.now part.old a.now) }
{
    match a.kind.get() {
        Kind::Update { cmds, .. } => take_commands(alloc, db, part, cmds.as_slice()),
        Kind::Join(..) => Ok(()),
        Kind::Leave(_) => Ok(()),
    }
}

fn take_commands(alloc: Global, db: &Db, part: &mut Db, cmds: &[Cmd]) -> Result<(), NoMemory>
    ensures { OnOk result (part.new ≡ with_commands db.now part.old cmds.now) }
{
    for cmd in cmds {
        take_command(alloc, db, part, cmd)?;
    }
    Ok(())
}

fn take_command(alloc: Global, db: &Db, part: &mut Db, cmd: &Cmd) -> Result<(), NoMemory>
    ensures { OnOk result (part.new ≡ with_command db.now part.old cmd.now) }
{
    match cmd {
        Cmd::Put { key, .. } => take_key(alloc, db, part, key),
        Cmd::Del { key } => take_key(alloc, db, part, key),
        Cmd::Inc { key, .. } => take_key(alloc, db, part, key),
        Cmd::Cas { key, .. } => take_key(alloc, db, part, key),
        Cmd::Move { source, target, .. } => {
            take_key(alloc, db, part, source)?;
            take_key(alloc, db, part, target)
        }
        Cmd::Need { key, .. } => take_key(alloc, db, part, key),
    }
}

// what stands at a key comes into the part
fn take_key(alloc: Global, db: &Db, part: &mut Db, key: &Txt) -> Result<(), NoMemory>
    ensures { OnOk result (part.new ≡ with_key db.now part.old key.now) }
{
    let Some(value) = db.value(key) else {
        return Ok(());
    };
    let key = key.copy(alloc)?;
    part.put(key, value.copy(alloc)?)
}

// the database behind these actions
fn apply_all(db: &mut Db, actions: ActionList) -> Result<(), NoMemory>
    requires { Each IsAction actions }
    ensures { OnOk result (db.new ≡ fold_actions_from db.old actions) }
{
    for a in actions.into_vec() {
        let _ = db.apply(&a)?;
    }
    Ok(())
}

fn has_key(db: &Db, key: &Txt) -> bool
    ensures { result ≡ has_key db.now key.now }
{
    db.value(key).is_some()
}

// the answer of a database in which a part has become another one
fn answer_with(
    alloc: Global,
    db: &Db,
    before: &Db,
    after: &Db,
    q: &Query,
) -> Result<Answer, NoMemory>
    requires { length before.now ≤ length db.now }
    ensures { IfOk result (λ found. found ≡ answer_with db.now before.now after.now q.now) }
{
    match q {
        Query::Get(key) => {
            if has_key(before, key) || has_key(after, key) {
                after.answer(q)
            } else {
                db.answer(q)
            }
        }
        Query::Keys(_) => {
            let found = keys_found(db, q)?;
            let others = keys_found(after, q)?;
            Ok(Answer::Keys(joined(alloc, before, found, others)?))
        }
        Query::Count => {
            let left = db.count() - before.count();
            // so many entries fit no memory
            let Some(count) = left.checked_add(after.count()) else {
                return Err(NoMemory);
            };
            Ok(Answer::Count(count))
        }
    }
}

// the keys that a query for keys finds
fn keys_found(db: &Db, q: &Query) -> Result<TxtList, NoMemory>
    requires { (prefix : List ℕ) × (q.now ≡ KeysOf prefix) }
    ensures { IfOk result (λ list. answer db.now q.now ≡ Keys list) }
{
    match db.answer(q)? {
        Answer::Keys(list) => Ok(list),
        _ => unreachable!(),
    }
}

// the keys that aren't in the part, and the others, ascending
fn joined(alloc: Global, part: &Db, found: TxtList, others: TxtList) -> Result<TxtList, NoMemory>
    ensures { IfOk result (λ list. list ≡ merged_keys part.now found others) }
{
    let mut marks = Db::new(alloc);
    for key in found.into_vec() {
        mark_missing(part, &mut marks, key)?;
    }
    mark_all(&mut marks, others)?;
    marks.keys()
}

fn mark_missing(part: &Db, marks: &mut Db, key: Txt) -> Result<(), NoMemory>
    ensures { OnOk result (marks.new ≡ fold with_mark
        marks.old (filter (λ key. not (has_key part.now key)) (key ∷ []))) }
{
    if has_key(part, &key) {
        return Ok(());
    }
    marks.put(key, Value::Int(0))
}

fn mark_all(marks: &mut Db, keys: TxtList) -> Result<(), NoMemory>
    ensures { OnOk result (marks.new ≡ fold with_mark marks.old keys) }
{
    for key in keys.into_vec() {
        marks.put(key, Value::Int(0))?;
    }
    Ok(())
}
