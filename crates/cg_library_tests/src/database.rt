ghost use Rattle.cg_action.specs.ActionLimits.{IsCommand};

use cg_action::{Action, Cmd, CmdList, Effect, Kind, Shared, Value};
use cg_base::{ActionId, NoMemory, ReplicaId};
use cg_db::Db;
use cg_text::Txt;
use std::alloc::Global;

// applies an action of one command
fn run(alloc: Global, db: &mut Db, cmd: Cmd) -> Result<Effect, NoMemory>
    requires { IsCommand cmd }
{
    let mut cmds = CmdList::new(alloc);
    cmds.push(cmd)?;
    let creator = ReplicaId::known(1);
    let action = Action {
        id: ActionId { creator, index: 1 },
        green_line: 0,
        kind: Shared::new(alloc, Kind::Update { cmds, query: None })?,
    };
    let effect = db.apply(&action);
    drop(action);
    effect
}

// adds 5 to "x"
fn raise(alloc: Global, db: &mut Db) -> Result<Effect, NoMemory> {
    let key = Txt::new(alloc, "x")?;
    run(alloc, db, Cmd::Inc { key, by: 5 })
}

// moves 7 from "x" to "y"
fn shift(alloc: Global, db: &mut Db) -> Result<Effect, NoMemory> {
    let source = Txt::new(alloc, "x")?;
    let target = Txt::new(alloc, "y")?;
    let shift = Cmd::Move {
        source,
        target,
        amount: 7,
    };
    run(alloc, db, shift)
}

fn number_at(alloc: Global, db: &Db, key: &str) -> Result<Option<i64>, NoMemory> {
    let key = Txt::new(alloc, key)?;
    let number = match db.value(&key) {
        Some(Value::Int(number)) => Some(*number),
        _ => None,
    };
    Ok(number)
}

#[test]
fn an_action_that_fails_changes_nothing(rt: HostRuntime) {
    let alloc = rt.alloc();
    let mut db = Db::new(alloc);
    let raised = raise(alloc, &mut db);
    let shifted = shift(alloc, &mut db);
    let x = number_at(alloc, &db, "x");
    let y = number_at(alloc, &db, "y");
    drop(db);
    assert!(rt; raised == Ok(Effect::Done));
    assert!(rt; shifted == Ok(Effect::Aborted(1)));
    assert!(rt; x == Ok(Some(5)));
    assert!(rt; y == Ok(None));
}
