//! The objects of a JSON report, each on a line of its own.

ghost use Rattle.std.specs.Prelude.{◌≡◌, ◌++◌, ℕ, List, false, map, IfOk, OnOk, OnErr};
ghost use Rattle.serde_json.specs.Data.{string};
ghost use Rattle.serde_json.specs.View.{view};
ghost use Rattle.serde_json.specs.Written.{has_float};
ghost use Rattle.cg_json.specs.JsonText.{step_object, tail_object, object_line, tail_json};

use cg_base::{NoMemory, put};
use serde_json::{Value, json};
use std::alloc::{AllocError, Global};

/// The object of a step with these lines, which are texts. Where memory is refused nothing is put.
pub fn put_step(out: &mut Vec<u8>, step: u64, lines: Vec<Value>) -> Result<(), NoMemory>
    ensures ok { (texts : List (List ℕ)) → map view lines.items ≡ map string texts →
        OnOk result (out.new.items ≡ out.old.items ++ object_line (step_object step texts)) }
    ensures err { OnErr result (out.new.items ≡ out.old.items) }
{
    let object = step_object(*out.allocator(), step, lines)?;
    put_object(out, &object)
}

fn step_object(alloc: Global, step: u64, lines: Vec<Value>) -> Result<Value, AllocError>
    ensures { (texts : List (List ℕ)) → map view lines.items ≡ map string texts →
        IfOk result (λ v. view v ≡ step_object step texts) }
{
    json!(in alloc; {"lines": lines, "step": step})
}

/// The last line of a report, which is given without its end: one compact object with the member `tail`, and a line
/// feed. Where memory is refused nothing is put.
pub fn json_tail(tail: &str, out: &mut Vec<u8>) -> Result<(), NoMemory>
    ensures ok { OnOk result (out.new.items ≡ out.old.items ++ tail_json tail.now) }
    ensures err { OnErr result (out.new.items ≡ out.old.items) }
{
    let object = tail_object(*out.allocator(), tail)?;
    put_object(out, &object)
}

fn tail_object(alloc: Global, tail: &str) -> Result<Value, AllocError>
    ensures { IfOk result (λ v. view v ≡ tail_object tail.now) }
{
    json!(in alloc; {"tail": tail})
}

// the object and a line feed
fn put_object(out: &mut Vec<u8>, object: &Value) -> Result<(), NoMemory>
    ensures ok { has_float (view object.now) ≡ false →
        OnOk result (out.new.items ≡ out.old.items ++ object_line (view object.now)) }
    ensures err { OnErr result (out.new.items ≡ out.old.items) }
{
    let mut line = object.to_vec(*out.allocator())?;
    line.push(b'\n')?;
    put(out, &line)
}
