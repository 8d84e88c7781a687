ghost use Rattle.std.specs.Prelude.{◌≡◌, ◌↔◌, IsTrue};
ghost use Rattle.cg_action.specs.declared.value.Value.{Value};
ghost use Rattle.cg_records.specs.declared.primary.Primary.{Primary};
ghost use Rattle.cg_records.specs.declared.vulnerable.Vulnerable.{Vulnerable};
ghost use Rattle.cg_records.specs.declared.yellow.Yellow.{Yellow};
ghost use Rattle.cg_report.specs.declared.line.Line.{Line};

use cg_action::Value;
use cg_records::{Primary, Vulnerable, Yellow};
use cg_report::Line;

/// `==` holds of two of these just where the two are one value.
pub fn equal_values_are_one()
    ensures value { (a b : Value) → IsTrue (⟦<Value as PartialEq>⟧.eq a b) ↔ (a ≡ b) }
    ensures primary { (a b : Primary) → IsTrue (⟦<Primary as PartialEq>⟧.eq a b) ↔ (a ≡ b) }
    ensures vulnerable { (a b : Vulnerable) → IsTrue (⟦<Vulnerable as PartialEq>⟧.eq a b) ↔ (a ≡ b) }
    ensures yellow { (a b : Yellow) → IsTrue (⟦<Yellow as PartialEq>⟧.eq a b) ↔ (a ≡ b) }
    ensures line { (a b : Line) → IsTrue (⟦<Line as PartialEq>⟧.eq a b) ↔ (a ≡ b) }
{}
