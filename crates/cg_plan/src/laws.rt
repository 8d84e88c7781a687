ghost use Rattle.std.specs.Prelude.{◌≡◌, ◌≤◌, ◌==◌, ◌↔◌, ℕ, List, IsTrue, length, take};
ghost use Rattle.cg_plan.specs.declared.parts.Item.{Item};
ghost use Rattle.cg_plan.specs.declared.parts.SentPart.{SentPart};
ghost use Rattle.cg_plan.specs.Items.{items_of_plan};
ghost use Rattle.cg_plan.specs.Following.{begun, after_items};
ghost use Rattle.cg_plan.specs.Progress.{PlanProgress, is_done};

use crate::Item;

/// After the items of a plan were accepted in their order it is done, and not before.
pub fn plans_end()
    ensures follows { (plan : List SentPart) (n : ℕ) → n ≤ length (items_of_plan plan) →
        after_items (begun plan) (take n (items_of_plan plan)) ≡ record { turns = plan; accepted = n } }
    ensures ends { (plan : List SentPart) (n : ℕ) → n ≤ length (items_of_plan plan) →
        is_done (record { turns = plan; accepted = n }) ≡ (n == length (items_of_plan plan)) }
    ensures same { (a b : Item) → IsTrue (⟦<Item as PartialEq>⟧.eq a b) ↔ (a ≡ b) }
{}
