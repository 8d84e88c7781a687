//! That two values of which `==` holds are one value.
//!
//! Definitions cite the equalities that types derive, where a rule asks whether two values are one. One law (`laws.rt`) says of
//! each of these that it holds of equal values and of no others, so that how it compares needn't be read. That of the items of
//! a plan is a clause of `plans_end` of `cg_plan`.
#![tactic(auto)]

mod laws;

pub use laws::equal_values_are_one;
