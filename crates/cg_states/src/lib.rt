//! The table of states: what each event does to a replica in each state it may be in, and what the functions of the
//! table do that take more than a line.
//!
//! Definitions alone, below the states: each state's code cites the table's own words in its contract.
#![tactic(auto)]
