//! Cases worked out by another implementation of the same engine, as theorems.
//!
//! Whoever believes the proofs has to believe the definitions that the contracts cite. Each file `proofs/Case*.antt` has
//! the lines of a schedule and what the program puts of them, byte by byte, by the definitions that the contract of `run`
//! cites (`outcome` of `cg_outcome`), with none of the code. All of it is found by computing, and a definition that gives any
//! other byte is refused by the check.
#![tactic(auto)]
