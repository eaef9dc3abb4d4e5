//! Connection by pairs with its classes, and permutations with their orbits. The crate has no code: its
//! definitions stand in `specs/`, and its lemmas in `proofs/` are cited by the crates above.
#![tactic(auto)]
