//! Instances of synchronized planarity as maps of darts: the two darts of each edge, and the rotation system that
//! lists of the vertices make. The crate has no code: its lemmas in `proofs/` are cited by the crates above.
#![tactic(auto)]
