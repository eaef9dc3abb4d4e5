//! Vertices of a map of darts put together: the vertices of one side of a bipartite map made one, and the branches
//! between two poles put in any order. The crate has no code: its definitions stand in `specs/`, and its lemmas in
//! `proofs/` are cited by the crates above.
#![tactic(auto)]
