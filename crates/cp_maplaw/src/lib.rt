//! Rotation systems as maps of darts: a system has genus zero exactly where its map is flat, and faces and
//! components are the same. The crate has no code: its lemmas in `proofs/` are cited by the crates above.
#![tactic(auto)]
