//! A tree planted in the place of a vertex, at both ends of a pipe: what it makes of a flat map is flat, and the other
//! way round. The crate has no code: its definitions stand in `specs/`, and its lemmas in `proofs/` are cited by the
//! crates above.
#![tactic(auto)]
