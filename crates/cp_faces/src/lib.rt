//! Rotations as functions on darts: vertices, faces and components counted, Euler's inequality, and the
//! laws of rewrites. The crate has no code: its definitions stand in `specs/`, and its lemmas in `proofs/`
//! are cited by the crates above.
#![tactic(auto)]
