//! Maps of darts on a fixed stock of edges, with loose darts: rewrites without new numbers, and what each of
//! them does to the genus. The crate has no code: its definitions stand in `specs/`, and its lemmas in `proofs/`
//! are cited by the crates above.
#![tactic(auto)]
