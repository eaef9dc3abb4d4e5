//! Counting numbers below a bound, and finite lists: of distinct items, of exactly what passes a test,
//! meant up to a turn, in reverse, filtered and with other names. The crate has no code: its definitions
//! stand in `specs/`, and its lemmas in `proofs/` are cited by the crates above.
#![tactic(auto)]
