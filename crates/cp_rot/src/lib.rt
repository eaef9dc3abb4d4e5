//! Rotation systems, their faces, components and Euler genus.
#![tactic(auto)]

mod adding;
mod building;
mod components;
mod counting;
mod deleting;
mod expanding;
mod faces;
mod laws;
mod merging;
mod rot;
mod storing;
mod system;
#[cfg(test)]
mod tests;
mod wrong;

pub use counting::{components_of, euler_zero_of, faces_of};
pub use laws::{counts_add_up, euler_bound, loop_adds_one_face, renaming_keeps_counts};
pub use rot::{Rot, RotFault};
pub use system::RotationSystem;
pub use wrong::first_wrong;
