//! Laws of gluing and splitting on rotation systems.
#![tactic(auto)]

mod dipole;
mod gluing;
mod gluing_tables;
mod laws;
mod pole_parts;
mod pole_rows;
mod poles;
mod sides;
mod star;
mod star_lists;
mod star_parts;
mod systems;
#[cfg(test)]
mod tests_glue;
#[cfg(test)]
mod tests_merge;
#[cfg(test)]
mod tests_poles;
#[cfg(test)]
mod tests_sides;
#[cfg(test)]
mod tests_star;
#[cfg(test)]
mod tests_systems;

pub use dipole::dipole_reversed;
pub use gluing::glue;
pub use laws::{
    restriction_keeps_genus_zero, run_keeps_genus, split_off_has_genus_of_parts,
    split_off_keeps_genus_zero,
};
pub use poles::permute_components;
pub use sides::merge_side;
pub use star::star_split;
