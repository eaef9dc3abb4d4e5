//! Order trees as the solver uses them: copies, shapes, orders by bits, owners and forced orders.
#![tactic(auto)]

mod copying;
mod fault;
mod fitting;
mod for_trees;
mod forcing;
mod order_tree;
mod ownership;
mod reading;
mod shaping;

pub use copying::copy_of;
pub use fault::ForceFault;
pub use forcing::force;
pub use order_tree::OrderTree;
pub use ownership::owner_of;
pub use reading::{order_of, push_part};
pub use shaping::shape_of;

#[cfg(test)]
mod tests;
