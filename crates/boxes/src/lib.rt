// Boxes over the bands, and the nodes of a tree of boxes.
#![tactic(auto)]

mod bounds;
mod node;

pub use bounds::{Bounds, MAX_DEPTH};
pub use node::{Kind, Node};
