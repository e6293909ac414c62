// Draws the tree over the samples held.
#![tactic(auto)]

ghost use Rattle.std.specs.Prelude.{◌≡◌, ◌≤◌};
ghost use Rattle.arrayvec.specs.ArrayVec.{array_vec_len};
ghost use Rattle.boxes.specs.Views.{node_at, counts_at};
ghost use Rattle.trees.specs.Boxes.{everything};
ghost use Rattle.trees.specs.Drawing.{size, rebuilt, Numbered, Tallied};
ghost use Rattle.drawing.specs.Held.{held_in};

use arrayvec::ArrayVec;
use boxes::{Bounds, Node};
use build::Builder;
use runs::gather;
use samples::Slots;

mod build;
mod runs;

// The most nodes that a tree over all the slots has.
pub const MAX_NODES: usize = 1021;

// Draws the tree over the samples held, in place of the nodes that there were.
pub fn draw(slots: &Slots, nodes: &mut ArrayVec<Node, MAX_NODES>)
    ensures bound { array_vec_len nodes.new ≤ 1021 }
    ensures size { array_vec_len nodes.new ≡ size (rebuilt (held_in slots.now)) }
    ensures numbered { Numbered (node_at nodes.new.items) (rebuilt (held_in slots.now)) everything 0 }
    ensures tallied { Tallied (held_in slots.now) (counts_at nodes.new.items) (rebuilt (held_in slots.now)) everything 0 }
{
    nodes.clear();
    let mut run = gather(slots);
    let mut builder = Builder { slots, nodes };
    builder.build_box(&mut run, Bounds::everything());
}
