// A field holds samples and a tree over them; its type says that the rules of the tree hold and its counts are right.
ghost use Rattle.std.specs.Prelude.{◌≡◌, ◌≤◌, true};
ghost use Rattle.arrayvec.specs.ArrayVec.{array_vec_len};
ghost use Rattle.boxes.specs.Views.{node_at, counts_at};
ghost use Rattle.drawing.specs.Held.{samples_of};
ghost use Rattle.samples.specs.Slots.{table};
ghost use Rattle.trees.specs.Lawful.{lawful, right};

use arrayvec::ArrayVec;
use boxes::Node;
use drawing::MAX_NODES;
use samples::Slots;

mod calls;

// The nodes are the tree, by number. How many fit is told once more, since an ArrayVec's value does not show its room.
#[derive(Drop)]
pub struct Field {
    slots: Slots,
    nodes: ArrayVec<Node, MAX_NODES>,
    ghost len_fits: { array_vec_len nodes ≤ 1021 },
    ghost rules_hold: { lawful (array_vec_len nodes) (node_at nodes.items) ≡ true },
    ghost counts_hold: { right (array_vec_len nodes) (node_at nodes.items) (counts_at nodes.items) (samples_of (table slots)) ≡ true },
}
