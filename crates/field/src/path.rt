// The path of values through the nodes of a tree: the leaf at its end, and the counts along it. The rules of the tree are
// asked of the slice: a field lends its nodes out to be written, and meanwhile its type says nothing of them.
ghost use Rattle.std.specs.Prelude.{◌≡◌, ℕ, ◌-◌, ◌<◌, ◌&&◌, false, true, length, ◌==◌};
ghost use Rattle.boxes.specs.Views.{entries, node_at, counts_at};
ghost use Rattle.trees.specs.Trees.{Rules, reached, under};
ghost use Rattle.field.specs.Paths.{Goes};

use boxes::Node;
use measure::BANDS;
use samples::Sample;

// The leaf in which the values belong. A loop: `successors` would carry each number in an Option, to give only the last.
pub(crate) fn leaf_of(nodes: &[Node], values: &[u16; BANDS]) -> usize
    requires rules { Rules (length nodes.now) (node_at nodes.now) }
    ensures { result ≡ reached (node_at nodes.now) (entries values.now) (length nodes.now - 1) }
{
    let mut at = 0;
    while let Some(next) = child_of(nodes, at, values) {
        at = next;
    }
    at
}

// Changes the count of the sample's fibre on the path of its values.
// It walks for itself: an iterator over the path would borrow the nodes that are written on the way.
pub(crate) fn recount<F: Fn(u16) -> u16>(nodes: &mut [Node], sample: &Sample, change: F)
    requires rules { Rules (length nodes.old) (node_at nodes.old) }
    requires changes { (x : ℕ) → x < length nodes.old → F.pre change (counts_at nodes.old x sample.now.fibre) }
    ensures shape { (x : ℕ) → node_at nodes.new x ≡ node_at nodes.old x }
    ensures changed { (x : ℕ) → under (node_at nodes.old) (entries sample.now.reading.values) x ≡ true → F.post change (counts_at nodes.old x sample.now.fibre) (counts_at nodes.new x sample.now.fibre) }
    ensures kept { (x f : ℕ) → (sample.now.fibre == f && under (node_at nodes.old) (entries sample.now.reading.values) x) ≡ false → counts_at nodes.new x f ≡ counts_at nodes.old x f }
{
    let mut at = 0;
    loop {
        touch(nodes, at, sample.fibre(), &change);
        let Some(next) = child_of(nodes, at, sample.values()) else {
            return;
        };
        at = next;
    }
}

// Changes the count of this fibre in one node.
fn touch<F: Fn(u16) -> u16>(nodes: &mut [Node], at: usize, fibre: u8, change: &F)
    requires within { at < length nodes.old }
    requires coded { fibre < 8 }
    requires changes { F.pre change.now (counts_at nodes.old at fibre) }
    ensures shape { (x : ℕ) → node_at nodes.new x ≡ node_at nodes.old x }
    ensures changed { F.post change.now (counts_at nodes.old at fibre) (counts_at nodes.new at fibre) }
    ensures kept { (x f : ℕ) → (fibre == f && x == at) ≡ false → counts_at nodes.new x f ≡ counts_at nodes.old x f }
{
    let counts = &mut nodes[at].counts;
    counts[fibre as usize] = change(counts[fibre as usize]);
}

// The child in which the values belong; none at a leaf.
fn child_of(nodes: &[Node], at: usize, values: &[u16; BANDS]) -> Option<usize>
    requires rules { Rules (length nodes.now) (node_at nodes.now) }
    requires within { at < length nodes.now }
    ensures { Goes (node_at nodes.now) (entries values.now) (length nodes.now) at result }
{
    let (first, second) = nodes[at].kind.children()?;
    let first = first as usize;
    if nodes[first].bounds.covers(values) {
        Some(first)
    } else {
        Some(second as usize)
    }
}
