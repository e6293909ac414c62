// What is wrong with the nodes of a tree that is told: the rules that nodes keep together, as a file's are tested.
ghost use Rattle.std.specs.Prelude.{◌≡◌, ℕ, ◌+◌, ◌<◌, ◌≤◌, true, not, length, ◌==◌, slice_index};
ghost use Rattle.boxes.specs.Views.{box_of, children_of, node_of, node_at};
ghost use Rattle.ranking.specs.Counts.{bit};
ghost use Rattle.ranking.specs.Lowest.{lowest};
ghost use Rattle.trees.specs.Lawful.{alike, nested_by, nested};
ghost use Rattle.trees.specs.Trees.{split, shrink};
ghost use Rattle.records.specs.Checks.{namings};
ghost use Rattle.field.specs.Flaws.{rooted, tied, flaw, ahead};

use boxes::{Bounds, Kind, Node};
use drawing::MAX_NODES;
use measure::BANDS;

// A rule of a tree that is broken, with the lowest node that breaks it.
#[derive(Clone, Copy, PartialEq, Eq, Debug)]
pub enum Flaw {
    // There is no node, or node 0 has not the box of all readings.
    Root,
    // A child number is wrong, or the node is not named exactly once among all child numbers.
    Links(u16),
    // The box of a child is wrong, or the kind of a rim.
    Boxes(u16),
}

// The first rule that the nodes break.
pub(crate) fn flaw_of(nodes: &[Node]) -> Option<Flaw>
    requires { length nodes.now ≤ 1021 }
    ensures { result ≡ flaw (length nodes.now) (node_at nodes.now) }
{
    if !is_rooted(nodes) {
        return Some(Flaw::Root);
    }
    match lowest_unlinked(nodes) {
        Some(node) => Some(Flaw::Links(node)),
        None => lowest_unnested(nodes).map(Flaw::Boxes),
    }
}

// Whether node 0 has the box of all readings.
fn is_rooted(nodes: &[Node]) -> bool
    ensures { result ≡ rooted (length nodes.now) (node_at nodes.now) }
{
    !nodes.is_empty() && is_same(&nodes[0].bounds, &Bounds::everything())
}

// The lowest node whose links are wrong.
fn lowest_unlinked(nodes: &[Node]) -> Option<u16>
    requires { length nodes.now ≤ 1021 }
    ensures { result ≡ lowest (λ x. not (tied (length nodes.now) (node_at nodes.now) x)) (length nodes.now) }
{
    let times = namings_of(nodes);
    (0..nodes.len() as u16).find(|&x| !is_linked(nodes, &times, x))
}

// How often each number is a child number. One pass over the nodes, so that all links are tested in linear time.
fn namings_of(nodes: &[Node]) -> [u16; MAX_NODES]
    requires { length nodes.now ≤ 1021 }
    ensures { (y : ℕ) → y < 1021 → slice_index result y ≡ namings (length nodes.now) (node_at nodes.now) y }
{
    let mut times = [0; MAX_NODES];
    for node in nodes {
        if let Some((first, second)) = node.kind.children() {
            name(&mut times, first);
            name(&mut times, second);
        }
    }
    times
}

// Names this child once more, if there can be such a node.
fn name(times: &mut [u16; MAX_NODES], child: u16)
    requires { child < 1021 → slice_index times.old child < 65535 }
    ensures { (y : ℕ) → y < 1021 → slice_index times.new y ≡ slice_index times.old y + bit (child == y) }
{
    let child = child as usize;
    if child < MAX_NODES {
        times[child] += 1;
    }
}

// Whether the children of node x come after it, and it is named once, if it is not node 0.
fn is_linked(nodes: &[Node], times: &[u16; MAX_NODES], x: u16) -> bool
    requires within { x < length nodes.now }
    requires few { length nodes.now ≤ 1021 }
    requires named { slice_index times.now x ≡ namings (length nodes.now) (node_at nodes.now) x }
    ensures { result ≡ tied (length nodes.now) (node_at nodes.now) x }
{
    children_follow(nodes[x as usize].kind, x, nodes.len()) && (x == 0 || times[x as usize] == 1)
}

// Whether the children of node x, if it has any, are two of so many nodes and come after it.
fn children_follow(kind: Kind, x: u16, len: usize) -> bool
    ensures { result ≡ ahead len x (children_of kind) }
{
    let follows = |child: u16| x < child && (child as usize) < len;
    match kind.children() {
        Some((first, second)) => follows(first) && follows(second) && first != second,
        None => true,
    }
}

// The lowest node whose children have wrong boxes.
fn lowest_unnested(nodes: &[Node]) -> Option<u16>
    requires few { length nodes.now ≤ 1021 }
    requires links { (x : ℕ) → x < length nodes.now → tied (length nodes.now) (node_at nodes.now) x ≡ true }
    ensures { result ≡ lowest (λ x. not (nested (node_at nodes.now) x)) (length nodes.now) }
{
    (0..nodes.len() as u16).find(|&x| !is_nested(nodes, x))
}

// Whether the children of node x have the boxes that its kind asks for.
fn is_nested(nodes: &[Node], x: u16) -> bool
    requires within { x < length nodes.now }
    requires links { tied (length nodes.now) (node_at nodes.now) x ≡ true }
    ensures { result ≡ nested (node_at nodes.now) x }
{
    let node = &nodes[x as usize];
    match node.kind {
        Kind::Leaf => true,
        Kind::Split { lower, upper } => {
            are_halves(&node.bounds, &nodes[lower as usize], &nodes[upper as usize])
        }
        Kind::Shrink { core, rim } => {
            are_core_and_rim(&node.bounds, &nodes[core as usize], &nodes[rim as usize])
        }
    }
}

// Whether two nodes have the lower and the upper half of a box.
fn are_halves(k: &Bounds, lower: &Node, upper: &Node) -> bool
    ensures { result ≡ nested_by split (box_of k.now) (node_of lower.now) (node_of upper.now) }
{
    match k.halves() {
        Some((low, high)) => is_same(&lower.bounds, &low) && is_same(&upper.bounds, &high),
        None => false,
    }
}

// Whether a node has a deeper box in this one, and another is a leaf with this very one.
fn are_core_and_rim(k: &Bounds, core: &Node, rim: &Node) -> bool
    ensures { result ≡ nested_by shrink (box_of k.now) (node_of core.now) (node_of rim.now) }
{
    core.bounds.inside(k) && rim.kind.children().is_none() && is_same(&rim.bounds, k)
}

// Whether two boxes are the same.
fn is_same(a: &Bounds, b: &Bounds) -> bool
    ensures { result ≡ alike (box_of a.now) (box_of b.now) }
{
    a.depth() == b.depth() && (0..BANDS).all(|band| a.corner()[band] == b.corner()[band])
}
