// Draws the tree over the samples held: box by box, each from the run of slots whose samples lie in it.
ghost use Rattle.std.specs.Prelude.{◌≡◌, ◌<◌, ◌∷◌, ◌++◌, [], false, true, length};
ghost use Rattle.boxes.specs.declared.node.Kind.TheVariants.{Leaf};
ghost use Rattle.boxes.specs.Views.{box_of};
ghost use Rattle.trees.specs.Drawing.{both, core, few};
ghost use Rattle.drawing.specs.Builds.{over, nodes_of, Ready, Follows, Draws};
ghost use Rattle.drawing.specs.Runs.{Run};

use super::MAX_NODES;
use arrayvec::ArrayVec;
use boxes::{Bounds, Kind, MAX_DEPTH, Node};
use ranking::CODES;
use samples::Slots;

// The most samples of a leaf that could be split.
const LEAF_SAMPLES: usize = 4;

// Draws boxes over the samples in the slots, each behind the nodes that there are.
#[derive(Drop)]
pub(crate) struct Builder<'a> {
    pub(crate) slots: &'a Slots,
    pub(crate) nodes: &'a mut ArrayVec<Node, MAX_NODES>,
}

// A run is lent beside its box: each step makes a part of either anew, and a struct of both would only be taken apart.
impl Builder<'_> {
    // Draws the tree over a run of the box. The run is then in disorder.
    #[cycle(building)]
    pub(crate) fn build_box(&mut self, run: &mut [u8], k: Bounds)
        requires { Ready self.old k run.old }
        ensures { Draws self.old k self.new }
    {
        if run.len() <= LEAF_SAMPLES || k.depth() >= MAX_DEPTH {
            let counts = self.tally(run);
            self.push(k, counts);
            return;
        }
        let inner = self.core_of(run, k);
        if inner.depth() > k.depth() {
            self.build_shrink(run, k, inner);
        } else {
            self.build_split(run, k);
        }
    }

    // The same where both halves of the box have samples: the parent, the whole lower half, the upper half.
    #[cycle(building)]
    fn build_split(&mut self, run: &mut [u8], k: Bounds)
        requires ready { Ready self.old k run.old }
        requires full { few (over self.old) (box_of k) ≡ false }
        requires parts { both (over self.old) (box_of k) ≡ true }
        ensures { Draws self.old k self.new }
    {
        let (lower, upper) = k.halves().unwrap();
        let counts = self.tally(run);
        let below = self.part(run, &lower);
        let (front, back) = run.split_at_mut(below);
        let at = self.push(k, counts);
        self.build_box(front, lower);
        let second = self.nodes.len();
        self.build_box(back, upper);
        // A node's number fits, as the check proves: a `try_from` would give an error that cannot come.
        self.nodes[at].kind = Kind::Split {
            lower: at as u16 + 1,
            upper: second as u16,
        };
    }

    // The same where one half has them all: the parent, the whole deepest box with all the samples, the rim.
    #[cycle(building)]
    fn build_shrink(&mut self, run: &mut [u8], k: Bounds, inner: Bounds)
        requires ready { Ready self.old k run.old }
        requires full { few (over self.old) (box_of k) ≡ false }
        requires parts { both (over self.old) (box_of k) ≡ false }
        requires inner { box_of inner ≡ core (over self.old) (box_of k) }
        ensures { Draws self.old k self.new }
    {
        let counts = self.tally(run);
        let at = self.push(k, counts);
        self.build_box(run, inner);
        let rim = self.push(k, [0; CODES]);
        // The numbers fit, as above.
        self.nodes[at].kind = Kind::Shrink {
            core: at as u16 + 1,
            rim: rim as u16,
        };
    }

    // Puts a leaf behind the nodes, and says its number.
    fn push(&mut self, bounds: Bounds, counts: [u16; CODES]) -> usize
        requires { length (nodes_of self.old) < 1021 }
        ensures number { result ≡ length (nodes_of self.old) }
        ensures same { Follows self.old self.new }
        ensures pushed { nodes_of self.new ≡ nodes_of self.old ++ record { kind = Leaf; bounds = bounds; counts = counts } ∷ [] }
    {
        let number = self.nodes.len();
        self.nodes.push(Node {
            kind: Kind::Leaf,
            bounds,
            counts,
        });
        number
    }

    // The deepest box that holds all the samples of a run: down for as long as one half has them all.
    fn core_of(&self, run: &[u8], k: Bounds) -> Bounds
        requires { Run (over self.now) (box_of k) run.now }
        ensures { box_of result ≡ core (over self.now) (box_of k) }
    {
        let mut deepest = k;
        while let Some((low, high)) = deepest.halves() {
            match self.count_in(run, &low) {
                0 => deepest = high,
                all if all == run.len() => deepest = low,
                _ => break,
            }
        }
        deepest
    }
}
