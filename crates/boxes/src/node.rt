// The nodes of a tree of boxes.
ghost use Rattle.std.specs.Prelude.{◌≡◌};
ghost use Rattle.boxes.specs.Views.{children_of};

use super::bounds::Bounds;
use ranking::CODES;

// A leaf has no children, a split has its halves, and a shrink a box inside its own and the rest of its own.
// A child is named by its number.
#[derive(Clone, Copy, PartialEq, Eq, Debug, Default)]
pub enum Kind {
    #[default]
    Leaf,
    Split { lower: u16, upper: u16 },
    Shrink { core: u16, rim: u16 },
}

impl Kind {
    // The first and the second child, where there are any.
    pub fn children(self) -> Option<(u16, u16)>
        ensures { result ≡ children_of self }
    {
        match self {
            Kind::Leaf => None,
            Kind::Split { lower, upper } => Some((lower, upper)),
            Kind::Shrink { core, rim } => Some((core, rim)),
        }
    }
}

// What a node is, its box, and how many samples there are of each fibre.
#[derive(Clone, Copy, Default)]
pub struct Node {
    pub kind: Kind,
    pub bounds: Bounds,
    pub counts: [u16; CODES],
}
