// The mathematics of boxes and trees: its definitions are in specs/, its lemmas in proofs/.
#![tactic(auto)]

ghost use Rattle.trees.specs.Laws.{Halves, Singles, Paths, Counting, Drawing};

// Holds no code: its contract is what is shown of boxes and trees.
pub fn laws_hold()
    ensures halves { Halves }
    ensures singles { Singles }
    ensures paths { Paths }
    ensures counting { Counting }
    ensures drawing { Drawing }
{}
