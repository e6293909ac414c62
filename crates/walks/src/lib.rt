// The mathematics of the walk: its definitions are in specs/, its lemmas in proofs/.
#![tactic(auto)]

ghost use Rattle.walks.specs.Laws.{Walks};

// Holds no code: its contract is what is shown of every walk.
pub fn laws_hold()
    ensures { Walks }
{}
