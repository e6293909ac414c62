// The mathematics of the field file: its definitions are in specs/, its lemmas in proofs/.
#![tactic(auto)]

ghost use Rattle.records.specs.Laws.{Kept, Named, Described, Filed, Fielded, Rewritten};

// Holds no code: its contract is what is shown of files.
pub fn laws_hold()
    ensures kept { Kept }
    ensures named { Named }
    ensures described { Described }
    ensures filed { Filed }
    ensures fielded { Fielded }
    ensures rewritten { Rewritten }
{}
