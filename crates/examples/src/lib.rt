// The worked examples, as one statement about the definitions that the contracts use.
#![tactic(auto)]

ghost use Rattle.examples.specs.Examples.{Examples};

// Holds no code: its contract is the statement.
pub fn examples_hold()
    ensures { Examples }
{}
