// The answers to the lines of a script, and how they are printed.
ghost use Rattle.std.specs.Prelude.{Some};
ghost use Rattle.fullscan.specs.Answers.{letters_of, line_of};

use samples::Refusal;
use std::fmt;

// What a line that is carried out is answered; a verdict has the fibre's code.
#[derive(Clone, Copy)]
pub enum Answer {
    Measured,
    Admitted,
    Withdrawn,
    Rebuilt,
    Verdict(u8),
}

impl fmt::Display for Answer {
    ghost output = { λ a. Some (letters_of a) };

    fn fmt<W: fmt::Write>(&self, f: &mut fmt::Formatter<W>) -> fmt::Result {
        match *self {
            Answer::Measured => f.write_str("M"),
            Answer::Admitted => f.write_str("A"),
            Answer::Withdrawn => f.write_str("W"),
            Answer::Rebuilt => f.write_str("R"),
            Answer::Verdict(fibre) => write!(f, "Q {fibre}"),
        }
    }
}
