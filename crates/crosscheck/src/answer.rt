// The answers to the lines of a script, and how they are printed.
ghost use Rattle.std.specs.Prelude.{◌≡◌, Some};
ghost use Rattle.crosscheck.specs.Answers.{differs, letters_of};

use std::fmt;
use walk::Outcome;

// What a line that is carried out is answered: a question by how its walk ended, and by the full scan's fibre.
#[derive(Clone, Copy)]
pub enum Answer {
    Measured,
    Admitted,
    Withdrawn,
    Rebuilt,
    Judged { walked: Outcome, scanned: u8 },
}

impl Answer {
    // Whether the walk's fibre is one that the full scan rules out. Where a walk ends nearby, it may be another.
    pub fn differs(&self) -> bool
        ensures { result ≡ differs self.now }
    {
        match *self {
            Answer::Judged {
                walked: Outcome::Settled { fibre, .. } | Outcome::Counted { fibre, .. },
                scanned,
            } => fibre != scanned,
            _ => false,
        }
    }
}

impl fmt::Display for Answer {
    ghost output = { λ a. Some (letters_of a) };

    fn fmt<W: fmt::Write>(&self, f: &mut fmt::Formatter<W>) -> fmt::Result {
        match *self {
            Answer::Measured => f.write_str("M"),
            Answer::Admitted => f.write_str("A"),
            Answer::Withdrawn => f.write_str("W"),
            Answer::Rebuilt => f.write_str("R"),
            Answer::Judged { walked, scanned } => match walked {
                Outcome::Settled { fibre, steps } => {
                    write!(f, "Q {fibre} {steps} S, full scan {scanned}")
                }
                Outcome::Nearby { fibre, steps } => {
                    write!(f, "Q {fibre} {steps} N, full scan {scanned}")
                }
                Outcome::Counted { fibre, steps } => {
                    write!(f, "Q {fibre} {steps} C, full scan {scanned}")
                }
            },
        }
    }
}
