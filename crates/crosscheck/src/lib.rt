// A script carried out on a field, each question answered by the walk and by the full scan.
#![tactic(auto)]

ghost use Rattle.std.specs.Prelude.{[], ◌∷◌, IfOk, string_bytes, OnOk};
ghost use Rattle.script.specs.Scripts.{text_left};
ghost use Rattle.fullscan.specs.Runs.{weigh, join};
ghost use Rattle.crosscheck.specs.Replies.{Checked};
ghost use Rattle.crosscheck.specs.Reports.{Adds, Behind};

use field::Field;
use measure::{Block, Damped, Measure, Peak, Square};
use samples::Refusal;
use script::{MeasureKind, Script, Unreadable};
use std::alloc::{AllocError, Global};
use walk::Walk;

mod answer;
mod replies;
#[cfg(test)]
mod tests;

pub use answer::Answer;
use replies::reply;

// What is printed, and whether walk and full scan agree in all of it.
#[derive(Drop)]
pub struct Report {
    pub text: String,
    pub agree: bool,
}

// Answers a script, up to its first line where that names no measure.
pub fn check(heap: Global, text: &[u8]) -> Result<Report, AllocError>
    ensures { IfOk result (λ r. Checked text.now (string_bytes r.text) r.agree) }
{
    let mut report = Report {
        text: String::new(heap),
        agree: true,
    };
    match Script::open(text) {
        Ok((kind, script)) => {
            report.put(Ok(Answer::Measured))?;
            report.answer_by(kind, script)?;
        }
        Err(Unreadable) => report.put(Err(Refusal::Unreadable))?,
    }
    Ok(report)
}

impl Report {
    // Answers the lines of a script by the measure that its first line names.
    fn answer_by(&mut self, kind: MeasureKind, script: Script) -> Result<(), AllocError>
        ensures { OnOk result (Behind (weigh kind) (join kind) (text_left script.entry) self.old self.new) }
    {
        // Each measure is a type: so no gap is weighed by a call that is looked up while the program runs.
        match kind {
            MeasureKind::Block => self.answer_lines(&Block, script),
            MeasureKind::Square => self.answer_lines(&Square, script),
            MeasureKind::Peak => self.answer_lines(&Peak, script),
            MeasureKind::Damped => self.answer_lines(&Damped, script),
        }
    }

    // Answers one line after the other, from an empty field on.
    fn answer_lines<M: Measure>(&mut self, measure: &M, script: Script) -> Result<(), AllocError>
        ensures { OnOk result (Behind (M.weighed measure.now) (M.joined measure.now) (text_left script.entry) self.old self.new) }
    {
        let mut field = Field::new();
        let mut walk = Walk::new();
        for line in script {
            self.put(reply(measure, &mut field, &mut walk, line))?;
        }
        Ok(())
    }

    // Prints an answer, or the number of a refusal, on a line of its own, and says there where walk and full scan differ.
    fn put(&mut self, answer: Result<Answer, Refusal>) -> Result<(), AllocError>
        ensures { OnOk result (Adds self.old (answer ∷ []) self.new) }
    {
        match answer {
            Ok(answer) if answer.differs() => {
                self.agree = false;
                writeln!(self.text, "{answer}, differs")
            }
            Ok(answer) => writeln!(self.text, "{answer}"),
            Err(refusal) => writeln!(self.text, "E {}", u8::from(refusal)),
        }
    }
}
