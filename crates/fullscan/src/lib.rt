// A whole script, answered by weighing every sample.
#![tactic(auto)]

ghost use Rattle.std.specs.Prelude.{◌≡◌, [], ◌∷◌, ◌++◌, IfOk, string_bytes, OnOk};
ghost use Rattle.script.specs.Scripts.{text_left};
ghost use Rattle.fullscan.specs.Answers.{line_of, print};
ghost use Rattle.fullscan.specs.Runs.{answers, weigh, join, Printed};

use measure::{Block, Damped, Measure, Peak, Square};
use samples::{Refusal, Slots};
use script::{MeasureKind, Script, Unreadable};
use std::alloc::{AllocError, Global};

mod answer;
mod replies;
#[cfg(test)]
mod tests;

pub use answer::Answer;
pub use replies::reply;

// What is printed for a script: a line for each of its lines, up to the first where that names no measure.
pub fn scan(heap: Global, text: &[u8]) -> Result<String, AllocError>
    ensures { IfOk result (λ s. string_bytes s ≡ print (answers text.now)) }
{
    let mut out = String::new(heap);
    match Script::open(text) {
        Ok((kind, script)) => {
            put(&mut out, Ok(Answer::Measured))?;
            answer_by(kind, script, &mut out)?;
        }
        Err(Unreadable) => put(&mut out, Err(Refusal::Unreadable))?,
    }
    Ok(out)
}

// Answers the lines of a script by the measure that its first line names.
fn answer_by(kind: MeasureKind, script: Script, out: &mut String) -> Result<(), AllocError>
    ensures { OnOk result (Printed (weigh kind) (join kind) (text_left script.entry) (string_bytes out.old) (string_bytes out.new)) }
{
    // Each measure is a type: so no gap is weighed by a call that is looked up while the program runs.
    match kind {
        MeasureKind::Block => answer_lines(&Block, script, out),
        MeasureKind::Square => answer_lines(&Square, script, out),
        MeasureKind::Peak => answer_lines(&Peak, script, out),
        MeasureKind::Damped => answer_lines(&Damped, script, out),
    }
}

// Answers one line after the other, from empty slots on.
fn answer_lines<M: Measure>(measure: &M, script: Script, out: &mut String) -> Result<(), AllocError>
    ensures { OnOk result (Printed (M.weighed measure.now) (M.joined measure.now) (text_left script.entry) (string_bytes out.old) (string_bytes out.new)) }
{
    let mut slots = Slots::new();
    for line in script {
        put(out, reply(measure, &mut slots, line))?;
    }
    Ok(())
}

// Prints an answer, or the number of a refusal, on a line of its own.
fn put(out: &mut String, answer: Result<Answer, Refusal>) -> Result<(), AllocError>
    ensures { OnOk result (string_bytes out.new ≡ string_bytes out.old ++ (line_of answer ++ 10 ∷ [])) }
{
    match answer {
        Ok(answer) => writeln!(out, "{answer}"),
        Err(refusal) => writeln!(out, "E {}", u8::from(refusal)),
    }
}
