// A script as calls on a reader, and their answers as text.
#![tactic(auto)]

ghost use Rattle.std.specs.Prelude.{IfOk, string_bytes, OnOk};
ghost use Rattle.script.specs.Scripts.{commands, text_left};
ghost use Rattle.fullscan.specs.Runs.{weigh, join};
ghost use Rattle.session.specs.Sessions.{Prints, Told, ToldLines};

use measure::{Block, Damped, Measure, Peak, Square};
use reader::replay;
use samples::Refusal;
use script::{MeasureKind, Script, Unreadable};
use std::alloc::{AllocError, Global};

mod lines;
mod printing;
#[cfg(test)]
mod tests;

use lines::{calls, read};
use printing::{put_lines, put_refusal};

// What is printed for a script: a line for each of its lines, up to the first where that names no measure.
pub fn answer(heap: Global, text: &[u8]) -> Result<String, AllocError>
    ensures { IfOk result (λ s. Told text.now (string_bytes s)) }
{
    let mut out = String::new(heap);
    match Script::open(text) {
        Ok((kind, script)) => {
            writeln!(out, "M")?;
            answer_by(heap, kind, script, &mut out)?;
        }
        Err(Unreadable) => put_refusal(&mut out, Refusal::Unreadable)?,
    }
    Ok(out)
}

// Answers the lines of a script by the measure that its first line names.
fn answer_by(
    heap: Global,
    kind: MeasureKind,
    script: Script,
    out: &mut String,
) -> Result<(), AllocError>
    ensures { OnOk result (Prints (ToldLines (weigh kind) (join kind) (commands (text_left script.entry))) (string_bytes out.old) (string_bytes out.new)) }
{
    // Each measure is a type: so no gap is weighed by a call that is looked up while the program runs.
    match kind {
        MeasureKind::Block => answer_lines(heap, Block, script, out),
        MeasureKind::Square => answer_lines(heap, Square, script, out),
        MeasureKind::Peak => answer_lines(heap, Peak, script, out),
        MeasureKind::Damped => answer_lines(heap, Damped, script, out),
    }
}

// Makes the calls of the lines on a new reader, and prints the answers.
fn answer_lines<M: Measure + Drop>(
    heap: Global,
    measure: M,
    script: Script,
    out: &mut String,
) -> Result<(), AllocError>
    ensures { OnOk result (Prints (ToldLines (M.weighed measure) (M.joined measure) (commands (text_left script.entry))) (string_bytes out.old) (string_bytes out.new)) }
{
    let lines = read(heap, script)?;
    let calls = calls(heap, &lines)?;
    let (answers, _) = replay(heap, measure, &calls)?;
    put_lines(out, &lines, &answers)
}
