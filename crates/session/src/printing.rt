// How the answers to calls are printed, line by line.
ghost use Rattle.std.specs.Prelude.{◌≡◌, [], ◌∷◌, ◌++◌, string_bytes, OnOk};
ghost use Rattle.std.specs.Slice.Iter.{iter_rest};
ghost use Rattle.session.specs.Sessions.{closed, line_of, refused, Takes, told};

use histories::{Answer, Outcome};
use samples::Refusal;
use script::{Command, Unreadable};
use std::alloc::AllocError;
use std::slice;

// Prints the answer to the last call of each line.
pub(crate) fn put_lines(
    out: &mut String,
    lines: &[Result<Command, Unreadable>],
    answers: &[Answer],
) -> Result<(), AllocError>
    ensures { OnOk result (string_bytes out.new ≡ string_bytes out.old ++ told lines.now answers.now) }
{
    let mut answers = answers.iter();
    for line in lines {
        match line {
            Ok(command) => match last_answer(command, &mut answers) {
                Some(answer) => put(out, answer)?,
                None => break,
            },
            Err(Unreadable) => put_refusal(out, Refusal::Unreadable)?,
        }
    }
    Ok(())
}

// The answer to the last call of a line: that of a question comes after those of its opening and its steps.
fn last_answer<'a>(command: &Command, answers: &mut slice::Iter<'a, Answer>) -> Option<&'a Answer>
    ensures { Takes command.now (iter_rest answers.old) result (iter_rest answers.new) }
{
    if let Command::Query(_) = command {
        answers.next()?;
        answers.next()?;
    }
    answers.next()
}

// Prints an answer on a line of its own.
fn put(out: &mut String, answer: &Answer) -> Result<(), AllocError>
    ensures { OnOk result (string_bytes out.new ≡ string_bytes out.old ++ (line_of answer.now ++ 10 ∷ [])) }
{
    match answer {
        Answer::Admitted(Ok(())) => writeln!(out, "A"),
        Answer::Withdrawn(Ok(())) => writeln!(out, "W"),
        Answer::Rebuilt => writeln!(out, "R"),
        Answer::Admitted(Err(refusal)) | Answer::Withdrawn(Err(refusal)) => put_refusal(
            out, *refusal,
        ),
        Answer::Closed(outcome) => put_outcome(out, *outcome),
        // No other answer ends a line of a script.
        _ => writeln!(out),
    }
}

// Prints how a question came out: the fibre, the steps and a letter for the end, or why it was refused.
fn put_outcome(out: &mut String, outcome: Outcome) -> Result<(), AllocError>
    ensures { OnOk result (string_bytes out.new ≡ string_bytes out.old ++ (closed outcome ++ 10 ∷ [])) }
{
    match outcome {
        Outcome::Settled { fibre, steps } => writeln!(out, "Q {fibre} {steps} S"),
        Outcome::Nearby { fibre, steps } => writeln!(out, "Q {fibre} {steps} N"),
        Outcome::Counted { fibre, steps } => writeln!(out, "Q {fibre} {steps} C"),
        Outcome::Refused(refusal) => put_refusal(out, refusal),
        // No script leaves a walk before its end.
        Outcome::Abandoned => writeln!(out),
    }
}

// Prints the number of a refusal.
pub(crate) fn put_refusal(out: &mut String, refusal: Refusal) -> Result<(), AllocError>
    ensures { OnOk result (string_bytes out.new ≡ string_bytes out.old ++ (refused refusal ++ 10 ∷ [])) }
{
    writeln!(out, "E {}", u8::from(refusal))
}
