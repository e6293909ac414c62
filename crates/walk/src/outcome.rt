// The whole walk of a question over a field.
ghost use Rattle.std.specs.Prelude.{◌≡◌, ◌≤◌, ◌<◌, MatchResult};
ghost use Rattle.field.specs.Fields.{holds};
ghost use Rattle.samples.specs.Verdict.{samples};
ghost use Rattle.samples.specs.declared.refusal.Refusal.TheVariants.{TooFewSamples};
ghost use Rattle.walk.specs.Asked.{asked_of};
ghost use Rattle.walk.specs.Outcomes.{Answers};

use super::question::Question;
use super::walk::{End, Walk};
use field::Field;
use measure::Measure;
use samples::Refusal;

// How a walk ended, with the fibre that it answers and the steps that it made.
#[derive(Clone, Copy, PartialEq, Eq, Debug)]
pub enum Outcome {
    Settled { fibre: u8, steps: u16 },
    Nearby { fibre: u8, steps: u16 },
    Counted { fibre: u8, steps: u16 },
}

// Walks until the answer cannot change. Refused where k is above the samples held.
pub fn search<M: Measure>(
    measure: &M,
    field: &Field,
    question: &Question,
    walk: &mut Walk,
) -> Result<Outcome, Refusal>
    ensures { MatchResult result (λ o. Answers (M.weighed measure.now) (M.joined measure.now) field.now (asked_of question.now) o walk.new) (λ e. (e ≡ TooFewSamples) × (samples (holds field.now) < question.now.k)) }
{
    if question.k() > field.slots().count() {
        return Err(Refusal::TooFewSamples);
    }
    walk.open(measure, field, question);
    loop {
        let steps = walk.steps();
        match walk.end() {
            End::Going => walk.step(measure, field, question),
            End::Settled(fibre) => return Ok(Outcome::Settled { fibre, steps }),
            End::Nearby(fibre) => return Ok(Outcome::Nearby { fibre, steps }),
            End::Counted(fibre) => return Ok(Outcome::Counted { fibre, steps }),
        }
    }
}
