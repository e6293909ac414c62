// Any list of calls on one reader.
ghost use Rattle.std.specs.Prelude.{IfOk};
ghost use Rattle.histories.specs.Promise.{Promised};
ghost use Rattle.reader.specs.Views.{state_of};

use super::held::{Held, serve};
use super::reader::Reader;
use histories::{Answer, Call};
use measure::Measure;
use std::alloc::{AllocError, Global};

// Makes a reader and carries out one call after the other: what each answers, and what is left.
pub fn replay<M: Measure>(
    heap: Global,
    measure: M,
    calls: &[Call],
) -> Result<(Vec<Answer>, Held<M>), AllocError>
where
    M: Drop,
    ensures { IfOk result (λ r. Promised (M.weighed measure) (M.joined measure) calls.now r.0.items (state_of r.1)) }
{
    let mut answers = Vec::with_capacity(heap, calls.len())?;
    let mut held = Held::Resting(Reader::new(heap, measure)?);
    for call in calls {
        let (next, answer) = serve(heap, held, *call)?;
        answers.push(answer)?;
        held = next;
    }
    Ok((answers, held))
}
