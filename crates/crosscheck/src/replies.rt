// The answer to one line of a script.
ghost use Rattle.crosscheck.specs.Replies.{Judged, Replies};

use super::answer::Answer;
use field::Field;
use measure::Measure;
use samples::{Refusal, exact_verdict};
use script::{Command, Query, Unreadable};
use walk::{Walk, ask, search};

// Carries out a line on the field. The field is lent to be changed, the walk as room for one.
pub(crate) fn reply<M: Measure>(
    measure: &M,
    field: &mut Field,
    walk: &mut Walk,
    line: Result<Command, Unreadable>,
) -> Result<Answer, Refusal>
    ensures { Replies (M.weighed measure.now) (M.joined measure.now) field.old line result field.new }
{
    match line.map_err(|_| Refusal::Unreadable)? {
        Command::Admit {
            slot,
            fibre,
            values,
        } => {
            field.admit(slot, fibre, &values)?;
            Ok(Answer::Admitted)
        }
        Command::Withdraw { slot } => {
            field.withdraw(slot)?;
            Ok(Answer::Withdrawn)
        }
        Command::Rebuild => {
            field.rebuild();
            Ok(Answer::Rebuilt)
        }
        Command::Query(query) => judge(measure, field, walk, &query),
    }
}

// Answers a question by the walk, and then by the full scan.
fn judge<M: Measure>(
    measure: &M,
    field: &Field,
    walk: &mut Walk,
    query: &Query,
) -> Result<Answer, Refusal>
    ensures { Judged (M.weighed measure.now) (M.joined measure.now) field.now query.now result }
{
    let question = ask(field, &query.reading, query.k, query.num, query.den)?;
    let walked = search(measure, field, &question, walk)?;
    let scanned = exact_verdict(measure, field.slots(), &query.reading, query.k)?;
    Ok(Answer::Judged { walked, scanned })
}
