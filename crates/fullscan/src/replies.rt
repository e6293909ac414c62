// The answer to one line of a script.
ghost use Rattle.std.specs.Prelude.{◌≡◌};
ghost use Rattle.samples.specs.Slots.{table};
ghost use Rattle.fullscan.specs.Answers.{reply_rule, judged};

use super::answer::Answer;
use measure::Measure;
use samples::{Refusal, Slots, exact_verdict};
use script::{Command, Query, Unreadable};

// The least number that a ratio has.
const MIN_DEN: u16 = 1;

// Carries out a line on the slots, and says what is printed for it. The slots are lent to be changed, the measure to weigh.
pub fn reply<M: Measure>(
    measure: &M,
    slots: &mut Slots,
    line: Result<Command, Unreadable>,
) -> Result<Answer, Refusal>
    ensures { (table slots.new, result) ≡ reply_rule (M.weighed measure.now) (M.joined measure.now) (table slots.old) line }
{
    // Neither type is this crate's, so that no `From` between the two can stand here.
    match line.map_err(|_| Refusal::Unreadable)? {
        Command::Admit {
            slot,
            fibre,
            values,
        } => {
            slots.admit(slot, fibre, &values)?;
            Ok(Answer::Admitted)
        }
        Command::Withdraw { slot } => {
            slots.withdraw(slot)?;
            Ok(Answer::Withdrawn)
        }
        Command::Rebuild => Ok(Answer::Rebuilt),
        Command::Query(query) => judge(measure, slots, &query),
    }
}

// The exact verdict, if the ratio can be asked for. Measure and slots come as `reply` has them: a struct of the two would be
// made only to be taken apart.
fn judge<M: Measure>(measure: &M, slots: &Slots, query: &Query) -> Result<Answer, Refusal>
    ensures { result ≡ judged (M.weighed measure.now) (M.joined measure.now) (table slots.now) query.now }
{
    if query.den < MIN_DEN || query.num < query.den {
        return Err(Refusal::OutOfRange);
    }
    let fibre = exact_verdict(measure, slots, &query.reading, query.k)?;
    Ok(Answer::Verdict(fibre))
}
