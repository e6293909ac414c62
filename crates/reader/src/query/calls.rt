// The calls of a query, and the one that closes it.
ghost use Rattle.std.specs.Prelude.{◌≡◌, Ok};
ghost use Rattle.histories.specs.Queries.{goes_on, stage, step_answer, steps_after, Until, span, witness, outcome};
ghost use Rattle.histories.specs.declared.Answer.TheVariants.{Spanned, Witnessed, Closed};
ghost use Rattle.histories.specs.declared.Call.TheVariants.{Span, Witness, Close};
ghost use Rattle.reader.specs.Rights.{Right};
ghost use Rattle.walk.specs.Lists.{end_of};
ghost use Rattle.reader.specs.Views.{field_in, steps_in, for_query, Stays};

use super::Query;
use crate::reader::Reader;
use histories::{Outcome, Progress};
use measure::Measure;
use samples::Refusal;
use walk::{End, Walk};

impl<M: Measure> Query<M> {
    // Opens one box, and says whether the query goes on after it. Refused where the query has ended, which then holds what it held.
    pub fn step(&mut self) -> Result<Progress, Refusal>
        ensures answer { result ≡ for_query step_answer self.old }
        ensures steps { steps_in self.new ≡ for_query steps_after self.old }
        ensures stays { Stays self.old self.new }
    {
        let Ok(question) = self.question else {
            return Err(Refusal::AfterTheEnd);
        };
        if self.reader.store.walk.end() != End::Going {
            return Err(Refusal::AfterTheEnd);
        }
        self.reader.store.step(&self.reader.measure, &question);
        if self.reader.store.walk.end() == End::Going {
            Ok(Progress::Going)
        } else {
            Ok(Progress::Ended)
        }
    }

    // Steps until the query has ended.
    pub fn finish(&mut self)
        ensures steps { for_query Until self.old (steps_in self.new) }
        ensures stays { Stays self.old self.new }
    {
        while let Ok(Progress::Going) = self.step() {}
    }

    // The two bounds of the k-th nearest weight. None where the question was refused.
    pub fn span(&self) -> Option<(u32, u32)>
        ensures value { result ≡ for_query span self.now }
        ensures right { for_query Right self.now Span (Spanned result) }
    {
        self.question.ok()?;
        Some(self.reader.store.walk.span())
    }

    // The slot of the sample at a place of the list, counted from 0. None where the walk has not ended nearby, or there is no such place.
    pub fn witness(&self, place: u16) -> Option<u8>
        ensures value { result ≡ for_query witness self.now place }
        ensures right { for_query Right self.now (Witness place) (Witnessed result) }
    {
        let question = self.question.ok()?;
        self.reader.store.walk.witness(&question, place)
    }

    // Gives the reader back, with its samples and its tree, and says how the query came out.
    pub fn close(self) -> (Reader<M>, Outcome)
        ensures outcome { result.1 ≡ outcome (for_query stage self) (steps_in self) }
        ensures right { for_query Right self Close (Closed result.1) }
        ensures field { field_in result.0 ≡ field_in self.reader }
        ensures measure { result.0.measure ≡ self.reader.measure }
    {
        let Query { reader, question } = self;
        let outcome = match question {
            Ok(_) => came_out(&reader.store.walk),
            Err(refusal) => Outcome::Refused(refusal),
        };
        (reader, outcome)
    }
}

// How a query comes out by its walk.
fn came_out(walk: &Walk) -> Outcome
    ensures { result ≡ outcome (Ok (end_of walk.now.end)) walk.now.steps }
{
    let steps = walk.steps();
    match walk.end() {
        End::Going => Outcome::Abandoned,
        End::Settled(fibre) => Outcome::Settled { fibre, steps },
        End::Nearby(fibre) => Outcome::Nearby { fibre, steps },
        End::Counted(fibre) => Outcome::Counted { fibre, steps },
    }
}
