// A query, which holds its reader until it is closed.
ghost use Rattle.reader.specs.Walked.{Walked, walked_prop};

use super::reader::Reader;
use measure::Measure;
use samples::Refusal;
use walk::Question;

mod calls;

// A question that is refused gives a query all the same, which has ended with its refusal.
#[derive(Drop)]
pub struct Query<M: Measure> {
    pub(crate) reader: Reader<M>,
    pub(crate) question: Result<Question, Refusal>,
    ghost walked: { Walked (M.weighed reader.measure) (M.joined reader.measure) reader.store.value.field question reader.store.value.walk } by { walked_prop (M.weighed reader.measure) (M.joined reader.measure) reader.store.value.field question reader.store.value.walk },
}
