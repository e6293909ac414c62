// A reader at rest or the query that holds it, and any call on either.
ghost use Rattle.std.specs.Prelude.{◌≡◌, IfOk};
ghost use Rattle.histories.specs.Calls.{resting, AtRest};
ghost use Rattle.histories.specs.declared.Call.TheVariants.{Write};
ghost use Rattle.reader.specs.Views.{field_in, Serves};

use super::query::Query;
use super::reader::Reader;
use histories::Answer;
use histories::Call::{
    self, Admit, Close, Finish, Load, Open, Rebuild, Span, Step, Withdraw, Witness, Write,
};
use measure::Measure;
use std::alloc::{AllocError, Global};

#[derive(Drop)]
pub enum Held<M: Measure> {
    Resting(Reader<M>),
    Querying(Query<M>),
}

// Carries out a call. One that is out of its place changes nothing. Only a write allocates, for its buffer.
pub fn serve<M: Measure>(
    heap: Global,
    held: Held<M>,
    call: Call,
) -> Result<(Held<M>, Answer), AllocError>
where
    M: Drop,
    ensures { IfOk result (λ r. Serves held call.entry r.1 r.0) }
{
    match held {
        Held::Resting(reader) => at_rest(heap, reader, call),
        Held::Querying(query) => Ok(in_query(query, call)),
    }
}

// A call on a reader at rest.
fn at_rest<M: Measure>(
    heap: Global,
    mut reader: Reader<M>,
    call: Call,
) -> Result<(Held<M>, Answer), AllocError>
where
    M: Drop,
    ensures { IfOk result (λ r. Serves (Held.Resting reader) call.entry r.1 r.0) }
{
    let answer = match call {
        Load(file) => Answer::Loaded(reader.load(file)),
        Write(room) => written(heap, &reader, room)?,
        Admit {
            slot,
            fibre,
            values,
        } => Answer::Admitted(reader.admit(slot, fibre, &values)),
        Withdraw(slot) => Answer::Withdrawn(reader.withdraw(slot)),
        Rebuild => {
            reader.rebuild();
            Answer::Rebuilt
        }
        Open {
            reading,
            k,
            num,
            den,
        } => {
            let query = reader.open(&reading, k, num, den);
            return Ok((Held::Querying(query), Answer::Opened));
        }
        Step | Finish | Span | Witness(_) | Close => Answer::Misplaced,
    };
    Ok((Held::Resting(reader), answer))
}

// Writes the file of a reader into a buffer of so many zeros.
fn written<M: Measure>(heap: Global, reader: &Reader<M>, room: usize) -> Result<Answer, AllocError>
    ensures { IfOk result (λ a. AtRest (M.weighed reader.now.measure) (M.joined reader.now.measure) (field_in reader.now) (Write room) a (resting (field_in reader.now))) }
{
    let mut out = vec![in heap; 0; room]?;
    let len = reader.write(&mut out);
    Ok(Answer::Written(len, out))
}

// A call on the query that holds the reader.
fn in_query<M: Measure>(mut query: Query<M>, call: Call) -> (Held<M>, Answer)
    ensures { Serves (Held.Querying query) call.entry result.1 result.0 }
{
    let answer = match call {
        Step => Answer::Stepped(query.step()),
        Finish => {
            query.finish();
            Answer::Finished
        }
        Span => Answer::Spanned(query.span()),
        Witness(place) => Answer::Witnessed(query.witness(place)),
        Close => {
            let (reader, outcome) = query.close();
            return (Held::Resting(reader), Answer::Closed(outcome));
        }
        Load(_) | Write(_) | Admit { .. } | Withdraw(_) | Rebuild | Open { .. } =>
            Answer::Misplaced,
    };
    (Held::Querying(query), answer)
}
