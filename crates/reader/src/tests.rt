// The worked examples, call by call and as one history, with the values that the papers give.
use super::{Held, Query, Reader, replay};
use fieldfile::{Check, Fault};
use histories::{Answer, Call, Outcome, Progress};
use measure::{Block, Measure};
use samples::Refusal;
use std::alloc::AllocError;
use std::process::Abort;
use std::test::Fail;

fn at(value: u16) -> [u16; 8] {
    [value, 0, 0, 0, 0, 0, 0, 0]
}

// Slots 0 to 4 with these fibres and values in band 0, and the tree drawn over them.
fn filled(
    rt: &impl AllocGlobal,
    fibres: [u16; 5],
    values: [u16; 5],
) -> Result<Reader<Block>, Fail> {
    let mut reader = Reader::new(rt.alloc(), Block)?;
    for (slot, (fibre, value)) in fibres.into_iter().zip(values).enumerate() {
        reader.admit(slot as u16, fibre, &at(value))?;
    }
    reader.rebuild();
    Ok(reader)
}

fn first_example(rt: &impl AllocGlobal) -> Result<Reader<Block>, Fail> {
    filled(rt, [1, 1, 2, 2, 3], [10, 12, 600, 610, 14])
}

fn second_example(rt: &impl AllocGlobal) -> Result<Reader<Block>, Fail> {
    filled(rt, [1, 2, 1, 2, 3], [10, 12, 610, 600, 14])
}

#[test]
fn settled_at_step_2(rt: HostRuntime) -> Result<(), Fail> {
    let mut query = first_example(&rt)?.open(&at(11), 3, 1, 1);
    assert_eq!(rt; query.span(), Some((0, 8173)));
    assert_eq!(rt; query.step(), Ok(Progress::Going));
    assert_eq!(rt; query.span(), Some((0, 7661)));
    assert_eq!(rt; query.step(), Ok(Progress::Ended));
    assert_eq!(rt; query.span(), Some((3, 3)));
    assert_eq!(rt; query.step(), Err(Refusal::AfterTheEnd));
    assert_eq!(rt; query.span(), Some((3, 3)));
    assert_eq!(rt; query.witness(0), None);
    let (_, outcome) = query.close();
    assert_eq!(rt; outcome, Outcome::Settled { fibre: 1, steps: 2 });
    Ok(())
}

#[test]
fn nearby_at_step_2(rt: HostRuntime) -> Result<(), Fail> {
    let mut query = second_example(&rt)?.open(&at(11), 4, 17, 1);
    query.finish();
    assert_eq!(rt; query.witness(0), Some(0));
    assert_eq!(rt; query.witness(1), Some(1));
    assert_eq!(rt; query.witness(2), Some(4));
    assert_eq!(rt; query.witness(3), Some(2));
    assert_eq!(rt; query.witness(4), None);
    let (_, outcome) = query.close();
    assert_eq!(rt; outcome, Outcome::Nearby { fibre: 1, steps: 2 });
    Ok(())
}

#[test]
fn settled_at_step_3(rt: HostRuntime) -> Result<(), Fail> {
    let mut query = second_example(&rt)?.open(&at(11), 4, 16, 1);
    query.finish();
    assert_eq!(rt; query.witness(0), None);
    let (_, outcome) = query.close();
    assert_eq!(rt; outcome, Outcome::Settled { fibre: 2, steps: 3 });
    Ok(())
}

fn check_refused<M: Measure>(rt: &impl Abort, mut query: Query<M>, refusal: Refusal) -> Reader<M> {
    assert_eq!(rt; query.step(), Err(Refusal::AfterTheEnd));
    query.finish();
    assert_eq!(rt; query.span(), None);
    assert_eq!(rt; query.witness(0), None);
    let (reader, outcome) = query.close();
    assert_eq!(rt; outcome, Outcome::Refused(refusal));
    reader
}

#[test]
fn questions_out_of_range(rt: HostRuntime) -> Result<(), Fail> {
    let mut reader = first_example(&rt)?;
    reader = check_refused(&rt, reader.open(&at(11), 6, 1, 1), Refusal::TooFewSamples);
    reader = check_refused(&rt, reader.open(&at(11), 33, 1, 1), Refusal::OutOfRange);
    reader = check_refused(&rt, reader.open(&at(11), 0, 1, 1), Refusal::OutOfRange);
    reader = check_refused(&rt, reader.open(&at(1024), 6, 1, 1), Refusal::OutOfRange);
    reader = check_refused(&rt, reader.open(&at(11), 3, 1, 2), Refusal::OutOfRange);
    reader = check_refused(&rt, reader.open(&at(11), 3, 1, 0), Refusal::OutOfRange);
    let (_, outcome) = reader.open(&at(11), 3, 65535, 1).close();
    assert_eq!(rt; outcome, Outcome::Abandoned);
    Ok(())
}

#[test]
fn file_sizes(rt: HostRuntime) -> Result<(), Fail> {
    let mut reader = Reader::new(rt.alloc(), Block)?;
    let mut small = [7; 53];
    assert_eq!(rt;
        reader.write(&mut small[..51]),
        Err(Refusal::BufferTooSmall)
    );
    assert_eq!(rt; reader.write(&mut small), Ok(52));
    assert_eq!(rt; small[52], 7);
    let mut file = [0; 228];
    assert_eq!(rt; first_example(&rt)?.write(&mut file), Ok(228));
    assert_eq!(rt; reader.load(&file), Ok(()));
    assert_eq!(rt; reader.admit(4, 1, &at(0)), Err(Refusal::SlotFull));
    assert_eq!(rt; reader.withdraw(4), Ok(()));
    let layout = Fault {
        check: Check::Layout,
        record: 0,
    };
    assert_eq!(rt; reader.load(&file[1..]), Err(layout));
    assert_eq!(rt; reader.withdraw(4), Err(Refusal::SlotEmpty));
    assert_eq!(rt; reader.withdraw(256), Err(Refusal::OutOfRange));
    Ok(())
}

// The answer at a place of a list.
fn is_misplaced(answers: &[Answer], at: usize) -> bool {
    matches!(answers.get(at), Some(Answer::Misplaced))
}

#[test]
fn history_with_calls_out_of_place(rt: HostRuntime) -> Result<(), AllocError> {
    let admit = |slot, fibre, value| Call::Admit {
        slot,
        fibre,
        values: at(value),
    };
    let calls = [
        Call::Step,
        admit(0, 1, 10),
        admit(1, 2, 600),
        Call::Open {
            reading: at(11),
            k: 1,
            num: 1,
            den: 1,
        },
        Call::Withdraw(0),
        Call::Rebuild,
        Call::Finish,
        Call::Close,
        Call::Close,
        Call::Write(90),
    ];
    let (answers, held) = replay(rt.alloc(), Block, &calls)?;
    let answers = answers.as_slice();
    assert_eq!(rt; answers.len(), 10);
    assert!(rt; is_misplaced(answers, 0) && is_misplaced(answers, 4));
    assert!(rt; is_misplaced(answers, 5) && is_misplaced(answers, 8));
    assert!(rt;
        matches!(
            answers[7],
            Answer::Closed(Outcome::Settled { fibre: 1, steps: 1 })
        )
    );
    assert!(rt; matches!(answers[9], Answer::Written(Err(Refusal::BufferTooSmall), _)));
    assert!(rt; matches!(held, Held::Resting(_)));
    Ok(())
}
