// The worked examples, walked: five samples in band 0, under block.
use super::{End, Outcome, Walk, ask, search};
use field::Field;
use measure::{BANDS, Block};
use samples::Refusal;
use std::process::Abort;
use std::test::Fail;

fn reading(value: u16) -> [u16; BANDS] {
    [value, 0, 0, 0, 0, 0, 0, 0]
}

// A field with these samples in slots 0 to 4, by fibre and value in band 0, rebuilt.
fn field(samples: [(u16, u16); 5]) -> Result<Field, Fail> {
    let mut field = Field::new();
    for (slot, (fibre, value)) in samples.into_iter().enumerate() {
        field.admit(slot as u16, fibre, &reading(value))?;
    }
    field.rebuild();
    Ok(field)
}

#[test]
fn settled_at_step_2(rt: HostRuntime) -> Result<(), Fail> {
    let field = field([(1, 10), (1, 12), (2, 600), (2, 610), (3, 14)])?;
    let question = ask(&field, &reading(11), 3, 1, 1)?;
    let mut walk = Walk::new();
    let outcome = search(&Block, &field, &question, &mut walk)?;
    assert_eq!(rt; outcome, Outcome::Settled { fibre: 1, steps: 2 });
    assert_eq!(rt; walk.witness(&question, 0), None);
    Ok(())
}

#[test]
fn nearby_at_ratio_17(rt: HostRuntime) -> Result<(), Fail> {
    let field = field([(1, 10), (2, 12), (1, 610), (2, 600), (3, 14)])?;
    let question = ask(&field, &reading(11), 4, 17, 1)?;
    let mut walk = Walk::new();
    let outcome = search(&Block, &field, &question, &mut walk)?;
    assert_eq!(rt; outcome, Outcome::Nearby { fibre: 1, steps: 2 });
    for (place, slot) in [0, 1, 4, 2].into_iter().enumerate() {
        assert_eq!(rt; walk.witness(&question, place as u16), Some(slot));
    }
    assert_eq!(rt; walk.witness(&question, 4), None);
    Ok(())
}

#[test]
fn settled_at_ratio_16(rt: HostRuntime) -> Result<(), Fail> {
    let field = field([(1, 10), (2, 12), (1, 610), (2, 600), (3, 14)])?;
    let question = ask(&field, &reading(11), 4, 16, 1)?;
    let mut walk = Walk::new();
    let outcome = search(&Block, &field, &question, &mut walk)?;
    assert_eq!(rt; outcome, Outcome::Settled { fibre: 2, steps: 3 });
    assert_eq!(rt; walk.end(), End::Settled(2));
    assert_eq!(rt; walk.steps(), 3);
    Ok(())
}

#[test]
fn refused_out_of_range_first(rt: HostRuntime) -> Result<(), Fail> {
    let field = field([(1, 10), (1, 12), (2, 600), (2, 610), (3, 14)])?;
    assert_eq!(rt;
        ask(&field, &reading(11), 33, 1, 1).err(),
        Some(Refusal::OutOfRange)
    );
    assert_eq!(rt;
        ask(&field, &reading(1024), 6, 1, 1).err(),
        Some(Refusal::OutOfRange)
    );
    assert_eq!(rt;
        ask(&field, &reading(11), 3, 1, 2).err(),
        Some(Refusal::OutOfRange)
    );
    assert_eq!(rt;
        ask(&field, &reading(11), 3, 1, 0).err(),
        Some(Refusal::OutOfRange)
    );
    assert_eq!(rt;
        ask(&field, &reading(11), 6, 1, 1).err(),
        Some(Refusal::TooFewSamples)
    );
    Ok(())
}
