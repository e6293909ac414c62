// Loading: what is taken and what is refused, as oracle/faults.py says of the same files.
use super::{load, write};
use field::Field;
use std::process::Abort;
use std::test::Fail;

// A file with every kind of record: six samples in a corner, so that node 0 is a shrink and its core a split.
const LEN: usize = 324;

const SAMPLES_AT: usize = 0;

const NODES_AT: usize = 120;

const TRAILER_AT: usize = 310;

fn corner() -> Result<Field, Fail> {
    let mut field = Field::new();
    let samples = [(2, 0), (5, 1), (9, 2), (17, 7), (80, 2), (200, 3)];
    for (i, (slot, fibre)) in samples.into_iter().enumerate() {
        let i = i as u16;
        field.admit(slot, fibre, &[640 + i, 700 + i, 3, 0, 0, 0, 0, 1023])?;
    }
    field.rebuild();
    Ok(field)
}

fn file_of_corner() -> Result<[u8; LEN], Fail> {
    let mut file = [0; LEN];
    write(&corner()?, &mut file)?;
    Ok(file)
}

// 100 times the check and the record, or 0 for a file that is taken.
fn answer(file: &[u8]) -> u32 {
    let mut field = Field::new();
    match load(&mut field, file) {
        Ok(()) => 0,
        Err(fault) => 100 * u32::from(u8::from(fault.check)) + u32::from(fault.record),
    }
}

// A byte changed: where, to what, and the answer. For each check the first, a middle and the last record that can fail it.
const FAULTS: [(usize, u8, u32); 24] = [
    (TRAILER_AT + 12, 0x36, 100),
    (TRAILER_AT + 13, 0x46, 100),
    (TRAILER_AT, 5, 200),
    (TRAILER_AT + 3, 4, 200),
    (TRAILER_AT + 4, 180, 200),
    (TRAILER_AT + 8, 190, 200),
    (SAMPLES_AT + 1, 9, 300),
    (SAMPLES_AT + 40, 81, 303),
    (SAMPLES_AT + 80, 255, 305),
    (NODES_AT, 0, 400),
    (NODES_AT + 76, 3, 402),
    (NODES_AT + 152, 3, 404),
    (NODES_AT + 2, 0, 500),
    (NODES_AT + 4, 2, 502),
    (NODES_AT + 152, 1, 504),
    (NODES_AT, 1, 600),
    (NODES_AT + 38, 2, 601),
    (SAMPLES_AT + 2, 0, 700),
    (SAMPLES_AT + 62, 0, 703),
    (SAMPLES_AT + 102, 0, 705),
    (SAMPLES_AT + 1, 1, 800),
    (NODES_AT + 60, 0, 801),
    (NODES_AT + 98, 0, 802),
    (NODES_AT + 174, 1, 804),
];

#[test]
fn one_byte_changed(rt: HostRuntime) -> Result<(), Fail> {
    let file = file_of_corner()?;
    assert_eq!(rt; answer(&file), 0);
    for (at, byte, says) in FAULTS {
        assert!(rt; at < LEN);
        let mut changed = file;
        changed[at] = byte;
        assert_eq!(rt; answer(&changed), says);
    }
    Ok(())
}

// Each fault of this list has a lower number than those behind it.
const RISING: [(usize, u8, u32); 8] = [
    (TRAILER_AT + 12, 0, 100),
    (TRAILER_AT, 9, 200),
    (SAMPLES_AT + 81, 9, 304),
    (NODES_AT, 9, 400),
    (NODES_AT + 2, 2, 501),
    (NODES_AT + 38, 2, 601),
    (SAMPLES_AT + 102, 0, 705),
    (NODES_AT + 174, 1, 804),
];

#[test]
fn of_two_faults_the_lower_number_is_named(rt: HostRuntime) -> Result<(), Fail> {
    let file = file_of_corner()?;
    for (i, (at, byte, says)) in RISING.into_iter().enumerate() {
        for (other, with, _) in RISING.into_iter().skip(i + 1) {
            assert!(rt; at < LEN);
            assert!(rt; other < LEN);
            let mut changed = file;
            changed[other] = with;
            changed[at] = byte;
            assert_eq!(rt; answer(&changed), says);
        }
    }
    Ok(())
}

// Every byte of the file changed by each of four flips, as one sum of the answers.
#[test]
fn every_byte_flipped(rt: HostRuntime) -> Result<(), Fail> {
    let file = file_of_corner()?;
    let mut sum: u32 = 0;
    for at in 0..LEN {
        for flip in [1, 2, 128, 255] {
            let mut changed = file;
            changed[at] ^= flip;
            sum = sum.wrapping_mul(31).wrapping_add(answer(&changed));
        }
    }
    assert_eq!(rt; sum, 116938786);
    Ok(())
}

// The first `len` bytes of a file with eight more behind it are taken where they are the whole file.
fn check_lengths(rt: &impl Abort, longer: &[u8], whole: usize) {
    for len in 0..=longer.len() {
        assert_eq!(rt; answer(&longer[..len]) == 0, len == whole);
    }
}

#[test]
fn cut_and_extended(rt: HostRuntime) -> Result<(), Fail> {
    let mut longer = [0; 60];
    assert_eq!(rt; write(&Field::new(), &mut longer), Ok(52));
    check_lengths(&rt, &longer, 52);
    let mut longer = [0; LEN + 8];
    assert_eq!(rt; write(&corner()?, &mut longer), Ok(LEN));
    check_lengths(&rt, &longer, LEN);
    Ok(())
}

// Room for any of the files written here.
const ROOM: usize = 1000;

// A field written, loaded in place of another and written again gives the same bytes.
fn check_round(rt: &impl Abort, field: &Field) -> Result<(), Fail> {
    let mut file = [0; ROOM];
    let len = write(field, &mut file)?;
    let mut loaded = corner()?;
    assert_eq!(rt; load(&mut loaded, &file[..len]), Ok(()));
    let mut again = [0; ROOM];
    assert_eq!(rt; write(&loaded, &mut again), Ok(len));
    assert_eq!(rt; again, file);
    Ok(())
}

#[test]
fn round_trips(rt: HostRuntime) -> Result<(), Fail> {
    check_round(&rt, &Field::new())?;
    let mut field = corner()?;
    check_round(&rt, &field)?;
    field.withdraw(17)?;
    check_round(&rt, &field)?;
    // It belongs into the rim, and no box changes.
    field.admit(255, 4, &[1023, 0, 0, 0, 0, 0, 0, 0])?;
    check_round(&rt, &field)?;
    field.rebuild();
    check_round(&rt, &field)
}

#[test]
fn a_refused_file_changes_nothing(rt: HostRuntime) -> Result<(), Fail> {
    let file = file_of_corner()?;
    let mut changed = file;
    changed[NODES_AT + 174] = 1;
    let mut field = corner()?;
    assert!(rt; load(&mut field, &changed).is_err());
    let mut again = [0; LEN];
    write(&field, &mut again)?;
    assert_eq!(rt; again, file);
    Ok(())
}
