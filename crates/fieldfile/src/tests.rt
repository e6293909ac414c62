// Files of fields, with the bytes that the reference in oracle/ writes.
use super::{Check, Outline, Record, read_outline, record_at, write};
use field::Field;
use samples::Refusal;
use std::process::Abort;
use std::test::Fail;

// The five samples of the example, its three nodes and its trailer.
const SAMPLES: [[u8; 20]; 5] = [
    [0, 1, 1, 0, 10, 0, 0, 0, 0, 0, 0, 0, 0, 0, 0, 0, 0, 0, 0, 0],
    [1, 1, 1, 0, 12, 0, 0, 0, 0, 0, 0, 0, 0, 0, 0, 0, 0, 0, 0, 0],
    [2, 2, 2, 0, 88, 2, 0, 0, 0, 0, 0, 0, 0, 0, 0, 0, 0, 0, 0, 0],
    [3, 2, 2, 0, 98, 2, 0, 0, 0, 0, 0, 0, 0, 0, 0, 0, 0, 0, 0, 0],
    [4, 3, 1, 0, 14, 0, 0, 0, 0, 0, 0, 0, 0, 0, 0, 0, 0, 0, 0, 0],
];

const NODES: [[u8; 38]; 3] = [
    [
        1, 0, 1, 0, 2, 0, 0, 0, 0, 0, 0, 0, 0, 0, 0, 0, 0, 0, 0, 0, 0, 0, 0, 0, 2, 0, 2, 0, 1, 0,
        0, 0, 0, 0, 0, 0, 0, 0,
    ],
    [
        0, 1, 0, 0, 0, 0, 0, 0, 0, 0, 0, 0, 0, 0, 0, 0, 0, 0, 0, 0, 0, 0, 0, 0, 2, 0, 0, 0, 1, 0,
        0, 0, 0, 0, 0, 0, 0, 0,
    ],
    [
        0, 1, 0, 0, 0, 0, 0, 2, 0, 0, 0, 0, 0, 0, 0, 0, 0, 0, 0, 0, 0, 0, 0, 0, 0, 0, 2, 0, 0, 0,
        0, 0, 0, 0, 0, 0, 0, 0,
    ],
];

const TRAILER: [u8; 14] = [5, 0, 3, 0, 114, 0, 0, 0, 214, 0, 0, 0, 70, 54];

fn example() -> Result<Field, Fail> {
    let mut field = Field::new();
    let samples = [(1, 10), (1, 12), (2, 600), (2, 610), (3, 14)];
    for (slot, (fibre, value)) in samples.into_iter().enumerate() {
        field.admit(slot as u16, fibre, &[value, 0, 0, 0, 0, 0, 0, 0])?;
    }
    field.rebuild();
    Ok(field)
}

#[test]
fn example_is_228_bytes(rt: HostRuntime) -> Result<(), Fail> {
    let mut out = [0xAA; 230];
    assert_eq!(rt; write(&example()?, &mut out), Ok(228));
    let mut file = [0xAA; 230];
    file[..100].copy_from_slice(SAMPLES.as_flattened());
    file[100..214].copy_from_slice(NODES.as_flattened());
    file[214..228].copy_from_slice(&TRAILER);
    assert_eq!(rt; out, file);
    Ok(())
}

#[test]
fn empty_field_is_52_bytes(rt: HostRuntime) {
    let mut out = [0xAA; 52];
    assert_eq!(rt; write(&Field::new(), &mut out), Ok(52));
    let trailer = [0, 0, 1, 0, 38, 0, 0, 0, 38, 0, 0, 0, 0x46, 0x36];
    let mut file = [0; 52];
    file[38..].copy_from_slice(&trailer);
    assert_eq!(rt; out, file);
}

#[test]
fn short_buffer_is_kept(rt: HostRuntime) -> Result<(), Fail> {
    let mut out = [0xAA; 227];
    assert_eq!(rt; write(&example()?, &mut out), Err(Refusal::BufferTooSmall));
    assert_eq!(rt; out, [0xAA; 227]);
    Ok(())
}

// A byte of the example's trailer changed: where, to what, and the check that then fails.
const FAULTS: [(usize, u8, Check); 10] = [
    (0, 4, Check::Layout),
    (1, 1, Check::Layout),
    (2, 0, Check::Layout),
    (3, 4, Check::Layout),
    (4, 108, Check::Layout),
    (7, 1, Check::Layout),
    (8, 208, Check::Layout),
    (11, 1, Check::Layout),
    (12, 0x36, Check::Mark),
    (13, 0x46, Check::Mark),
];

#[test]
fn trailers_with_one_byte_changed(rt: HostRuntime) -> Result<(), Fail> {
    let mut file = [0; 228];
    write(&example()?, &mut file)?;
    let outline = Outline {
        samples: 5,
        nodes: 3,
    };
    assert_eq!(rt; read_outline(&file), Ok(outline));
    for (at, byte, fails) in FAULTS {
        assert!(rt; at < 14);
        let mut changed = file;
        changed[214 + at] = byte;
        assert_eq!(rt; read_outline(&changed), Err(fails));
    }
    Ok(())
}

// The last `len` of the bytes that end in the empty field's file, and the first `len` of those that begin with it.
fn check_cut(rt: &impl Abort, file: &[u8; 68], len: usize) -> Result<(), Fail> {
    assert!(rt; len <= 60);
    let at_front = read_outline(&file[60 - len..60]);
    let at_back = read_outline(&file[8..8 + len]);
    if len == 52 {
        let outline = Outline {
            samples: 0,
            nodes: 1,
        };
        assert_eq!(rt; at_front, Ok(outline));
        assert_eq!(rt; at_back, Ok(outline));
        return Ok(());
    }
    let fails = if len < 14 { Check::Mark } else { Check::Layout };
    assert_eq!(rt; at_front, Err(fails));
    assert_eq!(rt; at_back, Err(Check::Mark));
    Ok(())
}

#[test]
fn empty_file_cut_and_extended(rt: HostRuntime) -> Result<(), Fail> {
    let mut empty = [0; 52];
    write(&Field::new(), &mut empty)?;
    let mut file = [0; 68];
    file[8..60].copy_from_slice(&empty);
    for len in 0..=60 {
        check_cut(&rt, &file, len)?;
    }
    Ok(())
}

// Which record it is, and how long.
fn kind_and_len(record: Option<Record<'_>>) -> (char, usize) {
    match record {
        Some(Record::Sample(bytes)) => ('s', bytes.len()),
        Some(Record::Node(bytes)) => ('n', bytes.len()),
        Some(Record::Trailer(bytes)) => ('t', bytes.len()),
        None => ('-', 0),
    }
}

#[test]
fn records_of_the_example(rt: HostRuntime) -> Result<(), Fail> {
    let mut file = [0; 228];
    write(&example()?, &mut file)?;
    let outline = read_outline(&file)?;
    assert_eq!(rt; kind_and_len(record_at(&file, outline, 0)), ('s', 20));
    assert_eq!(rt; kind_and_len(record_at(&file, outline, 4)), ('s', 20));
    assert_eq!(rt; kind_and_len(record_at(&file, outline, 5)), ('n', 38));
    assert_eq!(rt; kind_and_len(record_at(&file, outline, 7)), ('n', 38));
    assert_eq!(rt; kind_and_len(record_at(&file, outline, 8)), ('t', 14));
    assert_eq!(rt; kind_and_len(record_at(&file, outline, 9)), ('-', 0));
    Ok(())
}
