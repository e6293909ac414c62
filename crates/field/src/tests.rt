// Trees over samples, with the nodes that the reference in oracle/ draws; and trees that are told.
use super::{Field, Flaw};
use arrayvec::ArrayVec;
use boxes::{Bounds, Kind, Node};
use drawing::MAX_NODES;
use samples::Refusal;
use std::array;
use std::process::Abort;
use std::test::Fail;

fn node(rt: &impl Abort, field: &Field, number: usize) -> Node {
    let nodes = field.nodes();
    assert!(rt; number < nodes.len());
    nodes[number]
}

fn check_links(rt: &impl Abort, field: &Field, number: usize, kind: Kind, depth: u8) {
    let found = node(rt, field, number);
    assert_eq!(rt; found.kind, kind);
    assert_eq!(rt; found.bounds.depth(), depth);
}

fn five() -> Result<Field, Fail> {
    let mut field = Field::new();
    let samples = [(1, 10), (1, 12), (2, 600), (2, 610), (3, 14)];
    for (slot, (fibre, value)) in samples.into_iter().enumerate() {
        field.admit(slot as u16, fibre, &[value, 0, 0, 0, 0, 0, 0, 0])?;
    }
    field.rebuild();
    Ok(field)
}

#[test]
fn made_with_one_leaf(rt: HostRuntime) {
    let field = Field::new();
    assert_eq!(rt; field.nodes().len(), 1);
    check_links(&rt, &field, 0, Kind::Leaf, 0);
}

#[test]
fn split_at_the_middle(rt: HostRuntime) -> Result<(), Fail> {
    let field = five()?;
    assert_eq!(rt; field.nodes().len(), 3);
    check_links(&rt, &field, 0, Kind::Split { lower: 1, upper: 2 }, 0);
    check_links(&rt, &field, 1, Kind::Leaf, 1);
    assert_eq!(rt; node(&rt, &field, 0).counts, [0, 2, 2, 1, 0, 0, 0, 0]);
    assert_eq!(rt; field.leaf_of(&[511, 0, 0, 0, 0, 0, 0, 0]), 1);
    assert_eq!(rt; field.leaf_of(&[512, 0, 0, 0, 0, 0, 0, 0]), 2);
    Ok(())
}

#[test]
fn equal_readings_and_a_rim(rt: HostRuntime) -> Result<(), Fail> {
    let mut field = Field::new();
    for slot in 0..8u16 {
        field.admit(slot, 4, &[700; 8])?;
    }
    field.rebuild();
    assert_eq!(rt; field.nodes().len(), 3);
    check_links(&rt, &field, 0, Kind::Shrink { core: 1, rim: 2 }, 0);
    check_links(&rt, &field, 1, Kind::Leaf, 80);
    field.admit(9, 5, &[700, 700, 700, 700, 700, 700, 700, 701])?;
    assert_eq!(rt; field.nodes().len(), 3);
    assert_eq!(rt; node(&rt, &field, 2).counts, [0, 0, 0, 0, 0, 1, 0, 0]);
    assert_eq!(rt; node(&rt, &field, 0).counts, [0, 0, 0, 0, 8, 1, 0, 0]);
    field.withdraw(9)?;
    assert_eq!(rt; node(&rt, &field, 2).counts, [0; 8]);
    Ok(())
}

#[test]
fn cluster_shrinks_then_splits(rt: HostRuntime) -> Result<(), Fail> {
    let mut field = Field::new();
    for slot in 0..6u16 {
        field.admit(
            slot,
            slot % 2,
            &[300 + slot, 300, 300, 300, 300, 300, 300, 300],
        )?;
    }
    field.rebuild();
    assert_eq!(rt; field.nodes().len(), 5);
    check_links(&rt, &field, 0, Kind::Shrink { core: 1, rim: 4 }, 0);
    check_links(&rt, &field, 1, Kind::Split { lower: 2, upper: 3 }, 40);
    assert_eq!(rt;
        *node(&rt, &field, 3).bounds.corner(),
        [304, 288, 288, 288, 288, 288, 288, 288]
    );
    Ok(())
}

#[test]
fn all_slots(rt: HostRuntime) -> Result<(), Fail> {
    let mut field = Field::new();
    for slot in 0..256u32 {
        field.admit(slot as u16, (slot % 8) as u16, &scattered(slot))?;
    }
    field.rebuild();
    assert_eq!(rt; field.nodes().len(), 253);
    check_links(
        &rt,
        &field,
        0,
        Kind::Split {
            lower: 1,
            upper: 120,
        },
        0,
    );
    assert_eq!(rt; field.leaf_of(&scattered(17)), 102);
    assert_eq!(rt; field.leaf_of(&scattered(255)), 185);
    Ok(())
}

fn scattered(slot: u32) -> [u16; 8] {
    array::from_fn(|band| {
        let band = band as u32;
        let mixed = (slot.wrapping_mul(slot).wrapping_mul(7))
            .wrapping_add(slot.wrapping_mul(73))
            .wrapping_add(band * 191)
            .wrapping_add(slot.wrapping_mul(band).wrapping_mul(29));
        (mixed % 1024) as u16
    })
}

#[test]
fn refusals_change_nothing(rt: HostRuntime) -> Result<(), Fail> {
    let mut field = five()?;
    assert_eq!(rt; field.admit(4, 0, &[0; 8]), Err(Refusal::SlotFull));
    assert_eq!(rt; field.admit(256, 0, &[0; 8]), Err(Refusal::OutOfRange));
    assert_eq!(rt; field.admit(255, 8, &[0; 8]), Err(Refusal::OutOfRange));
    assert_eq!(rt; field.withdraw(255), Err(Refusal::SlotEmpty));
    assert_eq!(rt; field.slots().count(), 5);
    assert_eq!(rt; node(&rt, &field, 0).counts, [0, 2, 2, 1, 0, 0, 0, 0]);
    assert_eq!(rt; field.admit(255, 7, &[1023; 8]), Ok(()));
    Ok(())
}

// A field's nodes, with node 1 changed.
fn told(field: &Field, kind: Kind, bounds: Option<Bounds>) -> ArrayVec<Node, MAX_NODES> {
    let mut nodes = ArrayVec::new();
    for (number, node) in field.nodes().iter().enumerate() {
        let mut node = *node;
        if number == 1 {
            node.kind = kind;
            node.bounds = bounds.unwrap_or(node.bounds);
        }
        if !nodes.is_full() {
            nodes.push(node);
        }
    }
    nodes
}

#[test]
fn told_trees(rt: HostRuntime) -> Result<(), Fail> {
    let field = five()?;
    let mut same = Field::with_tree(told(&field, Kind::Leaf, None))
        .ok()
        .unwrap_or_default();
    assert_eq!(rt; same.nodes().len(), 3);
    assert_eq!(rt; node(&rt, &same, 0).counts, [0; 8]);
    same.admit(9, 6, &[700, 0, 0, 0, 0, 0, 0, 0])?;
    assert_eq!(rt; node(&rt, &same, 2).counts, [0, 0, 0, 0, 0, 0, 1, 0]);
    assert_eq!(rt; Field::with_tree(ArrayVec::new()).err(), Some(Flaw::Root));
    // Node 2 is then the child of nodes 0 and 1, and node 1 has it for both its children.
    let twice = Kind::Split { lower: 2, upper: 2 };
    assert_eq!(rt;
        Field::with_tree(told(&field, twice, None)).err(),
        Some(Flaw::Links(1))
    );
    let everything = Some(Bounds::everything());
    assert_eq!(rt;
        Field::with_tree(told(&field, Kind::Leaf, everything)).err(),
        Some(Flaw::Boxes(0))
    );
    Ok(())
}
