// A small table, with values worked out by hand from the rules of the walk.
use super::{End, Entry, Of, Span, Table};
use arrayvec::ArrayVec;
use ranking::CODES;
use std::array;

// What four are asked of: two single samples and two nodes within the span, and a sample above it.
const K: u16 = 4;

fn sample(slot: u8, weight: u32, fibre: usize) -> Entry {
    Entry {
        of: Of::Sample { slot },
        near: weight,
        far: weight,
        count: 1,
        fibres: array::from_fn(|code| u16::from(code == fibre)),
    }
}

fn node(number: u16, depth: u8, near: u32, far: u32, fibres: [u16; CODES], count: u16) -> Entry {
    Entry {
        of: Of::Node { number, depth },
        near,
        far,
        count,
        fibres,
    }
}

fn five() -> Table {
    let mut entries = ArrayVec::new();
    entries.push(sample(3, 5, 1));
    entries.push(sample(1, 5, 2));
    entries.push(node(4, 2, 4, 9, [0, 2, 0, 0, 0, 0, 1, 0], 3));
    entries.push(node(2, 1, 7, 30, [2, 0, 0, 0, 0, 0, 0, 0], 2));
    entries.push(sample(7, 50, 3));
    Table { entries }
}

#[test]
fn a_node_of_least_depth_is_opened(rt: HostRuntime) {
    let mut table = five();
    let span = table.span(K);
    assert_eq!(rt; span, Span { low: 5, high: 9 });
    table.drop_above(span);
    assert_eq!(rt; table.entries.len(), 4);
    assert_eq!(rt; table.end(span, K, 1, 1), End::Going);
    assert_eq!(rt; table.next_open(span), Some((3, 2)));
}

// The wider node has far 30 and near 7: at most 5 to 1, and more than 4 to 1.
#[test]
fn nearby_at_a_wide_ratio(rt: HostRuntime) {
    let mut table = five();
    let span = table.span(K);
    table.drop_above(span);
    assert_eq!(rt; table.end(span, K, 5, 1), End::Nearby);
    assert_eq!(rt; table.end(span, K, 4, 1), End::Going);
}

#[test]
fn of_equal_weights_the_lower_slot_counts(rt: HostRuntime) {
    let mut entries = ArrayVec::new();
    entries.push(sample(3, 5, 1));
    entries.push(sample(1, 5, 2));
    entries.push(sample(7, 50, 3));
    let mut table = Table { entries };
    let span = table.span(1);
    table.drop_above(span);
    assert_eq!(rt; table.next_open(span), None);
    assert_eq!(rt; table.end(span, 1, 1, 1), End::Counted(2));
}

#[test]
fn settled_where_no_other_is_left(rt: HostRuntime) {
    let mut entries = ArrayVec::new();
    entries.push(sample(3, 5, 1));
    entries.push(sample(7, 50, 3));
    let mut table = Table { entries };
    let span = table.span(1);
    table.drop_above(span);
    assert_eq!(rt; table.end(span, 1, 1, 1), End::Settled(1));
}
