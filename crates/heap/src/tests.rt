// A heap of items whose order is not that of `==`, and one of numbers.
ghost use Rattle.std.specs.Prelude.{ℕ, nat_lt};
ghost use Rattle.std.proofs.Common.{rules};

use super::{Heap, Item};
use std::process::Abort;

// Two jobs are equal in both numbers, and one comes before the other by when it is due alone.
#[derive(Clone, Copy, PartialEq, Eq, Debug)]
struct Job {
    due: u32,
    load: u32,
}

impl Item for Job {
    ghost Key = { ℕ };

    ghost key = { λ x. x.due };

    ghost ahead = { λ x y. nat_lt x.due y.due };

    ghost one = { Prim.search rules };

    ghost neither = { Prim.search rules };

    ghost carries = { Prim.search rules };

    fn before(&self, other: &Job) -> bool {
        self.due < other.due
    }
}

#[test]
fn jobs_by_when_they_are_due(rt: HostRuntime) {
    let mut room = [Job { due: 0, load: 0 }; 4];
    let mut heap = Heap::new(&mut room);
    for (due, load) in [(5, 1), (2, 9), (7, 3)] {
        assert!(rt; heap.push(Job { due, load }).is_ok());
    }
    for due in [2, 5, 7] {
        assert!(rt; heap.pop().is_some_and(|x| x.due == due));
    }
    assert!(rt; heap.pop().is_none());
}

#[test]
fn numbers_by_size(rt: HostRuntime) {
    let mut room = [0; 3];
    let mut heap = Heap::new(&mut room);
    for x in [5, 2, 7] {
        assert!(rt; heap.push(x).is_ok());
    }
    assert!(rt; heap.push(1) == Err(1));
    for least in [2, 5, 7] {
        assert!(rt; heap.pop() == Some(least));
    }
    assert!(rt; heap.pop() == None::<u32>);
}
