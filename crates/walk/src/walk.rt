// The walk: the table of its entries, the node of each slot, and where it stands.
use crate::nearby::MAX_LIST;
use entries::{Span, Table};
use samples::SLOTS;

mod calls;

// How a walk has ended, if it has, with the fibre that it answers.
#[derive(Clone, Copy, PartialEq, Eq, Debug)]
pub enum End {
    Going,
    Settled(u8),
    Nearby(u8),
    Counted(u8),
}

// A sample that stands in a node stands in the one that `places` has for its slot.
#[derive(Drop)]
pub struct Walk {
    table: Table,
    places: [u16; SLOTS],
    span: Span,
    steps: u16,
    end: End,
    list: [u8; MAX_LIST],
}
