// The table: the entries of a walk, in no order.
use super::entry::Entry;
use arrayvec::ArrayVec;
use samples::SLOTS;

// Each entry has a sample at least, and each sample is in one entry at most: so there are never more entries than slots.
#[derive(Drop)]
pub struct Table {
    pub entries: ArrayVec<Entry, SLOTS>,
}
