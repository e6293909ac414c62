// A reader at rest: its measure, and its field with the room for a walk in one allocation.
use super::store::Store;
use measure::Measure;

mod calls;

#[derive(Drop)]
pub struct Reader<M: Measure> {
    pub(crate) measure: M,
    pub(crate) store: Box<Store>,
}
