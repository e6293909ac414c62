// A sample that has been weighed. The lower weight comes first, and of equal weights the lower slot.
#[derive(Clone, Copy, PartialEq, Eq, PartialOrd, Ord)]
pub struct Candidate {
    pub weight: u32,
    pub slot: u8,
}
