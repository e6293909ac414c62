// Samples in 256 slots, and the exact verdict over them.
#![tactic(auto)]

mod candidate;
mod refusal;
mod sample;
mod slots;
mod verdict;

pub use candidate::Candidate;
pub use refusal::Refusal;
pub use sample::{MAX_FIBRE, MAX_VALUE, Reading, Sample};
pub use slots::{Held, SLOTS, Slots};
pub use verdict::{MAX_K, MIN_K, exact_verdict};
