// The 256 slots, each empty or with a sample.
ghost use Rattle.std.specs.Prelude.{◌≡◌, length};

use super::sample::Sample;

mod calls;
mod held;

pub use held::Held;

// How many slots there are.
pub const SLOTS: usize = 256;

// What each slot holds, in the order of slots.
#[derive(Drop)]
pub struct Slots {
    cells: [Option<Sample>; SLOTS],
    ghost whole: { length cells ≡ 256 },
}
