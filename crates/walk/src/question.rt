// A question: a reading, how many of the nearest samples are asked for, and the ratio that a nearby list has to keep.
ghost use Rattle.std.specs.Prelude.{◌≡◌, true};
ghost use Rattle.walk.specs.Questions.{in_range};

use samples::Reading;

mod calls;

pub use calls::ask;

// Its type says that it can be asked.
#[derive(Clone, Copy)]
pub struct Question {
    pub(crate) reading: Reading,
    pub(crate) k: u16,
    pub(crate) num: u16,
    pub(crate) den: u16,
    ghost ranges: { in_range (record { reading = reading.values; k = k; num = num; den = den }) ≡ true },
}
