// Why a call was refused.
ghost use Rattle.std.specs.Prelude.{◌≡◌};
ghost use Rattle.samples.specs.Refusals.{number_of};

#[derive(Clone, Copy, PartialEq, Eq, Debug)]
pub enum Refusal {
    // A slot, fibre, value, k or ratio is out of its range.
    OutOfRange = 9,
    // Admit into a slot that holds a sample.
    SlotFull = 10,
    // Withdraw from a slot that holds none.
    SlotEmpty = 11,
    // k is above the number of samples held.
    TooFewSamples = 12,
    // A step of a query that has ended.
    AfterTheEnd = 13,
    // A buffer is shorter than the file to be written.
    BufferTooSmall = 14,
    // A line of a script, or a whole script, that cannot be read.
    Unreadable = 15,
}

impl From<Refusal> for u8 {
    ghost from_gives = { λ refusal n. n ≡ number_of refusal };

    // The number that stands for the refusal wherever it is printed.
    fn from(refusal: Refusal) -> u8 {
        refusal as u8
    }
}
