// Calls and their answers as values; what any list of calls on one reader is answered is in specs/, its lemmas in proofs/.
#![tactic(auto)]

use fieldfile::Fault;
use measure::BANDS;
use samples::Refusal;

// A call with its arguments, as numbers that may be out of range.
#[derive(Clone, Copy)]
pub enum Call<'a> {
    Load(&'a [u8]),
    // Into a buffer of so many zeros.
    Write(usize),
    Admit {
        slot: u16,
        fibre: u16,
        values: [u16; BANDS],
    },
    Withdraw(u16),
    Rebuild,
    Open {
        reading: [u16; BANDS],
        k: u16,
        num: u16,
        den: u16,
    },
    Step,
    Finish,
    Span,
    // The sample at this place of the list, counted from 0.
    Witness(u16),
    Close,
}

// Whether a walk goes on after a step.
#[derive(Clone, Copy, PartialEq, Eq, Debug)]
pub enum Progress {
    Going,
    Ended,
}

// How a query came out when it was closed.
#[derive(Clone, Copy, PartialEq, Eq, Debug)]
pub enum Outcome {
    Settled { fibre: u8, steps: u16 },
    Nearby { fibre: u8, steps: u16 },
    Counted { fibre: u8, steps: u16 },
    Refused(Refusal),
    Abandoned,
}

// What a call answers; a write with what the buffer then holds.
#[derive(Drop)]
pub enum Answer {
    Loaded(Result<(), Fault>),
    Written(Result<usize, Refusal>, Vec<u8>),
    Admitted(Result<(), Refusal>),
    Withdrawn(Result<(), Refusal>),
    Rebuilt,
    Opened,
    Stepped(Result<Progress, Refusal>),
    Finished,
    Spanned(Option<(u32, u32)>),
    Witnessed(Option<u8>),
    Closed(Outcome),
    // A call of a query while none is open, or another while one is: it changes nothing.
    Misplaced,
}
