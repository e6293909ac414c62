// Parts of a table, and how many samples stand in one.
ghost use Rattle.std.specs.Prelude.{◌≡◌, ℕ, ◌<◌, slice_index};
ghost use Rattle.entries.specs.declared.part.Part.TheVariants.{Active};
ghost use Rattle.entries.specs.Singles.{reaches};
ghost use Rattle.entries.specs.Sums.{bound, passes, size, votes};

use super::entry::Entry;
use super::span::Span;
use super::table::Table;
use ranking::CODES;
use samples::Candidate;
use std::array;

// The two bounds of an entry.
#[derive(Clone, Copy)]
pub(crate) enum Side {
    Near,
    Far,
}

// The entries with a bound up to a value, those that are inside or active, and those that are inside or an active sample
// that does not come after the last one.
#[derive(Clone, Copy)]
pub(crate) enum Part {
    UpTo(Side, u32),
    Inside(Span),
    Active(Span),
    Listed(Span, Option<Candidate>),
}

impl Entry {
    pub(crate) fn bound(&self, side: Side) -> u32
        ensures { result ≡ bound side self.now }
    {
        match side {
            Side::Near => self.near,
            Side::Far => self.far,
        }
    }

    // Whether it is neither inside nor above the span.
    pub(crate) fn is_active(&self, span: Span) -> bool
        ensures { result ≡ passes (Active span) self.now }
    {
        span.low <= self.far && self.near <= span.high
    }

    pub(crate) fn is_in(&self, part: Part) -> bool
        ensures { result ≡ passes part self.now }
    {
        match part {
            Part::UpTo(side, value) => self.bound(side) <= value,
            Part::Inside(span) => self.far < span.low,
            Part::Active(span) => self.is_active(span),
            Part::Listed(span, last) => {
                self.far < span.low || is_reached(last, self.candidate(span))
            }
        }
    }
}

// Whether there is a sample that does not come after the last one.
pub(crate) fn is_reached(last: Option<Candidate>, sample: Option<Candidate>) -> bool
    ensures { result ≡ reaches last sample }
{
    match (last, sample) {
        (Some(last), Some(sample)) => sample <= last,
        _ => false,
    }
}

impl Table {
    // How many samples stand in a part.
    pub(crate) fn size(&self, part: Part) -> u32
        ensures { result ≡ size (passes part) self.now.entries.items }
    {
        self.entries
            .iter()
            .filter(|entry| entry.is_in(part))
            .map(|entry| u32::from(entry.count))
            .sum()
    }

    // How many of these have a fibre.
    fn votes(&self, part: Part, fibre: u8) -> u32
        requires { fibre < 8 }
        ensures { result ≡ votes (passes part) fibre self.now.entries.items }
    {
        self.entries
            .iter()
            .filter(|entry| entry.is_in(part))
            .map(|entry| u32::from(entry.fibres[usize::from(fibre)]))
            .sum()
    }

    // How many of these have each fibre.
    pub(crate) fn votes_by_fibre(&self, part: Part) -> [u32; CODES]
        ensures { (f : ℕ) → f < 8 → slice_index result f ≡ votes (passes part) f self.now.entries.items }
    {
        array::from_fn(|fibre| self.votes(part, fibre as u8))
    }
}
