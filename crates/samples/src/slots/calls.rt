// What the slots can be asked and told.
ghost use Rattle.std.specs.Prelude.{◌≡◌, ◌<◌, ◌≤◌, replicate, None, MatchResult};
ghost use Rattle.std.specs.Option.{option_map};
ghost use Rattle.samples.specs.Slots.{table, point, at, held, admit_rule, withdraw_rule};
ghost use Rattle.samples.specs.Verdict.{samples};
ghost use Rattle.samples.specs.declared.refusal.Refusal.TheVariants.{OutOfRange};

use super::{SLOTS, Slots};
use crate::refusal::Refusal;
use crate::sample::Sample;
use measure::BANDS;

impl Slots {
    // Slots that are all empty.
    pub fn new() -> Slots
        ensures { table result ≡ replicate 256 None }
    {
        Slots {
            cells: [None; SLOTS],
        }
    }

    // The sample in a slot.
    pub fn get(&self, slot: u8) -> Option<&Sample>
        ensures { option_map (λ x. point x.now) result ≡ at (table self.now) slot }
    {
        self.cells[usize::from(slot)].as_ref()
    }

    // How many samples there are.
    pub fn count(&self) -> u16
        ensures { result ≡ samples (table self.now) }
    {
        self.cells
            .iter()
            .map(|cell| u16::from(cell.is_some()))
            .sum()
    }

    // Puts a sample into an empty slot. It is told by its numbers, which may be out of range, as a script names them.
    pub fn admit(&mut self, slot: u16, fibre: u16, values: &[u16; BANDS]) -> Result<(), Refusal>
        ensures { (table self.new, result) ≡ admit_rule (table self.old) slot fibre values.now }
    {
        let at = index_of(slot)?;
        let sample = Sample::new(fibre, values)?;
        if self.cells[at].is_some() {
            return Err(Refusal::SlotFull);
        }
        self.cells[at] = Some(sample);
        Ok(())
    }

    // Empties a slot that holds a sample. Tested and then written: `take` was tried, and no proof of it could be made.
    pub fn withdraw(&mut self, slot: u16) -> Result<(), Refusal>
        ensures { (table self.new, result) ≡ withdraw_rule (table self.old) slot }
    {
        let at = index_of(slot)?;
        if self.cells[at].is_none() {
            return Err(Refusal::SlotEmpty);
        }
        self.cells[at] = None;
        Ok(())
    }
}

// The index of a slot's cell, if there is such a slot.
fn index_of(slot: u16) -> Result<usize, Refusal>
    ensures { MatchResult result (λ at. (at ≡ slot) × (at < 256)) (λ e. (256 ≤ slot) × (e ≡ OutOfRange)) }
{
    u8::try_from(slot)
        .map(usize::from)
        .map_err(|_| Refusal::OutOfRange)
}
