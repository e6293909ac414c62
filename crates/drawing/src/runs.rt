// Runs: the slots whose samples lie in a box, gathered, counted and parted in place.
ghost use Rattle.std.specs.Prelude.{◌≡◌, ℕ, ◌<◌, ◌≤◌, length, slice_index};
ghost use Rattle.boxes.specs.Views.{box_of};
ghost use Rattle.trees.specs.Boxes.{everything};
ghost use Rattle.trees.specs.Drawing.{lodged};
ghost use Rattle.drawing.specs.Builds.{over};
ghost use Rattle.drawing.specs.Held.{held_in};
ghost use Rattle.drawing.specs.Runs.{Run, Parted, lodging, of_code};

use super::build::Builder;
use arrayvec::ArrayVec;
use boxes::Bounds;
use ranking::CODES;
use samples::{SLOTS, Slots};

// The slots that hold samples, in rising order.
pub(crate) fn gather(slots: &Slots) -> ArrayVec<u8, SLOTS>
    ensures { Run (held_in slots.now) everything result.items }
{
    let mut run = ArrayVec::new();
    for (slot, _) in slots.iter() {
        run.push(slot);
    }
    run
}

impl Builder<'_> {
    // How many slots of a run have a sample in the box.
    pub(crate) fn count_in(&self, run: &[u8], k: &Bounds) -> usize
        ensures { result ≡ lodging (over self.now) (box_of k.now) run.now }
    {
        run.iter().filter(|&&slot| self.is_lodged(slot, k)).count()
    }

    // Moves the slots of a run with samples in the box to its front, and says how many there are.
    pub(crate) fn part(&self, run: &mut [u8], k: &Bounds) -> usize
        ensures { Parted (lodged (over self.now) (box_of k.now)) run.old run.new result }
    {
        // By the index, since a turn swaps two of the slots; std has no partition in place, and a sort by the test would put
        // it to each slot several times.
        let mut front = 0;
        for i in 0..run.len() {
            if self.is_lodged(run[i], k) {
                run.swap(front, i);
                front += 1;
            }
        }
        front
    }

    // How many samples of each fibre a run has. A verdict counts its votes over a heap that it uses up, so that the two
    // have one statement in common.
    pub(crate) fn tally(&self, run: &[u8]) -> [u16; CODES]
        requires { length run.now ≤ 256 }
        ensures { (f : ℕ) → f < 8 → slice_index result f ≡ of_code (over self.now) run.now f }
    {
        let mut counts = [0; CODES];
        for &slot in run {
            if let Some(sample) = self.slots.get(slot) {
                counts[usize::from(sample.fibre())] += 1;
            }
        }
        counts
    }

    // Whether the slot has a sample in the box.
    fn is_lodged(&self, slot: u8, k: &Bounds) -> bool
        ensures { result ≡ lodged (over self.now) (box_of k.now) slot }
    {
        self.slots
            .get(slot)
            .is_some_and(|sample| k.covers(sample.values()))
    }
}
