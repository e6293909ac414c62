// The exact verdict: every sample is weighed once, and the k nearest are picked from a heap.
ghost use Rattle.std.specs.Prelude.{◌≡◌, ℕ, ◌<◌, ◌≤◌, [], IfOk, slice_index};
ghost use Rattle.heap.specs.Contents.{content, room};
ghost use Rattle.heap.specs.Order.{ahead, Heaped};
ghost use Rattle.samples.specs.Candidates.{Holds, by_weight};
ghost use Rattle.samples.specs.Questions.{weights, votes_on};
ghost use Rattle.samples.specs.Slots.{table, held};
ghost use Rattle.samples.specs.Verdict.{samples, verdict_rule, Exact};

use super::candidate::Candidate;
use super::refusal::Refusal;
use super::sample::Reading;
use super::slots::{SLOTS, Slots};
use heap::Heap;
use measure::{BANDS, Measure};
use ranking::{CODES, most_common};

// The least and the largest number of nearest samples that can be asked for.
pub const MIN_K: u16 = 1;

pub const MAX_K: u16 = 32;

// The most common fibre among the k nearest samples, by its code, as answers print it; the lowest code where several are as
// common. Measure, samples and reading come one by one, since the reading is checked here before a question can hold it.
pub fn exact_verdict<M: Measure>(
    measure: &M,
    slots: &Slots,
    reading: &[u16; BANDS],
    k: u16,
) -> Result<u8, Refusal>
    ensures value { result ≡ verdict_rule (M.weighed measure.now) (M.joined measure.now) (table slots.now) reading.now k }
    ensures exact { IfOk result (λ f. Exact (M.weighed measure.now) (M.joined measure.now) (table slots.now) reading.now k f) }
{
    let reading = Reading::new(reading)?;
    if !(MIN_K..=MAX_K).contains(&k) {
        return Err(Refusal::OutOfRange);
    }
    if k > slots.count() {
        return Err(Refusal::TooFewSamples);
    }
    let question = Question {
        measure,
        slots,
        reading,
    };
    Ok(most_common(&question.nearest_votes(k)))
}

// The samples, and the reading that a measure weighs them against.
#[derive(Drop)]
struct Question<'a, M> {
    measure: &'a M,
    slots: &'a Slots,
    reading: Reading,
}

impl<M: Measure> Question<'_, M> {
    // How many of the k nearest samples have each fibre. A run of slots is tallied where a tree is drawn: the two have one
    // statement in common.
    fn nearest_votes(&self, k: u16) -> [u32; CODES]
        requires { k ≤ samples (table self.now.slots.now) }
        ensures { (f : ℕ) → f < 8 → slice_index result f ≡ votes_on M.weighed M.joined self.now k f }
    {
        let mut room = [Candidate { weight: 0, slot: 0 }; SLOTS];
        let mut heap = Heap::new(&mut room);
        self.weigh_all(&mut heap);
        let mut votes = [0; CODES];
        for next in heap.take(usize::from(k)) {
            if let Some(sample) = self.slots.get(next.slot) {
                votes[usize::from(sample.fibre())] += 1;
            }
        }
        votes
    }

    // Weighs each sample and puts it into the heap. Slot by slot: an iterator that kept its place by hand made a verdict 16
    // in a hundred slower, and the one of `Slots` looks each slot up once more.
    fn weigh_all(&self, heap: &mut Heap<'_, Candidate>)
        requires empty { content heap.old ≡ [] }
        requires room { 256 ≤ room heap.old }
        ensures holds { Holds (content heap.new) (weights M.weighed M.joined self.now) (held (table self.now.slots.now)) 256 }
        ensures heaped { Heaped (ahead by_weight) (content heap.new) }
    {
        for slot in 0..=u8::MAX {
            if let Some(sample) = self.slots.get(slot) {
                let weight = measure::weight(self.measure, sample.values(), self.reading.values());
                let _ = heap.push(Candidate { weight, slot });
            }
        }
    }
}
