// The most common fibre where no node is active.
ghost use Rattle.std.specs.Prelude.{◌≡◌, ℕ, ◌≤◌, [], true, min};
ghost use Rattle.ranking.specs.Counts.{count};
ghost use Rattle.heap.specs.Contents.{content, room};
ghost use Rattle.heap.specs.Order.{ahead, Heaped};
ghost use Rattle.samples.specs.Candidates.{by_weight};
ghost use Rattle.walks.specs.Scenes.{Scene};
ghost use Rattle.walks.specs.Views.{active, left, commonest, is_counted};
ghost use Rattle.walks.specs.Walk.{Place, view};
ghost use Rattle.entries.specs.Queues.{Queued};
ghost use Rattle.entries.specs.Shows.{Shows};
ghost use Rattle.entries.specs.Singles.{candidate_in, Last};
ghost use Rattle.entries.specs.Spans.{Spans};

use super::entry::{Entry, Of};
use super::part::Part;
use super::span::Span;
use super::table::Table;
use heap::Heap;
use ranking::most_common;
use samples::{Candidate, SLOTS};

impl Entry {
    // The sample that it stands for, if it is an active one.
    pub(crate) fn candidate(&self, span: Span) -> Option<Candidate>
        ensures { result ≡ candidate_in span self.now }
    {
        match self.of {
            Of::Sample { slot } if self.is_active(span) => Some(Candidate {
                weight: self.near,
                slot,
            }),
            _ => None,
        }
    }
}

impl Table {
    // The most common fibre of the inside samples and the first of the active ones, of which some are left.
    pub(crate) fn counted(&self, span: Span, some: u32) -> u8
        ensures { (c : Scene) (p : ℕ → Place) (k : ℕ) → c.slots ≡ 256 → Shows c p self.now.entries.items → Spans (view c p) k span → some ≡ left (view c p) k → is_counted (view c p) k ≡ true → result ≡ commonest (view c p) k }
    {
        let last = self.last_candidate(span, some as usize);
        most_common(&self.votes_by_fibre(Part::Listed(span, last)))
    }

    // The last of the first active samples; none where there is none of them.
    fn last_candidate(&self, span: Span, some: usize) -> Option<Candidate>
        ensures { (c : Scene) (p : ℕ → Place) (k : ℕ) → c.slots ≡ 256 → Shows c p self.now.entries.items → Spans (view c p) k span → is_counted (view c p) k ≡ true → Last (view c p).near (active (view c p) k) (min some (count (active (view c p) k) 256)) result }
    {
        let mut room = [Candidate { weight: 0, slot: 0 }; SLOTS];
        let mut heap = Heap::new(&mut room);
        self.queue_samples(span, &mut heap);
        heap.take(some).last()
    }

    // Puts each active sample into the heap.
    fn queue_samples(&self, span: Span, heap: &mut Heap<'_, Candidate>)
        requires empty { content heap.old ≡ [] }
        requires room { 256 ≤ room heap.old }
        ensures queued { Queued (candidate_in span) self.now.entries.items (content heap.new) }
        ensures heaped { Heaped (ahead by_weight) (content heap.new) }
    {
        for entry in self.entries.iter() {
            if let Some(sample) = entry.candidate(span) {
                let _ = heap.push(sample);
            }
        }
    }
}
