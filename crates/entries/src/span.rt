// The span of a table: the k-th smallest near and far, each sample counted with the bounds of its entry.
ghost use Rattle.std.specs.Prelude.{◌≡◌, ℕ, ◌<◌, ◌≤◌, true};
ghost use Rattle.std.specs.List.{All};
ghost use Rattle.ranking.specs.Counts.{count};
ghost use Rattle.walks.specs.Scenes.{Scene};
ghost use Rattle.walks.specs.Walk.{Place, view};
ghost use Rattle.entries.specs.Shows.{Shows};
ghost use Rattle.entries.specs.Spans.{Spans};
ghost use Rattle.entries.specs.Sums.{bound, size, KthSmallest};

use super::part::{Part, Side};
use super::table::Table;

#[derive(Clone, Copy, PartialEq, Eq, Debug)]
pub struct Span {
    pub low: u32,
    pub high: u32,
}

impl Table {
    // The span for the k nearest; it means nothing where fewer samples stand in the table.
    pub fn span(&self, k: u16) -> Span
        ensures { (c : Scene) (p : ℕ → Place) → Shows c p self.now.entries.items → 0 < k → k ≤ count (view c p).entered c.slots → Spans (view c p) k result }
    {
        Span {
            low: self.kth(Side::Near, k),
            high: self.kth(Side::Far, k),
        }
    }

    // The least value that k samples or more do not exceed, by halving the values in question: at most 32 passes.
    fn kth(&self, side: Side, k: u16) -> u32
        ensures { 0 < k → k ≤ size (λ e. true) self.now.entries.items → KthSmallest (bound side) self.now.entries.items k result }
    {
        let mut low = 0;
        let mut high = self.top(side);
        while low < high {
            let middle = low + (high - low) / 2;
            if self.size(Part::UpTo(side, middle)) < u32::from(k) {
                low = middle + 1;
            } else {
                high = middle;
            }
        }
        low
    }

    // The largest bound, 0 where there is no entry.
    fn top(&self, side: Side) -> u32
        ensures { All (λ e. bound side e ≤ result) self.now.entries.items }
    {
        self.entries
            .iter()
            .map(|entry| entry.bound(side))
            .max()
            .unwrap_or(0)
    }
}
