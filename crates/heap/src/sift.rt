// The two moves of a heap in a slice: the last item rises to its place, the first sinks to its place.
ghost use Rattle.std.specs.Prelude.{◌≡◌, ℕ, ◌-◌, ◌/◌, ◌<◌, false, length, slice_index_or};
ghost use Rattle.std.specs.List.Sorted.{IsPermutation};
ghost use Rattle.heap.specs.Order.{above, Kept, KeptBelow, Heaped};

use super::Item;

// Lets the last item rise to its place.
pub(crate) fn rise<T: Item>(items: &mut [T])
    requires { 0 < length items.old }
    ensures heaped { Kept T.ahead items.old (length items.old - 1) → Heaped T.ahead items.new }
    ensures shuffled { IsPermutation items.old items.new }
{
    let mut at = items.len() - 1;
    // A loop over places that climbs from each to the one above it; it counts nothing.
    while at > 0 {
        let up = (at - 1) / 2;
        if !ahead_at(items, at, up) {
            return;
        }
        items.swap(at, up);
        at = up;
    }
}

// Lets the first item sink to its place.
pub(crate) fn sink<T: Item>(items: &mut [T])
    ensures heaped { KeptBelow T.ahead items.old → Heaped T.ahead items.new }
    ensures shuffled { IsPermutation items.old items.new }
{
    let n = items.len();
    let mut at = 0;
    // A loop over places that sinks from each to one right below it; it counts nothing.
    while at < n / 2 {
        let child = first_child(items, at);
        if !ahead_at(items, child, at) {
            return;
        }
        items.swap(at, child);
        at = child;
    }
}

// The place right below `at` whose item no other there comes before.
fn first_child<T: Item>(items: &[T], at: usize) -> usize
    requires { at < length items.now / 2 }
    ensures below { above result ≡ at }
    ensures within { (0 < result) × (result < length items.now) }
    ensures first { (d : T) (k : ℕ) → 0 < k → k < length items.now → above k ≡ at → T.ahead (slice_index_or items.now k d) (slice_index_or items.now result d) ≡ false }
{
    let left = 2 * at + 1;
    let right = left + 1;
    if right < items.len() && ahead_at(items, right, left) {
        right
    } else {
        left
    }
}

// Whether the item at i comes before the one at j.
fn ahead_at<T: Item>(items: &[T], i: usize, j: usize) -> bool
    requires i_within { i < length items.now }
    requires j_within { j < length items.now }
    ensures { (d : T) → result ≡ T.ahead (slice_index_or items.now i d) (slice_index_or items.now j d) }
{
    items[i].before(&items[j])
}
