// What a heap can be asked and told.
ghost use Rattle.std.specs.Prelude.{◌≡◌, ◌-◌, ◌<◌, Some, [], ◌∷◌, ◌++◌, length, take};
ghost use Rattle.std.specs.Iterator.{at_most};
ghost use Rattle.std.specs.List.Sorted.{IsPermutation};
ghost use Rattle.heap.specs.Contents.{content, room, Pushed, Popped, First};
ghost use Rattle.heap.specs.Order.{Heaped, Kept};

use super::{Heap, Item, sift};

impl<'a, T: Item + Copy> Heap<'a, T> {
    // A heap that holds nothing, with room for as many items as the slice has places.
    pub fn new(items: &'a mut [T]) -> Heap<'a, T>
        ensures empty { content result ≡ [] }
        ensures room { room result ≡ length items.old }
    {
        Heap { items, len: 0 }
    }

    // Holds one item more; a full heap gives it back and keeps what it held.
    pub fn push(&mut self, item: T) -> Result<(), T>
        ensures cases { Pushed (content self.old) (room self.old) item (content self.new) result }
        ensures room { room self.new ≡ room self.old }
        ensures heaped { Heaped T.ahead (content self.old) → Heaped T.ahead (content self.new) }
    {
        if self.len == self.items.len() {
            return Err(item);
        }
        put(&mut self.items[..=self.len], item);
        self.len += 1;
        Ok(())
    }

    // Takes out the item that no other comes before; none where nothing is held.
    pub fn pop(&mut self) -> Option<T>
        ensures cases { Popped (content self.old) (content self.new) result }
        ensures room { room self.new ≡ room self.old }
        ensures heaped { Heaped T.ahead (content self.old) → Heaped T.ahead (content self.new) }
        ensures first { Heaped T.ahead (content self.old) → First T.ahead (content self.old) result }
    {
        let last = self.len.checked_sub(1)?;
        let first = take_first(&mut self.items[..=last]);
        self.len = last;
        Some(first)
    }
}

// A heap yields the items that it holds, each before all that are left.
impl<T: Item + Copy> Iterator for Heap<'_, T> {
    type Item = T;

    ghost remaining = { λ h. at_most (length (content h)) };

    ghost next_gives = { λ s r t. Popped (content s) (content t) r × (room t ≡ room s) × (Heaped T.ahead (content s) → Heaped T.ahead (content t)) × (Heaped T.ahead (content s) → First T.ahead (content s) r) };

    // Takes the item that comes first out of the heap; none where nothing is held.
    fn next(&mut self) -> Option<T> {
        self.pop()
    }
}

// Writes an item into the last place and lets it rise. That there is a place is asked of these steps one by one: a type for
// slices that are not empty would be taken apart in each of them.
fn put<T: Item + Copy>(items: &mut [T], item: T)
    requires { 0 < length items.old }
    ensures heaped { Kept T.ahead items.old (length items.old - 1) → Heaped T.ahead items.new }
    ensures items { IsPermutation (take (length items.old - 1) items.old ++ item ∷ []) items.new }
{
    let last = items.len() - 1;
    items[last] = item;
    sift::rise(items);
}

// Takes the first item out, and lets the last one sink from its place.
fn take_first<T: Item + Copy>(items: &mut [T]) -> T
    requires { 0 < length items.old }
    ensures heaped { Heaped T.ahead items.old → Kept T.ahead items.new (length items.old - 1) }
    ensures items { IsPermutation items.old (take (length items.old - 1) items.new ++ result ∷ []) }
    ensures first { Heaped T.ahead items.old → First T.ahead items.old (Some result) }
{
    let first = items[0];
    let last = items.len() - 1;
    items.swap(0, last);
    sift::sink(&mut items[..last]);
    first
}
