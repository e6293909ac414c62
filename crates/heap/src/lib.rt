// A best-first heap: items of any order, kept in a slice that is lent.
#![tactic(auto)]

ghost use Rattle.std.specs.Prelude.{◌≤◌, length};

mod calls;
mod item;
mod sift;
#[cfg(test)]
mod tests;

pub use item::Item;

// The first `len` places of the slice hold the items; none comes before the one above it. The caller lends the room, since
// nothing here allocates: so how many places are taken stands beside the slice.
#[derive(Drop)]
pub struct Heap<'a, T> {
    items: &'a mut [T],
    len: usize,
    ghost within: { len ≤ length items.now },
}
