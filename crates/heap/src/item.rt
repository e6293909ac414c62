// What a heap holds: items of which one comes before the other.
ghost use Rattle.std.specs.Prelude.{◌≡◌, Bool, true, false, ◌≢◌};
ghost use Rattle.std.specs.declared.cmp.Ordering.{Ordering};
ghost use Rattle.heap.specs.Laws.{carries, neither_alike, one_unlike};
ghost use Rattle.heap.specs.Order.{One, ahead};

// Items that come one before the other: of two with different keys exactly one comes first, of two with equal keys
// neither, and coming first carries over from item to item.
pub trait Item {
    ghost Key: { Type 0 };

    ghost key: { Self → Key };

    ghost ahead: { Self → Self → Bool };

    fn before(&self, other: &Self) -> bool
        ensures { result ≡ ahead self.now other.now };

    ghost one: { (x y : Self) → (key x ≢ key y) → One (ahead x y) (ahead y x) };

    ghost neither: { (x y : Self) → key x ≡ key y → ahead x y ≡ false };

    ghost carries: { (x y z : Self) → ahead x y ≡ true → ahead y z ≡ true → ahead x z ≡ true };
}

// What has a total order is an item: the lesser of two comes first.
impl<T: Ord> Item for T {
    ghost Key = { T → Ordering };

    ghost key = { T.cmp };

    ghost ahead = { ahead T.cmp };

    ghost one = { one_unlike T.total };

    ghost neither = { neither_alike T.total };

    ghost carries = { carries T.total };

    fn before(&self, other: &T) -> bool {
        self < other
    }
}
