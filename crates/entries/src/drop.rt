// What lies above the span leaves the table.
ghost use Rattle.std.specs.Prelude.{◌≡◌, ℕ};
ghost use Rattle.walks.specs.Scenes.{Scene};
ghost use Rattle.walks.specs.Views.{high};
ghost use Rattle.walks.specs.Walk.{Place, view, dropping};
ghost use Rattle.entries.specs.Shows.{Shows};

use super::span::Span;
use super::table::Table;

impl Table {
    // Drops the entries whose near is above the high of the span.
    pub fn drop_above(&mut self, span: Span)
        ensures { (c : Scene) (p : ℕ → Place) (k : ℕ) → Shows c p self.old.entries.items → span.high ≡ high (view c p) k → Shows c (dropping c k p) self.new.entries.items }
    {
        self.entries.retain(|entry| entry.near <= span.high);
    }
}
